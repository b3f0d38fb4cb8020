// Texts that are put in blocks.
ghost use Rattle.imp_io.specs.Sink.{PutsOnce};

use crate::{Sink, SinkFault};
use arrayvec::ArrayVec;

/// How many bytes a block has.
pub const BLOCK: usize = 16384;

/// Gathers a text in a block of its own and puts it to a sink block by block. It takes no memory. A fault of the
/// sink is kept: nothing more is put behind it, and `flush` answers it.
#[derive(Drop)]
pub struct Blocks<'a, O> {
    to: &'a mut O,
    block: ArrayVec<u8, BLOCK>,
    stopped: Option<SinkFault>,
}

impl<'a, O: Sink> Blocks<'a, O> {
    ghost use Rattle.std.specs.Prelude.{◌≡◌, []};
    ghost use Rattle.std.specs.List.{flat_map};
    ghost use Rattle.imp_io.specs.Sink.{bytes_of};
    ghost use Rattle.imp_io.specs.Blocks.{Flushes, Gives, Stands};

    /// Nothing is given yet.
    pub fn new(to: &'a mut O) -> Self
        ensures same_sink { result.to.ghost_name ≡ to.entry.ghost_name }
        ensures nothing { Stands O.seen (O.seen to.old) [] result }
    {
        Blocks {
            to,
            block: ArrayVec::new(),
            stopped: None,
        }
    }

    /// Gives one more piece of the text.
    pub fn put(&mut self, piece: &[u8])
        ensures { Gives O.seen self.old piece.now self.new }
    {
        let mut rest = piece;
        while rest.len() >= self.block.remaining_capacity() {
            let (front, more) = rest.split_at(self.block.remaining_capacity());
            let _ = self.block.try_extend_from_slice(front);
            self.put_block();
            rest = more;
        }
        let _ = self.block.try_extend_from_slice(rest);
    }

    /// Gives the pieces of a line.
    pub fn put_all(&mut self, pieces: &[&[u8]])
        ensures { Gives O.seen self.old (flat_map bytes_of pieces.now) self.new }
    {
        for piece in pieces {
            self.put(piece);
        }
    }

    /// Puts what the block still holds, and answers the first fault of the sink.
    pub fn flush(&mut self) -> Result<(), SinkFault>
        ensures { Flushes O.seen self.old result self.new }
    {
        self.put_block();
        match self.stopped {
            None => Ok(()),
            Some(fault) => Err(fault),
        }
    }

    // Puts the block, unless a fault came before, and empties it.
    fn put_block(&mut self)
        ensures gives { Gives O.seen self.old [] self.new }
        ensures empty { self.new.block.items ≡ [] }
    {
        self.stopped = put_once(self.stopped, self.block.as_slice(), self.to);
        self.block.clear();
    }
}

// Puts a block that isn't empty, unless a fault came before. Answers the fault that came first.
fn put_once<O: Sink>(stopped: Option<SinkFault>, block: &[u8], to: &mut O) -> Option<SinkFault>
    ensures { PutsOnce stopped (O.seen to.old) block.now result (O.seen to.new) }
{
    if stopped.is_some() || block.is_empty() {
        return stopped;
    }
    to.put(block).err()
}
