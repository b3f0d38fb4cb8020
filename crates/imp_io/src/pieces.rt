// A line that is put in pieces.
ghost use Rattle.std.specs.List.{flat_map};
ghost use Rattle.imp_io.specs.Sink.{Puts, bytes_of};

use crate::{Sink, SinkFault};

/// Puts pieces one after another, up to the first put that fails.
pub fn put_all<O: Sink>(pieces: &[&[u8]], out: &mut O) -> Result<(), SinkFault>
    ensures { Puts (O.seen out.old) (flat_map bytes_of pieces.now) result (O.seen out.new) }
{
    for piece in pieces {
        out.put(piece)?;
    }
    Ok(())
}
