// Names as they are printed, put in pieces: a long word takes few writes, and none takes memory.
ghost use Rattle.std.specs.Prelude.{◌≡◌, ◌≤◌, ◌++◌, ◌∷◌, length};
ghost use Rattle.std.specs.List.{flat_map};
ghost use Rattle.imp_io.specs.Sink.{Puts};
ghost use Rattle.netlist_spec.specs.Escapes.{escape as escape_of, escaped as escaped_name};
ghost use Rattle.refusals.specs.Lines.{each_text};

use arrayvec::ArrayVec;
use blif_read::{NameId, Names};
use imp_io::{Sink, SinkFault};
use imp_text::escape;

// The most bytes of a name in a piece, each of which is printed as at most four.
const MOST_NAME_BYTES: usize = 256;

pub(crate) fn put_escaped<E: Sink>(name: &[u8], err: &mut E) -> Result<(), SinkFault>
    ensures { Puts (E.seen err.old) (flat_map escape_of name.now) result (E.seen err.new) }
{
    for chunk in name.chunks(MOST_NAME_BYTES) {
        err.put(&escaped(chunk))?;
    }
    Ok(())
}

/// Two names with a blank between them.
pub(crate) fn put_pair<E: Sink>(one: &[u8], other: &[u8], err: &mut E) -> Result<(), SinkFault>
    ensures { Puts (E.seen err.old) (escaped_name one.now ++ 32 ∷ escaped_name other.now) result (E.seen err.new) }
{
    put_escaped(one, err)?;
    put_behind_blank(other, err)
}

/// Names, each of which follows a blank.
pub(crate) fn put_each<E: Sink>(names: &Names, err: &mut E) -> Result<(), SinkFault>
    ensures { Puts (E.seen err.old) (each_text names.now) result (E.seen err.new) }
{
    for i in 0..names.len() {
        put_behind_blank(names.get(NameId(i)), err)?;
    }
    Ok(())
}

fn put_behind_blank<E: Sink>(name: &[u8], err: &mut E) -> Result<(), SinkFault>
    ensures { Puts (E.seen err.old) (32 ∷ escaped_name name.now) result (E.seen err.new) }
{
    err.put(b" ")?;
    put_escaped(name, err)
}

fn escaped(chunk: &[u8]) -> ArrayVec<u8, 1024>
    requires { length chunk.now ≤ 256 }
    ensures { result.items ≡ flat_map escape_of chunk.now }
{
    let mut printed = ArrayVec::new();
    for b in chunk {
        let Ok(()) = printed.try_extend_from_slice(&escape(*b)) else {
            unreachable!();
        };
    }
    printed
}
