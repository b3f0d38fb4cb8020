// A long flat netlist, which is written in few puts.
ghost use Rattle.std.specs.Prelude.{None};

use blif_read::read;
use blif_write::write;
use elaborate::elaborate;
use elaborated::{flat, name_flat};
use imp_io::{Sink, SinkFault};
use named_netlist::Named;
use std::alloc::{AllocError, Global};
use std::test::Fail;

// A sink that counts its puts and their bytes.
#[derive(Drop)]
struct Counted {
    puts: usize,
    bytes: usize,
}

impl Sink for Counted {
    ghost seen = { λ _. record { written = None; faults = 0; denied = 0 } };

    fn put(&mut self, piece: &[u8]) -> Result<(), SinkFault> {
        self.puts = self.puts.saturating_add(1);
        self.bytes = self.bytes.saturating_add(piece.len());
        Ok(())
    }
}

// The flat netlist of a chain of so many inverters, if it has a meaning.
fn chain(alloc: Global, inverters: u32) -> Result<Option<Named>, AllocError> {
    let mut text = b".model m\n.inputs n0\n.outputs y\n".to_vec(alloc)?;
    for n in 0..inverters {
        let next = n.saturating_add(1);
        let line = format!(in alloc; ".names n{n} n{next}\n0 1\n")?;
        text.extend_from_slice(line.as_bytes())?;
    }
    let last = format!(in alloc; ".names n{inverters} y\n0 1\n.end\n")?;
    text.extend_from_slice(last.as_bytes())?;
    if text.len() > 1_000_000 {
        return Ok(None);
    }
    match read(alloc, &text) {
        Ok(file) => {
            let Ok(e) = elaborate(alloc, file, &[], &[]) else {
                return Ok(None);
            };
            let nets = flat(alloc, &e)?;
            Ok(Some(name_flat(alloc, e, nets)?))
        }
        Err(_) => Ok(None),
    }
}

#[test]
fn a_long_text_is_written_in_few_puts(rt: HostRuntime) -> Result<(), Fail> {
    let alloc = rt.alloc();
    let g = chain(alloc, 3000)?.ok_or("it has a meaning")?;
    let mut out = Counted { puts: 0, bytes: 0 };
    assert_eq!(rt; write(&g, &mut out), Ok(()));
    assert!(rt; out.bytes > 50_000);
    assert!(rt; out.puts <= out.bytes / 4096);
    Ok(())
}
