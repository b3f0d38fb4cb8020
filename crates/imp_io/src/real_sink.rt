// A sink over a writer of the system.
ghost use Rattle.std.specs.Prelude.{◌≡◌, ◌^◌, ◌<◌};
ghost use Rattle.imp_io.specs.Sink.{Puts, HasSmallCounts, faults_after};

use crate::{Sink, SinkFault};
use std::io::Write;

/// Puts each piece to a writer. It takes no memory. A write that takes nothing is a fault.
#[derive(Drop)]
pub struct RealSink<W> {
    to: W,
    faults: u64,
    ghost small: { faults < 2 ^ 64 },
}

impl<W: Write + Drop> RealSink<W> {
    pub fn new(to: W) -> Self
        ensures { ⟦<RealSink<W> as Sink>⟧.seen result ≡ record { written = W.contents to; faults = 0; denied = 0 } }
    {
        RealSink { to, faults: 0 }
    }
}

impl<W: Write + Drop> Sink for RealSink<W> {
    /// What the writer tells. Standard output tells nothing.
    ghost seen = { λ s. record { written = W.contents s.to; faults = s.faults; denied = 0 } };

    fn put(&mut self, piece: &[u8]) -> Result<(), SinkFault>
        ensures puts { Puts (⟦<RealSink<W> as Sink>⟧.seen self.old) piece.now result (⟦<RealSink<W> as Sink>⟧.seen self.new) }
        ensures small { HasSmallCounts (⟦<RealSink<W> as Sink>⟧.seen self.new) }
        ensures counted { (⟦<RealSink<W> as Sink>⟧.seen self.new).faults ≡ faults_after (⟦<RealSink<W> as Sink>⟧.seen self.old).faults result }
    {
        let mut rest = piece;
        while !rest.is_empty() {
            match self.to.write(rest) {
                Ok(n) if n > 0 => rest = &rest[n..],
                _ => {
                    self.faults = self.faults.saturating_add(1);
                    return Err(SinkFault::Failed);
                }
            }
        }
        Ok(())
    }
}
