// Files of the system.
ghost use Rattle.std.specs.Prelude.{◌≡◌, ◌+◌, ◌^◌, ◌<◌, ◌≤◌, None, IfOk, IfSome, IsErrOf, length, vec_len};
ghost use Rattle.imp_io.specs.Counts.{Rose, RoseBy, raised_by};
ghost use Rattle.imp_io.specs.Files.{Loads, IsLater, IsInOrder, CountsLoad, faults_after};

use crate::{Files, LoadFault};
use std::alloc::Global;
use std::fs::File;
use std::io::Read;
use std::rt;

/// Files of the system, by their paths. What they hold isn't known.
#[derive(Drop)]
pub struct RealFiles<'a, R> {
    rt: &'a R,
    counts: Counts,
}

#[derive(Drop)]
struct Counts {
    faults: u64,
    taken: u64,
    ghost faults_small: { faults < 2 ^ 64 },
    ghost taken_small: { taken < 2 ^ 64 },
}

impl<'a, R: rt::Files> RealFiles<'a, R> {
    pub fn new(rt: &'a R) -> Self
        ensures { ⟦<RealFiles<'a, R> as Files>⟧.seen result ≡ record { told = None; faults = 0; taken = 0 } }
    {
        RealFiles {
            rt,
            counts: Counts {
                faults: 0,
                taken: 0,
            },
        }
    }
}

impl<'a, R: rt::Files> Files for RealFiles<'a, R> {
    ghost seen = { λ f. record { told = None; faults = f.counts.faults; taken = f.counts.taken } };

    fn load(&mut self, alloc: Global, name: &str, most: usize) -> Result<Vec<u8>, LoadFault>
        ensures loads { Loads (⟦<RealFiles<'a, R> as Files>⟧.seen self.old) name.now most result (⟦<RealFiles<'a, R> as Files>⟧.seen self.new) }
        ensures later { IsLater (⟦<RealFiles<'a, R> as Files>⟧.seen self.old) (⟦<RealFiles<'a, R> as Files>⟧.seen self.new) }
        ensures in_order { IsInOrder (⟦<RealFiles<'a, R> as Files>⟧.seen self.new) }
        ensures counted { CountsLoad (⟦<RealFiles<'a, R> as Files>⟧.seen self.old) result (⟦<RealFiles<'a, R> as Files>⟧.seen self.new) }
    {
        match File::open(self.rt, name) {
            Ok(mut file) => read_whole(alloc, &mut file, most, &mut self.counts),
            Err(_) => {
                self.counts.faults = self.counts.faults.saturating_add(1);
                Err(LoadFault::Failed)
            }
        }
    }
}

// All that is left of a reader, if that is at most `most` bytes.
fn read_whole<S: Read>(
    alloc: Global,
    from: &mut S,
    most: usize,
    counts: &mut Counts,
) -> Result<Vec<u8>, LoadFault>
    ensures within { IfOk result (λ bytes. vec_len bytes ≤ most) }
    ensures whole { IfOk result (λ bytes. IfSome (S.remaining from.old) (λ left. bytes.items ≡ left)) }
    ensures failed { IsErrOf result LoadFault.Failed → Rose counts.old.faults counts.new.faults }
    ensures too_long { IsErrOf result LoadFault.TooLong → RoseBy (most + 1) counts.old.taken counts.new.taken }
    ensures too_long_left { IsErrOf result LoadFault.TooLong → IfSome (S.remaining from.old) (λ left. most < length left) }
    ensures faults { counts.new.faults ≡ faults_after counts.old.faults result }
    ensures taken { IfOk result (λ bytes. counts.new.taken ≡ raised_by counts.old.taken (vec_len bytes)) }
    ensures taken_stay { counts.old.taken ≤ counts.new.taken }
{
    let mut bytes = Vec::new(alloc);
    let mut buffer = [0; 4096];
    loop {
        match from.read(&mut buffer) {
            Ok(0) => return Ok(bytes),
            Ok(n) => {
                counts.taken = counts.taken.saturating_add(n as u64);
                if n > most - bytes.len() {
                    return Err(LoadFault::TooLong);
                }
                if bytes.extend_from_slice(&buffer[..n]).is_err() {
                    return Err(LoadFault::NoMemory);
                }
            }
            Err(_) => {
                counts.faults = counts.faults.saturating_add(1);
                return Err(LoadFault::Failed);
            }
        }
    }
}
