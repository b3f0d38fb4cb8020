// Stimulus files.
ghost use Rattle.std.specs.Prelude.{◌≡◌, ◌<◌, ◌≤◌, ◌^◌, length, slice_get, Ok, Some, IfOk, IfErr};
ghost use Rattle.stimulus_spec.specs.Stimulus.{stimulus_of};
ghost use Rattle.sim_text.specs.Faults.{IsStimFault};

use crate::StimFault;
use crate::bits::Bits;
use crate::row::push_row;
use imp_text::Lines;
use std::alloc::Global;
use std::marker::Model;

const MOST_CYCLES: u32 = 1_000_000;

/// The bits of the data inputs in each cycle.
#[derive(Drop)]
pub struct Stimulus {
    inputs: u32,
    cycles: u32,
    bits: Bits,
}

impl Model for Stimulus {
    ghost use Rattle.std.specs.Prelude.{◌≡◌, ◌≤◌, ◌*◌, length};
    ghost use Rattle.sim_text.specs.Rows.{Rows, rows};

    ghost Value = { Rows };

    ghost view = { λ s. record { inputs = s.inputs; cycles = rows s.inputs s.cycles s.bits } };

    ghost invariant = { λ s. (s.cycles ≤ 1000000) × (length s.bits ≡ s.cycles * s.inputs) };
}

impl Stimulus {
    /// The stimulus that a text says for so many data inputs, or its first line at fault.
    pub fn read(alloc: Global, bytes: &[u8], inputs: u32) -> Result<Stimulus, StimFault>
        requires { length bytes.now < 2 ^ 32 }
        ensures ok { IfOk result (λ s. stimulus_of inputs bytes.now ≡ Ok s.cycles) }
        ensures inputs { IfOk result (λ s. s.inputs ≡ inputs) }
        ensures fault { IfErr result (λ fault. IsStimFault (stimulus_of inputs bytes.now) fault) }
    {
        let mut lines = Lines::plain(bytes);
        let mut words = Vec::new(alloc);
        let mut bits = Bits::new(alloc);
        let mut cycles = 0;
        'lines: while let Some(number) = lines.next_line(&mut words)? {
            if cycles == MOST_CYCLES {
                return Err(StimFault::BadStimulus(number));
            }
            let fits = push_row(bytes, &words, inputs, &mut bits)?;
            if !fits {
                return Err(StimFault::BadStimulus(number));
            }
            cycles += 1;
        }
        Ok(Stimulus {
            inputs,
            cycles,
            bits,
        })
    }

    /// How many cycles there are.
    pub fn cycles(&self) -> u32
        ensures count { result ≡ length self.now.cycles }
        ensures few { length self.now.cycles ≤ 1000000 }
    {
        self.cycles
    }

    /// Puts the bits of cycle `c` into `x`, which has one place for each data input.
    pub fn row(&self, c: u32, x: &mut [bool])
        requires cycle { c < length self.now.cycles }
        requires width { length x.old ≡ self.now.inputs }
        ensures { slice_get self.now.cycles c ≡ Some x.new }
    {
        let width = self.inputs as usize;
        let start = c as usize * width;
        self.bits.copy_to(start, x);
    }
}
