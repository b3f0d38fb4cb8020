// The reader of netlists.
ghost use Rattle.std.specs.Prelude.{◌≡◌, ◌^◌, ◌<◌, length, None, All, OnOk, IfOk, IfErr};
ghost use Rattle.netlist_spec.specs.FileRules.{IsFile};
ghost use Rattle.netlist_spec.specs.ReadFaults.{read_fault};
ghost use Rattle.netlist_spec.specs.Reads.{Reads};
ghost use Rattle.blif_read.specs.Faults.{fault_of, IsFault};
ghost use Rattle.blif_read.specs.Ids.{HasIds};
ghost use Rattle.blif_read.specs.View.{file_of};

use crate::line::{Line, fill_words};
use crate::models::FileSoFar;
use crate::summary::Summary;
use crate::{BlifFault, File};
use imp_text::Lines;
use std::alloc::Global;

/// The file that a text says, with its lines numbered from 1 and the nets of each model in order of first appearance,
/// or its first fault.
pub fn read(alloc: Global, bytes: &[u8]) -> Result<File, BlifFault>
    requires { length bytes.now < 2 ^ 32 }
    ensures reads { IfOk result (λ file. Reads bytes.now (file_of file)) }
    ensures ok { OnOk result (read_fault bytes.now ≡ None) }
    ensures is_file { IfOk result (λ file. IsFile (file_of file)) }
    ensures ids { IfOk result (λ file. All HasIds file.models.items) }
    ensures fault { IfErr result (λ fault. IsFault (read_fault bytes.now) (fault_of fault)) }
{
    let mut lines = Lines::new(bytes);
    let mut tokens = Vec::new(alloc);
    let mut words = Vec::new(alloc);
    let mut summary = Summary::new(alloc);
    let mut file = FileSoFar::new(alloc);
    'lines: while let Some(number) = lines.next_line(&mut tokens)? {
        fill_words(bytes, &tokens, &mut words)?;
        let line = Line::new(number, &words);
        summary.check(alloc, &line)?;
        file.add_line(alloc, &line)?;
        summary.add(&line)?;
    }
    if !summary.has_model() {
        return Err(BlifFault::NoModel(0));
    }
    Ok(file.close()?)
}
