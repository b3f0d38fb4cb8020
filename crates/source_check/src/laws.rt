// What the answers to a file exclude: each law is the contract of a function that does nothing.
ghost use Rattle.std.specs.Prelude.{◌≡◌};
ghost use Rattle.netlist_spec.specs.Covers.{Library};
ghost use Rattle.netlist_spec.specs.Netlist.{File};
ghost use Rattle.netlist_spec.specs.Sound.{IsSound};
ghost use Rattle.netlist_spec.specs.SoundFaults.{IsRefusedWith, SoundFault};

use netlist_spec::sound_files_are_not_refused;
use refusal_laws::files_have_one_refusal;

/// A file is not both sound and refused, and it has at most one refusal. That it is one of the two is what `check` finds.
pub fn files_are_not_both_and_refused_once()
    ensures not_both { (file : File) (library : Library) (fault : SoundFault)
        → IsSound file library → IsRefusedWith file library fault → ⊥ }
    ensures one_refusal { (file : File) (library : Library) (fault other : SoundFault)
        → IsRefusedWith file library fault → IsRefusedWith file library other → fault ≡ other }
{
    sound_files_are_not_refused();
    files_have_one_refusal();
}
