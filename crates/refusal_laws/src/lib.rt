//! A file that is refused has one refusal.
#![tactic(auto)]

ghost use Rattle.std.specs.Prelude.{List};
ghost use Rattle.netlist_spec.specs.Covers.{Library};
ghost use Rattle.netlist_spec.specs.Netlist.{File, Model, Name};
ghost use Rattle.netlist_spec.specs.SoundFaults.{SoundFault};
ghost use Rattle.refusal_laws.specs.OneRefusal.{FilesHaveOneRefusal, FirstUnsettledIsOne, ModelsHaveOneWalkedLoop, NetsNotToldHaveOneDriver};

/// Where no net is found that is driven twice, no net of a used model has two drivers.
pub fn nets_that_are_not_told_have_one_driver()
    ensures { (file : File) (library : Library) → NetsNotToldHaveOneDriver file library }
{}

/// A list has one first unsettled net. Where no net has two drivers, a model has one loop to be told.
pub fn models_have_one_walked_loop()
    ensures unsettled { (file : File) (library : Library) (m : Model) (ns : List Name) (n k : Name)
        → FirstUnsettledIsOne file library m ns n k }
    ensures walked { (file : File) (library : Library) (m : Model) (nets others : List Name)
        → ModelsHaveOneWalkedLoop file library m nets others }
{}

/// A file has at most one refusal.
pub fn files_have_one_refusal()
    ensures { (file : File) (library : Library) (fault other : SoundFault)
        → FilesHaveOneRefusal file library fault other }
{}
