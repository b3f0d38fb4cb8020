// Laws of flat netlists: each is the contract of a function that does nothing.
ghost use Rattle.std.specs.Prelude.{◌≡◌, ℕ, List, Some};
ghost use Rattle.netlist_spec.specs.Covers.{Library};
ghost use Rattle.netlist_spec.specs.Elaborated.{Elaborated as ElaboratedSource, IsElaborated};
ghost use Rattle.netlist_spec.specs.FileRules.{IsFile};
ghost use Rattle.netlist_spec.specs.Flat.{IsFlat};
ghost use Rattle.netlist_spec.specs.Models.{main_model};
ghost use Rattle.netlist_spec.specs.Netlist.{File, Model};
ghost use Rattle.netlist_spec.specs.Reads.{Reads};
ghost use Rattle.netlist_spec.specs.Sound.{IsMain, IsSound};
ghost use Rattle.netlist_spec.specs.Text.{text_of};
ghost use Rattle.netlist_spec.specs.Written.{IsNamed, Named as NamedGates, file_of};
ghost use Rattle.netlist_spec.specs.WrittenText.{IsFlatText, IsTextOf};
ghost use Rattle.elaborated.specs.Flat.{AreClockedAlike, IsFlatNamed, StandsForSource};

use named_netlist::{
    named_files_are_ordered, named_files_have_written_form, named_files_run_as_gates,
    named_texts_are_read,
};

/// What is built for an elaborated source is a flat netlist of it, and its text says this netlist.
pub fn flat_netlists_are_flat()
    ensures flat { (file : File) (library : Library) (m : Model) (e : ElaboratedSource) (g : NamedGates)
        → StandsForSource file library m e
        → IsNamed g
        → IsFlatNamed e g
        → IsFlat (file_of g) file library }
    ensures text { (file : File) (library : Library) (m : Model) (e : ElaboratedSource) (g : NamedGates)
        → StandsForSource file library m e
        → IsNamed g
        → IsFlatNamed e g
        → IsTextOf (text_of g.unknown_inits (file_of g)) file (file_of g) }
    // So the text is what `flat` writes for each netlist that says the source.
    ensures flat_text { (netlist : List ℕ) (file : File) (library : Library) (m : Model) (e : ElaboratedSource) (g : NamedGates)
        → Reads netlist file
        → StandsForSource file library m e
        → IsNamed g
        → IsFlatNamed e g
        → IsFlatText netlist (text_of g.unknown_inits (file_of g)) library }
{
    named_files_are_ordered();
    named_files_run_as_gates();
    named_files_have_written_form();
    named_texts_are_read();
}

/// Where the latches of a source are clocked alike, as in each source that has a meaning, what it is elaborated to stands
/// for it.
pub fn elaborated_sources_stand_for_their_files()
    ensures stands { (file : File) (library : Library) (m : Model) (e : ElaboratedSource)
        → main_model file ≡ Some m
        → AreClockedAlike m
        → IsElaborated file library m e
        → StandsForSource file library m e }
    ensures sound { (file : File) (library : Library) (m : Model)
        → IsSound file library
        → main_model file ≡ Some m
        → AreClockedAlike m }
{}

/// What is built for the elaborated source of a file that has a meaning is a flat netlist of the file, and its text is what
/// `flat` writes for the file.
pub fn elaborated_sources_are_written_flat()
    ensures flat { (file : File) (library : Library) (e : ElaboratedSource) (g : NamedGates)
        → IsFile file
        → IsSound file library
        → ((m : Model) → IsMain file m → IsElaborated file library m e)
        → IsNamed g
        → IsFlatNamed e g
        → IsFlat (file_of g) file library }
    ensures flat_text { (netlist : List ℕ) (file : File) (library : Library) (e : ElaboratedSource) (g : NamedGates)
        → Reads netlist file
        → IsFile file
        → IsSound file library
        → ((m : Model) → IsMain file m → IsElaborated file library m e)
        → IsNamed g
        → IsFlatNamed e g
        → IsFlatText netlist (text_of g.unknown_inits (file_of g)) library }
{
    flat_netlists_are_flat();
    elaborated_sources_stand_for_their_files();
}
