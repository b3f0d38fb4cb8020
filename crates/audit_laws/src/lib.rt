//! The bits of cells by one pass over an ordered file, and what an audit finds.
#![tactic(auto)]

ghost use Rattle.std.specs.Prelude.{ℕ, List, Option};
ghost use Rattle.netlist_spec.specs.CellBits.{Bit};
ghost use Rattle.netlist_spec.specs.Models.{Gate};
ghost use Rattle.netlist_spec.specs.Netlist.{File, Model, Name, Statement};
ghost use Rattle.audit_laws.specs.Along.{AllBitsAreAlong, BitsAlongAreKept, BitsAreAlongLater, MergingTwiceIsOnce, OrderedFilesAreInOrder, ReadsAreDoneInTurn};
ghost use Rattle.audit_laws.specs.FirstBits.{FirstBits, NamedBitsGrow};
ghost use Rattle.audit_laws.specs.Table.{NamedBitsSetEntries, OneEntryIsSet, PassesSetEntries};
ghost use Rattle.audit_laws.specs.OnePass.{KeptBitsDecide, OrderedFilesAuditInOnePass, ReadFilesAuditInOnePass};

/// The `.names` of an ordered file are in order.
pub fn ordered_files_are_in_order()
    ensures { (file : File) (low : ℕ) (high : Option ℕ) → OrderedFilesAreInOrder file low high }
{}

/// A pass from the last `.names` to the first knows the bits of each when it comes to it.
pub fn bits_are_known_in_time()
    ensures all { (m : Model) (n : Name) (bit : Bit) → AllBitsAreAlong m n bit }
    ensures later { (m : Model) (before : List Gate) (g : Gate) (after : List Gate) (bit : Bit)
        → BitsAreAlongLater m before g after bit }
{}

/// It is enough to keep the first two bits of each net.
pub fn first_bits_are_kept()
    ensures along { (m : Model) (gates : List Gate) (n : Name) → BitsAlongAreKept m gates n }
    ensures once_more { (kind : ℕ → Bit) (i : ℕ) (ks : List Name) (k n : Name) (kept : FirstBits)
        → NamedBitsGrow kind i ks k n kept }
    ensures twice { (a b : FirstBits) → MergingTwiceIsOnce a b }
    ensures in_turn { (m : Model) (later : List Gate) (g : Gate) (n : Name) → ReadsAreDoneInTurn m later g n }
{}

/// A pass over net numbers keeps one table, and sets one entry for each read, latch and output.
pub fn passes_set_entries()
    ensures entry { (names : List Name) (i : ℕ) (k : Name) (kept after : Name → FirstBits) (entry : FirstBits)
        → OneEntryIsSet names i k kept after entry }
    ensures reads { (m : Model) (later : List Gate) (g : Gate) → PassesSetEntries m later g }
    ensures own { (names : List Name) (kind : ℕ → Bit) (ks : List Name) (kept : Name → FirstBits) (j : ℕ) (k : Name)
        → NamedBitsSetEntries names kind ks kept j k }
{}

/// What is kept decides what is found of a cell.
pub fn kept_bits_decide()
    ensures { (m : Model) (s : Statement) (kept : FirstBits) → KeptBitsDecide m s kept }
{}

/// One pass over an ordered file finds what an audit finds.
pub fn ordered_files_audit_in_one_pass()
    ensures by_lines { (file : File) (low : ℕ) (high : Option ℕ) → OrderedFilesAuditInOnePass file low high }
    ensures read { (file : File) → ReadFilesAuditInOnePass file }
{}
