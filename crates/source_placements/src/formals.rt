// The formals of a `.subckt`, word by word.
ghost use Rattle.std.specs.Prelude.{◌≡◌, ◌++◌, ◌||◌, [], List, map, not, IfOk, IfNone};
ghost use Rattle.netlist_spec.specs.Netlist.{Name as Bytes, stands_in};
ghost use Rattle.netlist_spec.specs.Placed.{input_ports, output_ports};
ghost use Rattle.netlist_spec.specs.SoundFaults.{bad_formal as bad_formal_of};
ghost use Rattle.blif_read.specs.View.{bind_of};
ghost use Rattle.blif_read.specs.declared.file.Bind.{Bind as ReadBind};
ghost use Rattle.source_nets.specs.Ports.{IsSource, source_file, source_library};
ghost use Rattle.source_nets.specs.Survey.{IsMeaningIn, placed_at};

use blif_read::{Bind, Name};
use source_nets::{Meaning, NameIndex, PortKind, Source, is_port};
use std::alloc::{AllocError, Global};

// The first formal that is no port of what is placed, or that stood before. Where there is none, all are `given`.
pub(crate) fn bad_formal(
    alloc: Global,
    source: &Source,
    meaning: Meaning,
    binds: &[Bind],
    given: &mut NameIndex,
) -> Result<Option<Name>, AllocError>
    requires source { IsSource source.now }
    requires meaning { IsMeaningIn (source_file source.now) (source_library source.now) meaning }
    requires none { given.old ≡ [] }
    ensures found { IfOk result (λ found. (all : List Bytes)
        → let place = placed_at (source_file source.now) (source_library source.now) meaning in
        found ≡ bad_formal_of (input_ports place ++ output_ports place) [] (map (bind_of all) binds.now)) }
    ensures given { IfOk result (λ found. IfNone found (given.new ≡ map (λ (b : ReadBind). b.formal) binds.now)) }
{
    for bind in binds {
        let formal = bind.formal.bytes();
        if is_bad_formal(source, meaning, given, formal) {
            return Ok(Some(Name::new(alloc, formal)?));
        }
        given.push(formal)?;
    }
    Ok(None)
}

// Whether a name is no port of what is placed, or was given before.
fn is_bad_formal(source: &Source, meaning: Meaning, given: &NameIndex, formal: &[u8]) -> bool
    requires source { IsSource source.now }
    requires meaning { IsMeaningIn (source_file source.now) (source_library source.now) meaning }
    ensures { let place = placed_at (source_file source.now) (source_library source.now) meaning in
        result ≡ not (stands_in formal.now (input_ports place ++ output_ports place)) || stands_in formal.now given.now }
{
    !is_any_port(source, meaning, formal) || is_given(given, formal)
}

// Whether a name is among the given ones.
pub(crate) fn is_given(given: &NameIndex, name: &[u8]) -> bool
    ensures { result ≡ stands_in name.now given.now }
{
    given.find(name).is_some()
}

// Whether a name is an input or output port of what is placed.
fn is_any_port(source: &Source, meaning: Meaning, formal: &[u8]) -> bool
    requires source { IsSource source.now }
    requires meaning { IsMeaningIn (source_file source.now) (source_library source.now) meaning }
    ensures { let place = placed_at (source_file source.now) (source_library source.now) meaning in
        result ≡ stands_in formal.now (input_ports place ++ output_ports place) }
{
    is_port(source, PortKind::Input, meaning, formal)
        || is_port(source, PortKind::Output, meaning, formal)
}
