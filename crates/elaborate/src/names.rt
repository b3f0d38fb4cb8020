// The names of a model, by their numbers.
ghost use Rattle.std.specs.Prelude.{◌≡◌, ◌^◌, ◌<◌, map, filter_map, count_by, IfOk};
ghost use Rattle.netlist_spec.specs.Models.{is_unknown as is_unknown_of};
ghost use Rattle.blif_read.specs.declared.file.Port.{Port as ReadPort};
ghost use Rattle.blif_read.specs.declared.file.Located.{Located as ReadLocated};
ghost use Rattle.elaborate.specs.Numbers.{has_unknown_init as has_unknown_init_of, shown_id};

use blif_read::{Located, NameId, Port, Statement};
use std::alloc::{AllocError, Global};

// The names of ports.
pub(crate) fn port_ids(alloc: Global, ports: &[Port]) -> Result<Vec<NameId>, AllocError>
    ensures { IfOk result (λ ids. ids.items ≡ map (λ (port : ReadPort). port.name) ports.now) }
{
    ports.iter().map(|port| port.name).collect(alloc)
}

// The outputs of the latches.
pub(crate) fn latch_ids(alloc: Global, statements: &[Located]) -> Result<Vec<NameId>, AllocError>
    ensures { IfOk result (λ ids. ids.items ≡ filter_map shown_id statements.now) }
{
    let mut ids = Vec::new(alloc);
    for located in statements {
        if let Statement::Latch { q, .. } = &located.what {
            ids.push(*q)?;
        }
    }
    Ok(ids)
}

fn is_unknown(init: Option<u8>) -> bool
    ensures { result ≡ is_unknown_of init }
{
    match init {
        None => true,
        Some(n) => n > 1,
    }
}

fn has_unknown_init(statement: &Statement) -> bool
    ensures { result ≡ has_unknown_init_of statement.now }
{
    match statement {
        Statement::Latch { init, .. } => is_unknown(*init),
        _ => false,
    }
}

// How many latches have an init that is 2, 3 or missing.
pub(crate) fn unknown_inits(statements: &[Located]) -> u32
    requires { count_by (λ (located : ReadLocated). has_unknown_init_of located.what) statements.now < 2 ^ 32 }
    ensures { result ≡ count_by (λ (located : ReadLocated). has_unknown_init_of located.what) statements.now }
{
    statements
        .iter()
        .filter(|located| has_unknown_init(&located.what))
        .count() as u32
}
