// Nets that are joined, read off the gates.
ghost use Rattle.std.specs.Prelude.{◌≡◌};

use gate_net::{Gate, GateNet, NetId, Op};
use reduction::{bit, join, joined};
use std::test::Fail;

#[test]
fn two_nets_are_joined(rt: HostRuntime) -> Result<(), Fail> {
    let mut net = GateNet::new(rt.alloc(), 2)?;
    let first = join(Op(0b0100), true, None, NetId(0), &mut net)?;
    assert_eq!(rt; first, NetId(2));
    assert_eq!(rt;
        net.gate(first),
        Gate::One {
            inv: true,
            a: NetId(0)
        }
    );
    let second = join(Op::AND, true, Some(first), NetId(1), &mut net)?;
    assert_eq!(rt; second, NetId(3));
    assert_eq!(rt;
        net.gate(second),
        Gate::Two {
            op: Op::AND,
            a: first,
            b: NetId(1)
        }
    );
    assert_eq!(rt; joined(true, Some(second), &mut net)?, second);
    assert_eq!(rt; net.len(), 4);
    Ok(())
}

#[test]
fn nothing_joined_is_a_constant(rt: HostRuntime) -> Result<(), Fail> {
    let mut net = GateNet::new(rt.alloc(), 1)?;
    let n = joined(true, None, &mut net)?;
    assert_eq!(rt; n, NetId(1));
    assert_eq!(rt; net.gate(n), Gate::Const(true));
    Ok(())
}

#[test]
fn bits_of_a_number(rt: HostRuntime) {
    assert!(rt; bit(0b100, 2));
    assert!(rt; !bit(0b100, 3));
    assert!(rt; bit(1 << 127, 127));
}
