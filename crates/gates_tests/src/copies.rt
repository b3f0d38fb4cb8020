// Copies out of a counter.
ghost use Rattle.std.specs.Prelude.{◌≡◌, ◌<◌, length, map, IfOk, vec_len};
ghost use Rattle.std.specs.List.{AllByRecursion};
ghost use Rattle.gate_net.specs.Gate.{net_number};
ghost use Rattle.gate_net.specs.GateNet.{net_count};

use cone_split::{cones_have_one_size, copy_all, copy_xor};
use gate_net::{Gate, GateNet, NetId, Op};
use std::alloc::{AllocError, Global};
use std::test::Fail;

/// The next state of four latches that count up, the lowest bit first, at nets 4, 5, 7 and 9.
fn counter(alloc: Global) -> Result<GateNet, AllocError>
    ensures { IfOk result (λ net. (net.leaves ≡ 4) × (net_count net ≡ 10)) }
{
    let (a0, a1, a2, a3) = (NetId(0), NetId(1), NetId(2), NetId(3));
    let mut net = GateNet::new(alloc, 4)?;
    net.push(Gate::One { inv: true, a: a0 })?;
    net.push(Gate::Two {
        op: Op::XOR,
        a: a0,
        b: a1,
    })?;
    let c1 = net.push(Gate::Two {
        op: Op::AND,
        a: a0,
        b: a1,
    })?;
    net.push(Gate::Two {
        op: Op::XOR,
        a: c1,
        b: a2,
    })?;
    let c2 = net.push(Gate::Two {
        op: Op::AND,
        a: c1,
        b: a2,
    })?;
    net.push(Gate::Two {
        op: Op::XOR,
        a: c2,
        b: a3,
    })?;
    Ok(net)
}

/// The bits of a copy's last gate in the 16 states of four leaves, behind a gate of another range, and how many gates
/// the copy has.
fn answers(alloc: Global, src: &GateNet, roots: &[NetId]) -> Result<(Vec<bool>, u32), AllocError>
    requires leaves { src.now.leaves ≡ 4 }
    requires nets { net_count src.now ≡ 10 }
    requires few { length roots.now < 10 }
    requires roots { AllByRecursion (λ n. n < 10) (map net_number roots.now) }
    ensures { IfOk result (λ r. vec_len r.0 ≡ 16) }
{
    cones_have_one_size();
    let leaf = [NetId(0), NetId(1), NetId(2), NetId(3)];
    let mut dst = GateNet::new(alloc, 4)?;
    dst.push(Gate::Const(true))?;
    let last = copy_xor(alloc, src, roots, &leaf, &mut dst)?;
    let nets = dst.len();
    let mut found = Vec::new(alloc);
    for s in 0..16u8 {
        let state = [s & 1 != 0, s & 2 != 0, s & 4 != 0, s & 8 != 0];
        let mut row = vec![in alloc; false; nets as usize]?;
        dst.eval_into(&state, &mut row);
        found.push(row[last.0 as usize])?;
    }
    Ok((found, nets - 5))
}

#[test]
fn copies_have_the_xor_of_the_roots(rt: HostRuntime) -> Result<(), Fail> {
    let src = counter(rt.alloc())?;
    let (n0, n1, n2, n3) = (NetId(4), NetId(5), NetId(7), NetId(9));
    // The bits of the next state that are added, and the most gates that the copy may have.
    let cases: [(&[NetId], u8, u32); 7] = [
        (&[n0], 1, 1),
        (&[n1], 2, 1),
        (&[n2], 4, 2),
        (&[n3], 8, 3),
        (&[n0, n1, n2, n3], 15, 11),
        (&[n3, n3], 0, 6),
        (&[], 0, 1),
    ];
    for (roots, mask, most) in cases {
        let (found, gates) = answers(rt.alloc(), &src, roots)?;
        for s in 0..16u8 {
            let expected = ((s + 1) & mask).count_ones() % 2 == 1;
            assert_eq!(rt; found[s as usize], expected, "{mask} in state {s}");
        }
        assert!(rt; gates >= 1 && gates <= most, "{gates} gates for {mask}");
    }
    Ok(())
}

#[test]
fn a_leaf_is_copied_to_a_new_gate(rt: HostRuntime) -> Result<(), Fail> {
    let src = counter(rt.alloc())?;
    let (found, gates) = answers(rt.alloc(), &src, &[NetId(2)])?;
    for s in 0..16u8 {
        assert_eq!(rt; found[s as usize], s & 4 != 0);
    }
    assert_eq!(rt; gates, 1);
    Ok(())
}

#[test]
fn all_gates_are_copied(rt: HostRuntime) -> Result<(), Fail> {
    let src = counter(rt.alloc())?;
    let mut dst = GateNet::new(rt.alloc(), 4)?;
    dst.push(Gate::Const(true))?;
    let leaf = [NetId(3), NetId(2), NetId(1), NetId(0)];
    copy_all(rt.alloc(), &src, &leaf, &mut dst)?;
    assert_eq!(rt; dst.len(), 11);
    for s in 0..16u8 {
        // The lowest bit at net 3, the leaf that stands for the counter's first one.
        let state = [s & 8 != 0, s & 4 != 0, s & 2 != 0, s & 1 != 0];
        let mut row = [false; 11];
        dst.eval_into(&state, &mut row);
        for (i, n) in [5, 6, 8, 10].iter().enumerate() {
            assert_eq!(rt; row[*n], (s + 1) >> i & 1 == 1, "bit {i} in state {s}");
        }
    }
    Ok(())
}
