// Check bits of four inverters, and of a counter.
ghost use Rattle.std.specs.Prelude.{◌≡◌, ◌<◌, ◌≤◌, length, map, IfOk};
ghost use Rattle.std.specs.List.{AllByRecursion};
ghost use Rattle.guard_spec.specs.Codes.{data_places};
ghost use Rattle.gate_net.specs.Gate.{net_number};
ghost use Rattle.gate_net.specs.GateNet.{net_count};

use block_code::Code;
use cone_split::cones_have_one_size;
use gate_net::{Gate, GateNet, NetId, Op};
use predictor::check_bit;
use std::alloc::{AllocError, Global};
use std::test::Fail;

/// The inverses of four leaves, at nets 4 to 7.
fn inverters(alloc: Global) -> Result<GateNet, AllocError>
    ensures { IfOk result (λ net. (net.leaves ≡ 4) × (net_count net ≡ 8)) }
{
    let mut net = GateNet::new(alloc, 4)?;
    for i in 0..4 {
        net.push(Gate::One {
            inv: true,
            a: NetId(i),
        })?;
    }
    Ok(net)
}

/// The higher two bits of a counter's next state, at nets 5 and 7: both read the carry at net 4.
fn counter(alloc: Global) -> Result<GateNet, AllocError>
    ensures { IfOk result (λ net. (net.leaves ≡ 4) × (net_count net ≡ 8)) }
{
    let (a0, a1, a2, a3) = (NetId(0), NetId(1), NetId(2), NetId(3));
    let mut net = GateNet::new(alloc, 4)?;
    let carry = net.push(Gate::Two {
        op: Op::AND,
        a: a0,
        b: a1,
    })?;
    net.push(Gate::Two {
        op: Op::XOR,
        a: carry,
        b: a2,
    })?;
    let carry = net.push(Gate::Two {
        op: Op::AND,
        a: carry,
        b: a2,
    })?;
    net.push(Gate::Two {
        op: Op::XOR,
        a: carry,
        b: a3,
    })?;
    Ok(net)
}

/// Check bit j of the roots' word in a state.
fn bit(
    alloc: Global,
    src: &GateNet,
    roots: &[NetId],
    code: &Code,
    j: u8,
    state: &[bool; 4],
) -> Result<bool, AllocError>
    requires leaves { src.now.leaves ≡ 4 }
    requires nets { net_count src.now ≡ 8 }
    requires some_place { 1 ≤ length roots.now }
    requires few { length roots.now ≤ 4 }
    requires roots { AllByRecursion (λ n. n < 8) (map net_number roots.now) }
    requires places { length roots.now ≤ data_places code.now }
    requires column { j < code.now.columns }
{
    cones_have_one_size();
    let leaf = [NetId(0), NetId(1), NetId(2), NetId(3)];
    let mut dst = GateNet::new(alloc, 4)?;
    let last = check_bit(alloc, src, roots, &leaf, code, j, &mut dst)?;
    let mut row = vec![in alloc; false; dst.len() as usize]?;
    dst.eval_into(state, &mut row);
    Ok(row[last.0 as usize])
}

#[test]
fn check_bits_are_those_of_the_code(rt: HostRuntime) -> Result<(), Fail> {
    // The extended Hamming code of length 8.
    let code = Code::new(4, 4, &[0b1110, 0b1101, 0b1011, 0b0111])?;
    let src = inverters(rt.alloc())?;
    let roots = [NetId(4), NetId(5), NetId(6), NetId(7)];
    let cases = [
        ([true, true, false, false], [false, false, true, true]),
        ([false, true, false, true], [true, false, true, false]),
        ([true, true, true, true], [false, false, false, false]),
        ([false, true, true, true], [false, true, true, true]),
    ];
    for (state, checks) in &cases {
        for j in 0..4u8 {
            let found = bit(rt.alloc(), &src, &roots, &code, j, state)?;
            assert_eq!(rt; found, checks[j as usize]);
        }
    }
    Ok(())
}

#[test]
fn a_short_word_has_the_first_rows(rt: HostRuntime) -> Result<(), Fail> {
    // The extended Hamming code of length 8, for words of three bits.
    let code = Code::new(4, 4, &[0b1110, 0b1101, 0b1011, 0b0111])?;
    let src = inverters(rt.alloc())?;
    let roots = [NetId(4), NetId(5), NetId(6)];
    let cases = [
        ([false, false, false, false], [false, false, false, true]),
        ([false, true, false, false], [true, false, true, false]),
        ([true, true, false, true], [true, true, false, true]),
        ([true, true, true, false], [false, false, false, false]),
    ];
    for (state, checks) in &cases {
        for j in 0..4u8 {
            let found = bit(rt.alloc(), &src, &roots, &code, j, state)?;
            assert_eq!(rt; found, checks[j as usize]);
        }
    }
    Ok(())
}

#[test]
fn cones_may_share_a_gate(rt: HostRuntime) -> Result<(), Fail> {
    // Columns 0 and 2 have one bit each, column 1 has both.
    let code = Code::new(2, 3, &[0b011, 0b110])?;
    let src = counter(rt.alloc())?;
    let roots = [NetId(5), NetId(7)];
    let cases = [
        ([true, true, false, false], [true, true, false]),
        ([true, true, true, false], [false, true, true]),
        ([true, true, false, true], [true, false, true]),
        ([true, true, true, true], [false, false, false]),
    ];
    for (state, checks) in &cases {
        for j in 0..3u8 {
            let found = bit(rt.alloc(), &src, &roots, &code, j, state)?;
            assert_eq!(rt; found, checks[j as usize]);
        }
    }
    Ok(())
}
