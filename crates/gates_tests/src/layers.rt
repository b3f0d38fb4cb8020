// A small layer, and the largest one.
ghost use Rattle.std.specs.Prelude.{◌≡◌, ◌<◌, IfOk, length, map};
ghost use Rattle.std.specs.List.{AllByRecursion};
ghost use Rattle.gate_net.specs.Gate.{net_number};
ghost use Rattle.gate_net.specs.GateNet.{net_count};

use gate_net::{GateNet, NetId};
use linear_layer::{Linear, lower};
use std::alloc::{AllocError, Global};
use std::test::Fail;

/// The first nets.
fn first_nets(alloc: Global, count: u8) -> Result<Vec<NetId>, AllocError>
    ensures count { IfOk result (λ ns. length ns.items ≡ count) }
    ensures below { IfOk result (λ ns. AllByRecursion (λ n. n < count) (map net_number ns.items)) }
{
    let mut nets = Vec::new(alloc);
    for n in 0..u32::from(count) {
        nets.push(NetId(n))?;
    }
    Ok(nets)
}

/// The bits of some nets where the leaves have these bits.
fn bits_of(
    alloc: Global,
    net: &GateNet,
    leaves: &[bool],
    nets: &[NetId],
) -> Result<Vec<bool>, AllocError>
    requires leaves { length leaves.now ≡ net.now.leaves }
    requires nets { AllByRecursion (λ n. n < net_count net.now) (map net_number nets.now) }
{
    let mut row = vec![in alloc; false; net.len() as usize]?;
    net.eval_into(leaves, &mut row);
    let mut bits = Vec::new(alloc);
    for n in nets {
        bits.push(row[n.0 as usize])?;
    }
    Ok(bits)
}

/// The outputs of a layer.
fn outputs(alloc: Global, layer: &Linear, inputs: &[bool]) -> Result<Vec<bool>, AllocError>
    requires { length inputs.now ≡ layer.now.width }
{
    let mut net = GateNet::new(alloc, u32::from(layer.width))?;
    let ins = first_nets(alloc, layer.width)?;
    let outs = lower(alloc, layer, &ins, &mut net)?;
    bits_of(alloc, &net, inputs, &outs)
}

#[test]
fn a_layer_of_two_rows(rt: HostRuntime) -> Result<(), Fail> {
    let alloc = rt.alloc();
    // `110` and `011`, with input 0 first
    let layer = Linear {
        rows: vec![in alloc; 0b011, 0b110]?,
        width: 3,
    };
    let cases = [
        ([false, false, false], [false, false]),
        ([true, false, false], [true, false]),
        ([false, true, false], [true, true]),
        ([false, false, true], [false, true]),
        ([true, true, false], [false, true]),
        ([true, true, true], [false, false]),
    ];
    for (inputs, want) in &cases {
        let bits = outputs(alloc, &layer, inputs)?;
        assert_eq!(rt; bits.as_slice(), want.as_slice());
    }
    Ok(())
}

/// Row i has a 1 for input i and for the next one, and the last row one for input 0.
fn ring_rows(alloc: Global) -> Result<Vec<u128>, AllocError> {
    let mut rows = Vec::new(alloc);
    for i in 0..127u32 {
        rows.push(3u128 << i)?;
    }
    rows.push(1 << 127 | 1)?;
    Ok(rows)
}

#[test]
fn a_layer_of_128_rows(rt: HostRuntime) -> Result<(), Fail> {
    let alloc = rt.alloc();
    let layer = Linear::new(ring_rows(alloc)?, 128).ok_or("a layer")?;
    assert_eq!(rt; layer.width, 128);
    let mut inputs = [false; 128];
    inputs[0] = true;
    inputs[5] = true;
    let bits = outputs(alloc, &layer, &inputs)?;
    assert_eq!(rt; bits.len(), 128);
    for (i, bit) in bits.iter().enumerate() {
        let want = i == 0 || i == 4 || i == 5 || i == 127;
        assert_eq!(rt; *bit, want);
    }
    Ok(())
}

#[test]
fn rows_that_are_no_layer(rt: HostRuntime) -> Result<(), Fail> {
    let alloc = rt.alloc();
    assert!(rt; Linear::new(vec![in alloc; 0b111]?, 3).is_some());
    assert!(rt; Linear::new(vec![in alloc; 0b1000]?, 3).is_none());
    assert!(rt; Linear::new(vec![in alloc; 0]?, 0).is_none());
    assert!(rt; Linear::new(Vec::new(alloc), 3).is_none());
    Ok(())
}
