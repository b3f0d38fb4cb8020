// The texts of the smallest design.

use demo_design::demo_design;
use std::test::Fail;

const NETLIST: &[u8] = b".model demo\n.inputs load p0 p1 p2 p3\n.outputs c0 c1 c2 c3\n\
.latch n0 s0 0\n.latch n1 s1 0\n.latch n2 s2 0\n.latch n3 s3 0\n\
.subckt present i0=s0 i1=s1 i2=s2 i3=s3 o0=b0 o1=b1 o2=b2 o3=b3\n\
.names load p0 b0 n0\n11- 1\n0-1 1\n.names load p1 b1 n1\n11- 1\n0-1 1\n\
.names load p2 b2 n2\n11- 1\n0-1 1\n.names load p3 b3 n3\n11- 1\n0-1 1\n\
.names s0 c0\n1 1\n.names s1 c1\n1 1\n.names s2 c2\n1 1\n.names s3 c3\n1 1\n.end\n";

const SETTINGS: &[u8] =
    b"mode = \"detect\"\nbound = 3\ncheck = [\"0111\", \"1011\", \"1101\", \"1110\"]\n";

const STIMULUS: &[u8] = b"11001\n00000\n00000\n00000\n00000\n00000\n00000\n00000\n";

#[test]
fn a_design_with_one_box(rt: HostRuntime) -> Result<(), Fail> {
    let design = demo_design(rt.alloc(), 1)?;
    assert_eq!(rt; design.netlist.as_slice(), NETLIST);
    assert!(rt; design.settings.starts_with(SETTINGS));
    assert_eq!(rt; design.stimulus.as_slice(), STIMULUS);
    Ok(())
}
