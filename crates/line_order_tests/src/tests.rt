// What is told of the order of small netlists.
use blif_read::read;
use line_order::{OrderFault, check_order, data_inputs};
use std::alloc::{AllocError, Global};
use std::test::Fail;

const LONGEST_TEXT: usize = 1000;

#[derive(Clone, Copy, Debug, PartialEq, Eq)]
enum Order {
    InOrder,
    Unordered(u32),
    HasSubckt(u32),
    NoMemory,
    Unread,
}

fn told(alloc: Global, text: &[u8]) -> Order {
    if text.len() > LONGEST_TEXT {
        return Order::Unread;
    }
    let Ok(file) = read(alloc, text) else {
        return Order::Unread;
    };
    match check_order(alloc, &file) {
        Ok(()) => Order::InOrder,
        Err(OrderFault::Unordered(line)) => Order::Unordered(line),
        Err(OrderFault::HasSubckt(line)) => Order::HasSubckt(line),
        Err(OrderFault::NoMemory) => Order::NoMemory,
    }
}

// A source with a comment, constants, a clock and an unknown init.
const CLOCKED: &[u8] =
    b"# Generated\n\n.model top\n.inputs clk en\n.outputs q[0]\n.names $false\n.names $true\n1\n.names $undef\n.latch d$1 q[0] re clk 2\n.names en q[0] d$1\n10 1\n01 1\n.end\n";

#[test]
fn lines_at_fault_are_told(rt: HostRuntime) -> Result<(), Fail> {
    let cases: [(&[u8], Order); 24] = [
        (b".model e\n.end\n", Order::InOrder),
        (CLOCKED, Order::InOrder),
        (
            b".model c\n.inputs a b\n.outputs y z u v\n.names a b y\n00 0\n.names z\n.names $true\n1\n.names $true u\n1 1\n.names a b v\n1- 1\n.end\n",
            Order::InOrder,
        ),
        (
            b".model m\r\n.inputs a \\\n b\n.outputs y\n.names a b y # and\n11 1 # row",
            Order::InOrder,
        ),
        // a latch may store what a later line drives, and an output may show it
        (
            b".model inv\n.outputs q\n.latch n q 0\n.names q n\n0 1\n.end\n",
            Order::InOrder,
        ),
        // an input that is a clock too
        (
            b".model m\n.inputs c d\n.clock c\n.latch d q re c 0\n.outputs q\n",
            Order::InOrder,
        ),
        // a cell that reads a later one, and one that reads itself
        (
            b".model r\n.inputs a\n.outputs y\n.names m y\n0 1\n.names a m\n0 1\n",
            Order::Unordered(4),
        ),
        (
            b".model m\n.outputs y\n.names y y\n1 1\n",
            Order::Unordered(3),
        ),
        // sub-models, behind a line at fault and in front of one
        (b".model m\n.subckt s a=b\n", Order::HasSubckt(2)),
        (
            b".model m\n.names a b\n1 1\n.subckt s x=b\n",
            Order::Unordered(2),
        ),
        (
            b".model m\n.subckt s x=a\n.names b c\n1 1\n",
            Order::HasSubckt(2),
        ),
        (b".model m\n.inputs a\n.model n\n", Order::Unordered(3)),
        // nets that are driven twice
        (
            b".model m\n.inputs a\n.outputs y\n.outputs y\n.names a y\n1 1\n",
            Order::Unordered(4),
        ),
        (b".model m\n.inputs a a\n", Order::Unordered(2)),
        (b".model m\n.inputs a\n.names a\n", Order::Unordered(3)),
        (b".model m\n.names a\n.inputs a\n", Order::Unordered(3)),
        (b".model m\n.clock c\n.names c\n", Order::Unordered(3)),
        // nets without a source
        (b".model m\n.latch d q 0\n", Order::Unordered(2)),
        (b".model m\n.outputs y\n", Order::Unordered(2)),
        // a clock net that is shown, and one that is read
        (
            b".model m\n.inputs c d\n.outputs c\n.latch d q re c 0\n",
            Order::Unordered(3),
        ),
        (
            b".model m\n.inputs c d\n.latch d q re c 0\n.names c y\n1 1\n",
            Order::Unordered(4),
        ),
        // latches that are clocked apart, and by what no line declares
        (
            b".model m\n.inputs c d\n.latch d a re c 0\n.latch d b fe c 0\n",
            Order::Unordered(4),
        ),
        (
            b".model m\n.inputs d\n.latch d a 0\n.latch d b re NIL 0\n",
            Order::Unordered(4),
        ),
        (
            b".model m\n.inputs d\n.latch d a re c 0\n",
            Order::Unordered(3),
        ),
    ];
    for (text, expected) in cases {
        assert_eq!(rt; told(rt.alloc(), text), expected);
    }
    Ok(())
}

// The data inputs of a text's first model, each with a blank behind it.
fn inputs_of(alloc: Global, text: &[u8]) -> Result<Vec<u8>, AllocError> {
    let mut names = Vec::new(alloc);
    if text.len() > LONGEST_TEXT {
        return Ok(names);
    }
    let Ok(file) = read(alloc, text) else {
        return Ok(names);
    };
    let Some(model) = file.models.first() else {
        return Ok(names);
    };
    for id in &data_inputs(alloc, model)? {
        names.extend_from_slice(model.names.get(*id))?;
        names.push(b' ')?;
    }
    Ok(names)
}

#[test]
fn clocks_are_no_data_inputs(rt: HostRuntime) -> Result<(), Fail> {
    assert_eq!(rt;
        inputs_of(rt.alloc(), CLOCKED)?.as_slice(),
        b"en ".as_slice()
    );
    assert_eq!(rt;
        inputs_of(
            rt.alloc(),
            b".model m\n.inputs a c b\n.clock c\n.inputs d\n"
        )?
        .as_slice(),
        b"a b d ".as_slice()
    );
    Ok(())
}
