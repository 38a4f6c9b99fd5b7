use dependence::loops::Loop;
use edge_list::Edges;
use model::Edge;
use std::alloc::Global;
use std::process::Abort;
use std::test::Fail;
use texts::machine::Machine;

const MACHINE: &[u8] =
    b"unit alu 1\nunit mem 1\nop load mem 2 1\nop store mem 1 1\nop add alu 1 1\nop sub alu 1 1\nop mul alu 3 1\nop move alu 4 1\n";

const fn edge(from: usize, to: usize, delay: usize, distance: usize) -> Edge {
    Edge {
        from,
        to,
        delay,
        distance,
    }
}

// Lists the edges of a loop in place of those that `edges` had.
fn list(edges: &mut Edges, text: &[u8]) -> Result<(), Fail> {
    let Ok(machine) = Machine::read(MACHINE) else {
        return Err(Fail::new("the machine is accepted"));
    };
    let Ok(l) = Loop::read(text) else {
        return Err(Fail::new("the loop is accepted"));
    };
    edges.build(&machine, &l);
    Ok(())
}

fn expect(rt: &impl Abort, heap: Global, text: &[u8], expected: &[Edge]) -> Result<(), Fail> {
    let mut edges = Edges::new(heap)?;
    list(&mut edges, text)?;
    assert!(rt; edges.as_slice() == expected);
    Ok(())
}

#[test]
fn the_sum_loop_by_store_offset(rt: HostRuntime) -> Result<(), Fail> {
    let heap = rt.alloc();
    let own = [edge(1, 1, 1, 1), edge(0, 1, 2, 0), edge(1, 2, 1, 0)];
    expect(
        &rt,
        heap,
        b"a = load 1 0\ns = add s@1 a\nstore s 1 64",
        &own,
    )?;
    expect(&rt, heap, b"a = load 1 0\ns = add s@1 a\nstore s 1 8", &own)?;
    expect(
        &rt,
        heap,
        b"a = load 1 0\ns = add s@1 a\nstore s 1 7",
        &[own[0], own[1], own[2], edge(2, 0, 1, 7)],
    )?;
    expect(
        &rt,
        heap,
        b"a = load 1 0\ns = add s@1 a\nstore s 1 1",
        &[own[0], own[1], own[2], edge(2, 0, 1, 1)],
    )?;
    expect(
        &rt,
        heap,
        b"a = load 1 0\ns = add s@1 a\nstore s 1 0",
        &[own[0], own[1], own[2], edge(0, 2, 0, 0)],
    )
}

#[test]
fn operands_one_by_one(rt: HostRuntime) -> Result<(), Fail> {
    let heap = rt.alloc();
    // two operands that name one variable
    expect(
        &rt,
        heap,
        b"a = load 1 0\nb = mul a a\nc = sub b a@2",
        &[
            edge(0, 1, 2, 0),
            edge(0, 1, 2, 0),
            edge(1, 2, 3, 0),
            edge(0, 2, 2, 2),
        ],
    )?;
    // operations that read their own variables, and one that a later line defines
    expect(
        &rt,
        heap,
        b"x = add x@3 x@1\ny = move y@7\nz = sub 5 w@1\nw = move -1",
        &[
            edge(0, 0, 1, 3),
            edge(0, 0, 1, 1),
            edge(1, 1, 4, 7),
            edge(3, 2, 4, 1),
        ],
    )?;
    // literals make none
    expect(&rt, heap, b"x = add 1 2\nstore 3 1 0", &[])
}

#[test]
fn one_stride(rt: HostRuntime) -> Result<(), Fail> {
    let heap = rt.alloc();
    // gaps of 3, 2 and a half, 7 and 8 strides from the load, and of 1 between the last two stores
    expect(
        &rt,
        heap,
        b"a = load 2 10\nstore 1 2 4\nstore 1 2 5\nstore 1 2 24\nstore 1 2 26",
        &[edge(0, 1, 0, 3), edge(3, 0, 1, 7), edge(4, 3, 1, 1)],
    )?;
    // two stores to one cell, and two loads of it
    expect(
        &rt,
        heap,
        b"store 1 16 65535\nstore 2 16 65535\na = load 16 65535\nb = load 16 65535",
        &[
            edge(0, 1, 1, 0),
            edge(0, 2, 1, 0),
            edge(0, 3, 1, 0),
            edge(1, 2, 1, 0),
            edge(1, 3, 1, 0),
        ],
    )
}

#[test]
fn no_stride_and_other_strides(rt: HostRuntime) -> Result<(), Fail> {
    let heap = rt.alloc();
    // a cell that stands still: the same, and another
    expect(
        &rt,
        heap,
        b"a = load 0 5\nstore a 0 5\nb = load 0 6",
        &[edge(0, 1, 2, 0), edge(0, 1, 0, 0), edge(1, 0, 1, 1)],
    )?;
    expect(
        &rt,
        heap,
        b"store 1 0 3\nstore 2 0 3",
        &[edge(0, 1, 1, 0), edge(1, 0, 1, 1)],
    )?;
    // strides that differ, whatever the offsets; two loads have no edge
    expect(
        &rt,
        heap,
        b"a = load 1 0\nb = load 3 0\nstore 7 2 60000",
        &[
            edge(0, 2, 0, 0),
            edge(2, 0, 1, 1),
            edge(1, 2, 0, 0),
            edge(2, 1, 1, 1),
        ],
    )?;
    expect(
        &rt,
        heap,
        b"store 1 0 0\na = load 1 40000",
        &[edge(0, 1, 1, 0), edge(1, 0, 0, 1)],
    )
}

// Sixteen strides that differ, listed in place of another loop's edges: two edges for each of 120 pairs.
#[test]
fn sixteen_stores(rt: HostRuntime) -> Result<(), Fail> {
    let heap = rt.alloc();
    let mut edges = Edges::new(heap)?;
    list(&mut edges, b"x = add x@1 1")?;
    assert!(rt; edges.as_slice() == [edge(0, 0, 1, 1)].as_slice());
    list(
        &mut edges,
        b"store 1 1 0\nstore 1 2 0\nstore 1 3 0\nstore 1 4 0\nstore 1 5 0\nstore 1 6 0\nstore 1 7 0\nstore 1 8 0\nstore 1 9 0\nstore 1 10 0\nstore 1 11 0\nstore 1 12 0\nstore 1 13 0\nstore 1 14 0\nstore 1 15 0\nstore 1 16 0",
    )?;
    let mut expected = Vec::new(heap);
    for p in 0..16 {
        for q in p + 1..16 {
            expected.push(edge(p, q, 1, 0))?;
            expected.push(edge(q, p, 1, 1))?;
        }
    }
    assert_eq!(rt; edges.as_slice().len(), 240);
    assert!(rt; edges.as_slice() == expected.as_slice());
    Ok(())
}
