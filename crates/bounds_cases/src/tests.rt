use bounds::{NoHeights, NoMinimum, Witness, heights, minimum};
use few::{Few, Full};
use model::{Edge, Timing};
use std::process::Abort;
use std::test::Fail;

const fn edge(from: usize, to: usize, delay: usize, distance: usize) -> Edge {
    Edge {
        from,
        to,
        delay,
        distance,
    }
}

const fn timing(class: usize, latency: usize, busy: usize) -> Timing {
    Timing {
        class,
        latency,
        busy,
    }
}

// What a minimum is by: a class, or the circuit of these edges.
#[derive(Clone, Copy)]
enum By<'a> {
    Class(usize),
    Circuit(&'a [usize]),
}

// The minimum is `value`, by this class or this circuit.
fn minimum_is(
    rt: &impl Abort,
    edges: &[Edge],
    timings: &[Timing],
    units: &[usize],
    value: usize,
    by: By,
) -> Result<(), Fail> {
    let found = minimum(edges, timings, units).map_err(|_| Fail::new("there is a minimum"))?;
    assert_eq!(rt; found.value, value);
    match (found.witness, by) {
        (Witness::Class(named), By::Class(class)) => assert_eq!(rt; named, class),
        (Witness::Circuit(path), By::Circuit(circuit)) => assert!(rt; path.numbers() == circuit),
        (Witness::Class(_), By::Circuit(_)) => return Err(Fail::new("a circuit decides")),
        (Witness::Circuit(_), By::Class(_)) => return Err(Fail::new("a class decides")),
    }
    Ok(())
}

// a = load 1 0, s = add s@1 a, store s 1 OFFSET; one alu (class 0) and one memory unit (class 1)
fn sum_timings() -> [Timing; 3] {
    [timing(1, 2, 1), timing(0, 1, 1), timing(1, 1, 1)]
}

#[test]
fn the_sum_loop_by_store_offset(rt: HostRuntime) -> Result<(), Fail> {
    let own = [edge(1, 1, 1, 1), edge(0, 1, 2, 0), edge(1, 2, 1, 0)];
    let timings = sum_timings();
    // offsets 64 and 8: no memory edge
    minimum_is(&rt, &own, &timings, &[1, 1], 2, By::Class(1))?;
    // offset 1: the store meets the load of the next iteration
    minimum_is(
        &rt,
        &[own[0], own[1], own[2], edge(2, 0, 1, 1)],
        &timings,
        &[1, 1],
        4,
        By::Circuit(&[1, 2, 3]),
    )?;
    // offset 7: the edge has distance 7
    minimum_is(
        &rt,
        &[own[0], own[1], own[2], edge(2, 0, 1, 7)],
        &timings,
        &[1, 1],
        2,
        By::Class(1),
    )
}

#[test]
fn classes_decide(rt: HostRuntime) -> Result<(), Fail> {
    // no edges; two classes with the same quotient: the lowest is named
    minimum_is(
        &rt,
        &[],
        &[timing(1, 2, 2), timing(0, 2, 2)],
        &[1, 1],
        2,
        By::Class(0),
    )?;
    // 3 uses on 2 units: rounded up
    minimum_is(
        &rt,
        &[],
        &[timing(2, 1, 1), timing(2, 1, 1), timing(2, 1, 1)],
        &[1, 1, 2],
        2,
        By::Class(2),
    )?;
    // a self edge of 2 and two uses of one unit: both reach 2, and the class is named
    minimum_is(
        &rt,
        &[edge(0, 0, 2, 1)],
        &[timing(0, 2, 1), timing(0, 1, 1)],
        &[1],
        2,
        By::Class(0),
    )
}

#[test]
fn circuits_decide(rt: HostRuntime) -> Result<(), Fail> {
    // a self edge: 8 cycles in 1 iteration, and in 3
    minimum_is(
        &rt,
        &[edge(0, 0, 8, 1)],
        &[timing(0, 8, 1)],
        &[1],
        8,
        By::Circuit(&[0]),
    )?;
    minimum_is(
        &rt,
        &[edge(0, 0, 8, 3)],
        &[timing(0, 8, 1)],
        &[1],
        3,
        By::Circuit(&[0]),
    )?;
    // the circuit begins with the edge that leaves its lowest operation
    minimum_is(
        &rt,
        &[
            edge(3, 1, 1, 1),
            edge(1, 2, 1, 0),
            edge(2, 3, 5, 0),
            edge(0, 1, 8, 0),
        ],
        &[
            timing(0, 1, 1),
            timing(0, 1, 1),
            timing(0, 1, 1),
            timing(0, 1, 1),
        ],
        &[8],
        7,
        By::Circuit(&[1, 2, 0]),
    )?;
    // two circuits through one operation: 6 in 2 iterations, 4 in 1
    minimum_is(
        &rt,
        &[
            edge(0, 1, 3, 0),
            edge(1, 0, 3, 2),
            edge(0, 2, 2, 0),
            edge(2, 0, 2, 1),
        ],
        &[timing(0, 3, 1), timing(0, 3, 1), timing(0, 2, 1)],
        &[8],
        4,
        By::Circuit(&[2, 3]),
    )
}

// Sixteen stores with different strides: from each line to each later one, and back with distance 1.
fn tied_stores() -> Result<Few<Edge, 240>, Full> {
    let mut edges = Few::new(edge(0, 0, 0, 0));
    for from in 0..16 {
        for to in from + 1..16 {
            edges.push(edge(from, to, 1, 0))?;
            edges.push(edge(to, from, 1, 1))?;
        }
    }
    Ok(edges)
}

#[test]
fn sixteen_stores_with_different_strides(rt: HostRuntime) -> Result<(), Fail> {
    let edges = tied_stores().map_err(|_| Fail::new("there is room for 240 edges"))?;
    let edges = edges.as_slice();
    assert_eq!(rt; edges.len(), 240);
    let timings = [timing(0, 1, 1); 16];
    // one unit: 16 uses, as many as the circuit through all lines has cycles
    minimum_is(&rt, edges, &timings, &[1], 16, By::Class(0))?;
    let found = minimum(edges, &timings, &[8]).map_err(|_| Fail::new("there is a minimum"))?;
    assert_eq!(rt; found.value, 16);
    match found.witness {
        Witness::Class(_) => Err(Fail::new("a circuit decides")),
        Witness::Circuit(path) => {
            assert_eq!(rt; path.numbers().len(), 16);
            Ok(())
        },
    }
}

fn refusal(edges: &[Edge], timings: &[Timing], units: &[usize]) -> Option<NoMinimum> {
    minimum(edges, timings, units).err()
}

#[test]
fn refusals(rt: HostRuntime) {
    let two = [timing(0, 1, 1), timing(0, 1, 1)];
    let standing = [edge(0, 1, 1, 0), edge(1, 0, 0, 0)];
    assert_eq!(rt; refusal(&standing, &two, &[1]), Some(NoMinimum::Standing));
    let without_delay = [edge(0, 1, 0, 0), edge(1, 0, 0, 0)];
    assert!(rt; refusal(&without_delay, &two, &[1]) != Some(NoMinimum::Standing));
    let outside: [(&str, &[Edge], &[Timing], &[usize]); 11] = [
        ("no operation", &[], &[], &[1]),
        ("33 operations", &[], &[timing(0, 1, 1); 33], &[8]),
        ("an edge to no operation", &[edge(0, 2, 1, 0)], &two, &[1]),
        ("an edge from no operation", &[edge(2, 0, 1, 0)], &two, &[1]),
        ("a delay of 9", &[edge(0, 1, 9, 0)], &two, &[1]),
        ("a distance of 8", &[edge(0, 1, 1, 8)], &two, &[1]),
        ("no such class", &[], &[timing(1, 1, 1)], &[1]),
        ("a busy of 0", &[], &[timing(0, 1, 0)], &[1]),
        ("no units", &[], &two, &[0]),
        ("9 units", &[], &two, &[9]),
        ("9 classes", &[], &two, &[1; 9]),
    ];
    for (what, edges, timings, units) in outside {
        assert_eq!(rt;
            refusal(edges, timings, units),
            Some(NoMinimum::Outside),
            "{what}"
        );
    }
}

#[test]
fn heights_of_the_sum_loop(rt: HostRuntime) -> Result<(), Fail> {
    let edges = [
        edge(1, 1, 1, 1),
        edge(0, 1, 2, 0),
        edge(1, 2, 1, 0),
        edge(2, 0, 1, 1),
    ];
    // the last operation has the empty walk
    let found = heights(&edges, 3, 4).map_err(|_| Fail::new("4 is the minimum"))?;
    assert!(rt; found[..4] == [3, 1, 0, 0]);
    assert_eq!(rt; heights(&edges, 3, 3).err(), Some(NoHeights::Above));
    assert_eq!(rt; heights(&edges, 3, 257).err(), Some(NoHeights::Outside));
    Ok(())
}
