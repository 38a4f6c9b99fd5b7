use code::form::Code as CodeForm;
use code::issue::Source;
use dependence::loops::Loop;
use listing::listing::Listing;
use listing::refusal::Unwritable;
use listing::slot::Slot;
use model::{Code, Life, Part, Parts};
use registers::expanded::Expanded;
use registers::lives::Lives;
use registers::rotating::Rotating;
use registers::scheme::Scheme;
use std::process::Abort;
use std::test::Fail;
use timing::Schedule;

// A running sum: three operations, two variables. At interval 2 and times 0, 2 and 3 it has two stages; its greatest distance is 1, so the head is 2.
const SUM: &[u8] = b"a = load 1 0\ns = add s@1 a\nstore s 1 64\n";

fn read(text: &[u8]) -> Result<Loop, Fail> {
    Loop::read(text).map_err(|_| Fail::new("the text is a loop"))
}

// The first times; the others do not matter.
fn schedule(interval: usize, first: [u16; 3]) -> Schedule {
    let mut times = [0; 32];
    times[..3].copy_from_slice(&first);
    Schedule { interval, times }
}

// A table of so many equal lives.
fn lives(rt: &impl Abort, interval: usize, many: usize, end: usize) -> Result<Lives, Fail> {
    let mut table = Lives::new(interval).ok_or_else(|| Fail::new("the interval is from 1 to 256"))?;
    for _ in 0..many {
        assert!(rt; table.push(Life { start: 0, end }));
    }
    Ok(table)
}

// The lives of the sum.
fn sum_lives(rt: &impl Abort) -> Result<Lives, Fail> {
    let mut table = lives(rt, 2, 1, 2)?;
    assert!(rt; table.push(Life { start: 2, end: 4 }));
    Ok(table)
}

fn parts(front: usize, kernel: usize, repeats: usize, rest: usize) -> Parts {
    Parts {
        front,
        kernel,
        repeats,
        rest,
    }
}

// The name of a register, or a literal.
type Named = Result<usize, i32>;

fn named(source: Source) -> Named {
    match source {
        Source::Register(name) => Ok(name),
        Source::Literal(z) => Err(z),
    }
}

// Each operation has head + turns + left slots where the kernel repeats, and as many as there are trips where it does not.
#[test]
fn parts_of_the_sum(rt: HostRuntime) -> Result<(), Fail> {
    let body = read(SUM)?;
    let mut listing = Listing::new(rt.alloc())?;
    let rows = [
        (2, 2, 0, parts(0, 0, 0, 0), 0),
        (2, 2, 1, parts(2, 0, 0, 0), 3),
        (2, 2, 2, parts(3, 0, 0, 0), 6),
        (2, 2, 3, parts(2, 0, 0, 2), 9),
        (2, 2, 4, parts(2, 2, 1, 1), 12),
        (2, 2, 5, parts(2, 2, 1, 2), 15),
        (2, 2, 64, parts(2, 2, 31, 1), 12),
        (2, 2, 4096, parts(2, 2, 2047, 1), 12),
        (1, 0, 3, parts(2, 1, 1, 1), 9),
        (1, 0, 64, parts(2, 1, 62, 1), 9),
        (3, 4, 64, parts(2, 3, 20, 3), 21),
        (4, 6, 64, parts(2, 4, 15, 3), 24),
        (5, 8, 64, parts(2, 5, 12, 3), 27),
        (6, 10, 64, parts(2, 6, 10, 3), 30),
        (7, 12, 64, parts(2, 7, 8, 7), 45),
        (8, 14, 64, parts(2, 8, 7, 7), 48),
        (8, 14, 9, parts(2, 0, 0, 8), 27),
        (8, 14, 10, parts(2, 8, 1, 1), 30),
    ];
    for (turns, end, trips, expected, slots) in rows {
        let mut scheme = Expanded::new();
        assert_eq!(rt; scheme.fit(&lives(&rt, 2, 2, end)?), Some(turns));
        let answer = listing.write(&body, &schedule(2, [0, 2, 3]), &scheme, turns, trips);
        assert_eq!(rt; answer, Ok(()));
        assert_eq!(rt; listing.parts(), expected);
        assert_eq!(rt; listing.slots().len(), slots);
        assert_eq!(rt; listing.trips(), trips);
        assert_eq!(rt; listing.interval(), 2);
    }
    Ok(())
}

// Where a slot stands and what it names, as the tables below have it.
type Line = (
    Part,
    usize,
    usize,
    Code,
    Option<usize>,
    Option<Named>,
    Option<Named>,
);

fn line(slot: &Slot) -> Line {
    (
        slot.part,
        slot.pass,
        slot.row,
        slot.code(),
        slot.result(),
        slot.left().map(named),
        slot.right().map(named),
    )
}

// The name is 2 v + ((copy - back) mod 2).
#[test]
fn expanded_sum(rt: HostRuntime) -> Result<(), Fail> {
    let mut scheme = Expanded::new();
    assert_eq!(rt; scheme.fit(&sum_lives(&rt)?), Some(2));
    let mut listing = Listing::new(rt.alloc())?;
    assert_eq!(rt;
        listing.write(&read(SUM)?, &schedule(2, [0, 2, 3]), &scheme, 2, 64),
        Ok(())
    );
    let expected = [
        (Part::Front, 0, 0, Code::Load, Some(0), None, None),
        (Part::Front, 1, 0, Code::Load, Some(1), None, None),
        (
            Part::Front,
            1,
            0,
            Code::Add,
            Some(2),
            Some(Err(0)),
            Some(Ok(0)),
        ),
        (Part::Front, 1, 1, Code::Store, None, Some(Ok(2)), None),
        (Part::Kernel, 0, 0, Code::Load, Some(0), None, None),
        (
            Part::Kernel,
            0,
            0,
            Code::Add,
            Some(3),
            Some(Ok(2)),
            Some(Ok(1)),
        ),
        (Part::Kernel, 0, 1, Code::Store, None, Some(Ok(3)), None),
        (Part::Kernel, 1, 0, Code::Load, Some(1), None, None),
        (
            Part::Kernel,
            1,
            0,
            Code::Add,
            Some(2),
            Some(Ok(3)),
            Some(Ok(0)),
        ),
        (Part::Kernel, 1, 1, Code::Store, None, Some(Ok(2)), None),
        (
            Part::Rest,
            0,
            0,
            Code::Add,
            Some(3),
            Some(Ok(2)),
            Some(Ok(1)),
        ),
        (Part::Rest, 0, 1, Code::Store, None, Some(Ok(3)), None),
    ];
    assert_eq!(rt; listing.slots().len(), 12);
    for (slot, want) in listing.slots().iter().zip(expected) {
        assert_eq!(rt; line(slot), want);
    }
    Ok(())
}

// The bases are 0 and 1, and the name is base + back.
#[test]
fn rotating_sum(rt: HostRuntime) -> Result<(), Fail> {
    let mut scheme = Rotating::new();
    assert_eq!(rt; scheme.fit(&sum_lives(&rt)?), Some(1));
    let mut listing = Listing::new(rt.alloc())?;
    assert_eq!(rt;
        listing.write(&read(SUM)?, &schedule(2, [0, 2, 3]), &scheme, 1, 64),
        Ok(())
    );
    let expected = [
        (Part::Front, 0, 0, Code::Load, Some(0), None, None),
        (Part::Front, 1, 0, Code::Load, Some(0), None, None),
        (
            Part::Front,
            1,
            0,
            Code::Add,
            Some(2),
            Some(Err(0)),
            Some(Ok(1)),
        ),
        (Part::Front, 1, 1, Code::Store, None, Some(Ok(2)), None),
        (Part::Kernel, 0, 0, Code::Load, Some(0), None, None),
        (
            Part::Kernel,
            0,
            0,
            Code::Add,
            Some(2),
            Some(Ok(3)),
            Some(Ok(1)),
        ),
        (Part::Kernel, 0, 1, Code::Store, None, Some(Ok(2)), None),
        (
            Part::Rest,
            0,
            0,
            Code::Add,
            Some(2),
            Some(Ok(3)),
            Some(Ok(1)),
        ),
        (Part::Rest, 0, 1, Code::Store, None, Some(Ok(2)), None),
    ];
    assert_eq!(rt; listing.slots().len(), 9);
    for (slot, want) in listing.slots().iter().zip(expected) {
        assert_eq!(rt; line(slot), want);
    }
    Ok(())
}

// The literal 0 stands in every iteration below the distance, and in no other.
#[test]
fn literals_by_distance(rt: HostRuntime) -> Result<(), Fail> {
    let mut listing = Listing::new(rt.alloc())?;
    let rows: [(&[u8], usize); 7] = [
        (b"s = add s@1 1\n", 1),
        (b"s = add s@2 1\n", 2),
        (b"s = add s@3 1\n", 3),
        (b"s = add s@4 1\n", 4),
        (b"s = add s@5 1\n", 5),
        (b"s = add s@6 1\n", 6),
        (b"s = add s@7 1\n", 7),
    ];
    for (text, distance) in rows {
        let mut scheme = Rotating::new();
        assert_eq!(rt; scheme.fit(&lives(&rt, 1, 1, distance)?), Some(1));
        assert_eq!(rt;
            listing.write(&read(text)?, &schedule(1, [0, 0, 0]), &scheme, 1, 10),
            Ok(())
        );
        assert_eq!(rt; listing.slots().len(), distance + 1);
        for (i, slot) in listing.slots().iter().enumerate() {
            assert_eq!(rt; slot.left().map(named) == Some(Err(0)), i < distance);
            assert_eq!(rt; slot.right().map(named), Some(Err(1)));
        }
    }
    Ok(())
}

// One to eight stages at interval 3, and not nine.
#[test]
fn stages(rt: HostRuntime) -> Result<(), Fail> {
    let body = read(b"a = move 1\nb = move a\n")?;
    let mut listing = Listing::new(rt.alloc())?;
    let rows = [
        (2, parts(0, 1, 20, 0), 2),
        (3, parts(1, 1, 19, 1), 4),
        (6, parts(2, 1, 18, 2), 6),
        (9, parts(3, 1, 17, 3), 8),
        (12, parts(4, 1, 16, 4), 10),
        (15, parts(5, 1, 15, 5), 12),
        (18, parts(6, 1, 14, 6), 14),
        (23, parts(7, 1, 13, 7), 16),
    ];
    let scheme = Rotating::new();
    for (second, expected, slots) in rows {
        assert_eq!(rt;
            listing.write(&body, &schedule(3, [0, second, 0]), &scheme, 1, 20),
            Ok(())
        );
        assert_eq!(rt; listing.parts(), expected);
        assert_eq!(rt; listing.slots().len(), slots);
    }
    assert_eq!(rt;
        listing.write(&body, &schedule(3, [0, 24, 0]), &scheme, 1, 20),
        Err(Unwritable::Stages)
    );
    assert_eq!(rt; listing.slots().len(), 16);
    Ok(())
}

#[test]
fn refusals_change_nothing(rt: HostRuntime) -> Result<(), Fail> {
    let body = read(SUM)?;
    let scheme = Rotating::new();
    let mut listing = Listing::new(rt.alloc())?;
    assert_eq!(rt;
        listing.write(&body, &schedule(2, [0, 2, 3]), &scheme, 1, 64),
        Ok(())
    );
    let rows = [
        (0, 1, 64, Unwritable::Interval),
        (257, 0, 4097, Unwritable::Interval),
        (2, 0, 64, Unwritable::Turns),
        (2, 9, 4097, Unwritable::Turns),
        (1, 1, 4097, Unwritable::Trips),
    ];
    for (interval, turns, trips, why) in rows {
        let answer = listing.write(
            &body,
            &schedule(interval, [0, 2, 30]),
            &scheme,
            turns,
            trips,
        );
        assert_eq!(rt; answer, Err(why));
        assert_eq!(rt; listing.parts(), parts(2, 1, 62, 1));
        assert_eq!(rt; listing.slots().len(), 9);
        assert_eq!(rt; listing.trips(), 64);
        assert_eq!(rt; listing.interval(), 2);
    }
    Ok(())
}

// How many operations of the sum issue in a row of a pass: stages 0, 1 and 1, rows 0, 0 and 1.
fn issuing(pass: usize, row: usize, trips: usize) -> usize {
    [(0, 0), (1, 0), (1, 1)]
        .iter()
        .filter(|(stage, at)| *at == row && *stage <= pass && pass - *stage < trips)
        .count()
}

// Through front, kernel and rest, each row of each pass has the operations that issue in it; behind the last pass and row there is nothing.
#[test]
fn every_row(rt: HostRuntime) -> Result<(), Fail> {
    let body = read(SUM)?;
    let mut listing = Listing::new(rt.alloc())?;
    for (turns, end) in [(1, 0), (2, 2), (3, 4), (8, 14)] {
        let mut scheme = Expanded::new();
        assert_eq!(rt; scheme.fit(&lives(&rt, 2, 2, end)?), Some(turns));
        for trips in 0usize..25 {
            assert_eq!(rt;
                listing.write(&body, &schedule(2, [0, 2, 3]), &scheme, turns, trips),
                Ok(())
            );
            for pass in 0usize..27 {
                for row in 0usize..3 {
                    let (from, to) = listing.row(pass, row);
                    assert_eq!(rt; to.checked_sub(from), Some(issuing(pass, row, trips)));
                    if from < to {
                        assert!(rt; listing.issue(pass, from).is_some());
                    }
                }
            }
        }
    }
    Ok(())
}
