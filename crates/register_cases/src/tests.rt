use guest_scheme::asking::{Instance, still_apart};
use guest_scheme::lanes::Lanes;
use model::Life;
use registers::expanded::Expanded;
use registers::lives::Lives;
use registers::rotating::Rotating;
use registers::scheme::Scheme;
use std::process::Abort;
use std::test::Fail;

fn life(start: usize, end: usize) -> Life {
    Life { start, end }
}

// A table with so many equal lives, and one more behind them.
#[derive(Clone, Copy)]
struct Shape {
    interval: usize,
    many: usize,
    each: Life,
    last: Option<Life>,
}

fn lived(interval: usize, many: usize, each: Life, last: Option<Life>) -> Shape {
    Shape {
        interval,
        many,
        each,
        last,
    }
}

fn table(rt: &impl Abort, shape: Shape) -> Result<Lives, Fail> {
    let mut lives = Lives::new(shape.interval).ok_or("the interval is from 1 to 256")?;
    for _ in 0..shape.many {
        assert!(rt; lives.push(shape.each));
    }
    if let Some(last) = shape.last {
        assert!(rt; lives.push(last));
    }
    Ok(lives)
}

// The running sum at interval 2: a lives from 0 to 2, s from 2 to 4.
const SUM: Shape = Shape {
    interval: 2,
    many: 1,
    each: Life { start: 0, end: 2 },
    last: Some(Life { start: 2, end: 4 }),
};

#[test]
fn lives_within_the_limits(rt: HostRuntime) -> Result<(), Fail> {
    for (interval, makes) in [(0, false), (1, true), (256, true), (257, false)] {
        assert_eq!(rt; Lives::new(interval).is_some(), makes);
    }
    let mut lives = table(&rt, lived(256, 31, life(0, 0), None))?;
    let taken = [
        (life(2048, 2048), false),
        (life(5, 4), false),
        (life(2047, 4096), false),
        (life(2047, 4095), true),
        (life(0, 0), false),
    ];
    for (one, fits) in taken {
        assert_eq!(rt; lives.push(one), fits);
    }
    assert_eq!(rt; lives.interval(), 256);
    assert_eq!(rt; lives.as_slice().len(), 32);
    assert_eq!(rt; lives.as_slice().last().copied(), Some(life(2047, 4095)));
    Ok(())
}

// What a table needs, and what a fresh scheme answers to it.
type Row = (Shape, usize, Option<usize>);

fn needs<S: Scheme + Copy, F: Fn(&Lives) -> usize>(
    rt: &impl Abort,
    fresh: S,
    need: F,
    rows: &[Row],
) -> Result<(), Fail>
    requires { F.IsAlwaysCallable need }
{
    for &(offered, needed, turns) in rows {
        let lives = table(rt, offered)?;
        assert_eq!(rt; need(&lives), needed);
        let mut scheme = fresh;
        assert_eq!(rt; scheme.fit(&lives), turns);
    }
    Ok(())
}

#[test]
fn rotating_needs(rt: HostRuntime) -> Result<(), Fail> {
    let rows = [
        (lived(1, 0, life(0, 0), None), 0, Some(1)),
        (SUM, 4, Some(1)),
        (lived(1, 1, life(0, 63), None), 64, Some(1)),
        (lived(1, 1, life(0, 64), None), 65, None),
        (lived(1, 1, life(7, 4095), None), 4089, None),
        (lived(256, 1, life(0, 4095), None), 16, Some(1)),
        (lived(256, 1, life(2047, 4095), None), 9, Some(1)),
        (lived(1, 32, life(0, 1), None), 64, Some(1)),
        (lived(1, 31, life(0, 1), Some(life(0, 2))), 65, None),
        (lived(256, 32, life(255, 256), None), 64, Some(1)),
        (lived(256, 32, life(0, 255), None), 32, Some(1)),
    ];
    needs(&rt, Rotating::new(), Rotating::need, &rows)
}

#[test]
fn expanded_needs(rt: HostRuntime) -> Result<(), Fail> {
    let rows = [
        (lived(1, 0, life(0, 0), None), 0, Some(1)),
        (SUM, 4, Some(2)),
        (lived(1, 1, life(0, 7), None), 8, Some(8)),
        (lived(1, 1, life(0, 8), None), 257, None),
        (lived(256, 1, life(2047, 4094), None), 8, Some(8)),
        (lived(256, 1, life(2047, 4095), None), 257, None),
        (lived(1, 32, life(0, 1), None), 64, Some(2)),
        (lived(1, 8, life(0, 7), None), 64, Some(8)),
        (lived(1, 13, life(3, 7), None), 65, None),
        (lived(1, 31, life(0, 0), Some(life(0, 2))), 96, None),
        (lived(256, 32, life(0, 255), None), 32, Some(1)),
    ];
    needs(&rt, Expanded::new(), Expanded::need, &rows)
}

// The names of (variable, copy, back).
fn names<S: Scheme>(rt: &impl Abort, scheme: &S, rows: &[((usize, usize, usize), usize)]) {
    for &((variable, copy, back), name) in rows {
        assert_eq!(rt; scheme.name(variable, copy, back), name);
    }
}

// The registers of (name, pass).
fn resolved<S: Scheme>(rt: &impl Abort, scheme: &S, rows: &[((usize, usize), usize)]) {
    for &((name, pass), register) in rows {
        assert_eq!(rt; scheme.resolve(name, pass), register);
    }
}

#[test]
fn rotating_names(rt: HostRuntime) -> Result<(), Fail> {
    let mut scheme = Rotating::new();
    assert_eq!(rt; scheme.file(), 64);
    names(&rt, &scheme, &[((0, 0, 0), 0), ((0, 0, 5), 0)]);
    assert_eq!(rt; scheme.fit(&table(&rt, SUM)?), Some(1));
    // a begins at 0, s at 2 - 1
    let sum = [
        ((0, 0, 0), 0),
        ((0, 0, 14), 14),
        ((1, 0, 0), 1),
        ((1, 0, 14), 15),
        ((1, 0, 15), 0),
        ((1, 1, 1), 0),
        ((2, 0, 1), 0),
    ];
    names(&rt, &scheme, &sum);
    resolved(
        &rt,
        &scheme,
        &[
            ((5, 0), 5),
            ((0, 1), 63),
            ((5, 4096), 5),
            ((63, usize::MAX), 0),
            ((64, 0), 0),
        ],
    );
    // a refusal changes nothing
    assert_eq!(rt;
        scheme.fit(&table(&rt, lived(1, 1, life(0, 64), None))?),
        None
    );
    names(&rt, &scheme, &sum);
    // stage 7 comes off: 57 is -7
    assert_eq!(rt;
        scheme.fit(&table(&rt, lived(1, 1, life(7, 7), None))?),
        Some(1)
    );
    names(
        &rt,
        &scheme,
        &[((0, 0, 0), 57), ((0, 0, 7), 0), ((1, 0, 0), 0)],
    );
    Ok(())
}

#[test]
fn expanded_names(rt: HostRuntime) -> Result<(), Fail> {
    let mut scheme = Expanded::new();
    assert_eq!(rt; scheme.file(), 64);
    names(&rt, &scheme, &[((0, 0, 0), 0), ((0, 0, 1), 0)]);
    assert_eq!(rt; scheme.fit(&table(&rt, SUM)?), Some(2));
    let sum = [
        ((0, 0, 0), 0),
        ((0, 1, 0), 1),
        ((0, 0, 1), 1),
        ((1, 0, 0), 2),
        ((1, 0, 13), 3),
        ((1, 1, 14), 3),
        ((1, 1, 15), 0),
        ((1, 2, 0), 0),
        ((2, 0, 1), 0),
    ];
    names(&rt, &scheme, &sum);
    resolved(&rt, &scheme, &[((3, 0), 3), ((63, 4095), 63), ((64, 1), 0)]);
    assert_eq!(rt;
        scheme.fit(&table(&rt, lived(1, 1, life(0, 8), None))?),
        None
    );
    names(&rt, &scheme, &sum);
    Ok(())
}

#[test]
fn a_guest_fits(rt: HostRuntime) -> Result<(), Fail> {
    let mut lanes = Lanes::new();
    assert_eq!(rt; lanes.file(), 256);
    assert_eq!(rt;
        lanes.fit(&table(&rt, lived(256, 32, life(0, 2047), None))?),
        Some(8)
    );
    names(
        &rt,
        &lanes,
        &[((31, 7, 0), 255), ((31, 0, 1), 255), ((32, 0, 0), 0)],
    );
    assert_eq!(rt;
        lanes.fit(&table(&rt, lived(256, 1, life(0, 2048), None))?),
        None
    );
    Ok(())
}

// In each scheme a, in iteration 1, and s, in iteration 0, share cycle 2 and have registers of their own, also after a refusal.
#[test]
fn generic_code_keeps_instances_apart(rt: HostRuntime) -> Result<(), Fail> {
    let sum = table(&rt, SUM)?;
    let long = table(&rt, lived(1, 1, life(0, 64), None))?;
    let a = Instance {
        variable: 0,
        iteration: 1,
    };
    let s = Instance {
        variable: 1,
        iteration: 0,
    };
    assert_eq!(rt;
        still_apart(&mut Rotating::new(), &sum, &long, a, s),
        Some(true)
    );
    assert_eq!(rt;
        still_apart(&mut Expanded::new(), &sum, &long, a, s),
        Some(true)
    );
    assert_eq!(rt;
        still_apart(&mut Lanes::new(), &sum, &long, a, s),
        Some(true)
    );
    assert_eq!(rt;
        still_apart(&mut Rotating::new(), &sum, &long, a, a),
        Some(false)
    );
    Ok(())
}
