use model::Operator;
use values::domain::Domain;
use values::floats::Floats;
use values::memory::{scale, scale_floats, scale_words};
use values::words::Words;

#[test]
fn words_wrap(rt: HostRuntime) {
    // a, b, sum, difference, product
    let rows = [
        (u32::MAX, 1, 0, 4294967294, u32::MAX),
        (0, 1, 1, u32::MAX, 0),
        (65536, 65536, 131072, 0, 0),
        (u32::MAX, u32::MAX, 4294967294, 0, 1),
        (2147483648, 2147483648, 0, 0, 0),
        (5, 7, 12, 4294967294, 35),
    ];
    for (a, b, sum, difference, product) in rows {
        assert_eq!(rt; Words.add(a, b), sum);
        assert_eq!(rt; Words.sub(a, b), difference);
        assert_eq!(rt; Words.mul(a, b), product);
        assert_eq!(rt; Words.apply(Operator::Plus, a, b), sum);
        assert_eq!(rt; Words.apply(Operator::Minus, a, b), difference);
        assert_eq!(rt; Words.apply(Operator::Times, a, b), product);
    }
}

#[test]
fn word_literals(rt: HostRuntime) {
    let rows = [
        (0, 0),
        (32767, 32767),
        (-1, u32::MAX),
        (-32768, 4294934528),
        (i32::MIN, 2147483648),
    ];
    for (literal, word) in rows {
        assert_eq!(rt; Words.literal(literal), word);
    }
}

#[test]
fn floats_round_once(rt: HostRuntime) {
    // 2^53 and 3 are halfway between two floats
    let even = 9007199254740992.0;
    assert_eq!(rt; Floats.add(even, 1.0), even);
    assert_eq!(rt; Floats.add(even, 3.0), 9007199254740996.0);
    assert_eq!(rt; Floats.sub(even, 0.5), even);
    assert_eq!(rt; Floats.add(0.1, 0.2), 0.30000000000000004);
    assert_eq!(rt; Floats.mul(0.1, 3.0), 0.30000000000000004);
    assert_eq!(rt; Floats.mul(1e308, 10.0), f64::INFINITY);
    assert_eq!(rt; Floats.mul(5e-324, 0.5), 0.0);
    assert_eq!(rt; Floats.mul(5e-324, 0.75), 5e-324);
}

fn is_negative_zero(x: f64) -> bool {
    x == 0.0 && x.is_sign_negative()
}

#[test]
fn floats_at_the_edges(rt: HostRuntime) {
    assert!(rt; !is_negative_zero(Floats.add(-0.0, 0.0)));
    assert!(rt; is_negative_zero(Floats.add(-0.0, -0.0)));
    assert!(rt; is_negative_zero(Floats.sub(-0.0, 0.0)));
    assert!(rt; is_negative_zero(Floats.mul(-0.0, 5.0)));
    assert!(rt; !is_negative_zero(Floats.literal(0)));
    assert_eq!(rt; Floats.add(f64::INFINITY, 1.0), f64::INFINITY);
    assert_eq!(rt; Floats.mul(f64::INFINITY, -2.0), f64::NEG_INFINITY);
    for x in [
        Floats.sub(f64::INFINITY, f64::INFINITY),
        Floats.mul(f64::INFINITY, 0.0),
        Floats.add(f64::NAN, 1.0),
    ] {
        assert!(rt; x.is_nan());
    }
    assert_eq!(rt; Floats.literal(-32768), -32768.0);
    assert_eq!(rt; Floats.literal(32767), 32767.0);
}

#[test]
fn memory_is_scaled(rt: HostRuntime) {
    let mut words = [1, 2147483648, u32::MAX];
    scale_words(2, &mut words);
    assert_eq!(rt; words, [2, 0, 4294967294]);
    scale(&Words, 3, &mut words);
    assert_eq!(rt; words, [6, 0, 4294967290]);
    let mut floats = [0.1, f64::INFINITY, -4.0];
    scale_floats(3.0, &mut floats);
    assert_eq!(rt; floats, [0.30000000000000004, f64::INFINITY, -12.0]);
    scale(&Floats, -0.0, &mut floats[2..3]);
    assert!(rt; floats[2] == 0.0);
}
