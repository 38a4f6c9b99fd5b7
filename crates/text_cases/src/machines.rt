use crate::answers::told;
use dependence::fault::GraphFault;
use std::process::Abort;
use std::test::Fail;
use texts::machine::Machine;

const ALL: &str =
    "unit alu 1\nunit mem 1\nop load mem 2 1\nop store mem 1 1\nop mul alu 3 1\nop add alu 1 1\nop sub alu 1 1\nop move alu 1 1";

fn answers(rt: &impl Abort, text: &[u8], note: &str, number: usize, line: usize, column: usize) {
    let reading = Machine::read(text).map_err(GraphFault::from);
    told(rt, reading, note, number, line, column);
}

#[test]
fn forms_and_shapes(rt: HostRuntime) {
    let rows = [
        ("", 5, 0, 0),
        ("   \n\n ", 5, 0, 0),
        (ALL, 0, 0, 0),
        ("unit a 00008", 5, 0, 0),
        ("unit a 100000", 2, 1, 0),
        ("unit abcdefghi 1", 2, 1, 0),
        ("unit abcdefgh 1", 5, 0, 0),
        ("unit A 1", 2, 1, 0),
        ("unit a -1", 2, 1, 0),
        ("unit a", 2, 1, 0),
        ("unit a 1 1", 2, 1, 0),
        ("unit", 2, 1, 0),
        ("\n\nop start a 1 1", 2, 3, 0),
        ("op load a 1", 2, 1, 0),
        ("op load a 1 1 1", 2, 1, 0),
        ("a = load 1 0", 2, 1, 0),
        ("unit a 1\n\tunit b 1", 1, 2, 0),
        ("unit a 1\r\n", 1, 1, 0),
        ("unit a 1\n\n\x7f", 1, 3, 0),
        ("unit\x01", 1, 1, 0),
    ];
    for (text, number, line, column) in rows {
        answers(&rt, text.as_bytes(), text, number, line, column);
    }
    answers(&rt, &[b'a', 128], "the bytes 97 and 128", 1, 1, 0);
    answers(&rt, &[255], "the byte 255", 1, 1, 0);
}

#[test]
fn ranges_and_names(rt: HostRuntime) {
    let rows = [
        ("unit a 0", 3, 1, 8),
        ("unit a 9", 3, 1, 8),
        ("unit load 9", 3, 1, 11),
        ("op load a 0 1", 3, 1, 11),
        ("op load a 9 9", 3, 1, 11),
        ("unit a 1\nop load a 2 3", 3, 2, 13),
        ("unit a 1\n  op  load a 8  0", 3, 2, 17),
        ("unit load 1", 4, 1, 6),
        ("unit start 1", 4, 1, 6),
        ("unit unit 1", 4, 1, 6),
        ("unit a 1\nunit a 2", 4, 2, 6),
        ("op load a 1 1", 4, 1, 9),
        ("op load a 1 1\nunit a 1", 4, 1, 9),
        ("unit a 1\nop load a 1 1\nop load a 1 1", 4, 3, 4),
        ("unit a 1\nop load a 1 1\nop load b 1 1", 4, 3, 4),
        ("unit a 1\nop load load 1 1", 4, 2, 9),
    ];
    for (text, number, line, column) in rows {
        answers(&rt, text.as_bytes(), text, number, line, column);
    }
}

#[test]
fn classes_and_codes(rt: HostRuntime) {
    let eight = "unit a 1\nunit b 1\nunit c 1\nunit d 1\nunit e 1\nunit f 1\nunit g 1\nunit h 1\n";
    let nine =
        "unit a 1\nunit b 1\nunit c 1\nunit d 1\nunit e 1\nunit f 1\nunit g 1\nunit h 1\nunit i 1\n";
    let no_move =
        "unit a 1\nop load a 1 1\nop store a 1 1\nop mul a 1 1\nop add a 1 1\nop sub a 1 1\n";
    answers(&rt, eight.as_bytes(), eight, 5, 0, 0);
    answers(&rt, nine.as_bytes(), nine, 5, 9, 0);
    answers(&rt, no_move.as_bytes(), no_move, 5, 0, 0);
}

// A text with spaces behind it, up to 4,097 bytes.
pub(crate) fn padded(text: &[u8]) -> [u8; 4097] {
    let mut whole = [b' '; 4097];
    for (place, b) in whole.iter_mut().zip(text) {
        *place = *b;
    }
    whole
}

#[test]
fn lengths(rt: HostRuntime) {
    let whole = padded(ALL.as_bytes());
    answers(&rt, &whole[0..4096], "4096 bytes", 0, 0, 0);
    answers(&rt, &whole[0..4097], "4097 bytes", 1, 0, 0);
    let blank = [b'\n'; 4097];
    answers(&rt, &blank[0..4096], "4096 empty lines", 5, 0, 0);
    answers(&rt, &blank[0..4097], "4097 empty lines", 1, 0, 0);
}

#[test]
fn the_worked_machine(rt: HostRuntime) -> Result<(), Fail> {
    let Ok(machine) = Machine::read(ALL.as_bytes()) else {
        return Err(Fail::new("the machine is accepted"));
    };
    let entries = machine.entries;
    let classes = entries.classes.as_slice();
    assert_eq!(rt; classes.len(), 2);
    assert!(rt; classes[0].name.text() == b"alu".as_slice());
    assert!(rt; classes[1].name.text() == b"mem".as_slice());
    let rows = [(1, 2), (1, 1), (0, 1), (0, 1), (0, 3), (0, 1)];
    for ((class, latency), timing) in rows.iter().zip(entries.timings.iter()) {
        let Some(timing) = timing else {
            return Err(Fail::new("each code is on a class"));
        };
        assert_eq!(rt; timing.class, *class);
        assert_eq!(rt; timing.latency, *latency);
        assert_eq!(rt; timing.busy, 1);
    }
    Ok(())
}
