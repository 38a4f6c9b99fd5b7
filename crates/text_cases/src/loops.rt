use crate::answers::told;
use crate::machines::padded;
use dependence::loops::Loop;
use dependence::operation::{Operand, Operation};
use std::alloc::{AllocError, Global};
use std::process::Abort;
use std::test::Fail;

fn answers(rt: &impl Abort, text: &[u8], note: &str, number: usize, line: usize, column: usize) {
    told(rt, Loop::read(text), note, number, line, column);
}

#[test]
fn forms_and_shapes(rt: HostRuntime) {
    let rows = [
        ("", 6, 0, 0),
        (" \n\n   ", 6, 0, 0),
        ("a = load 1 0", 0, 0, 0),
        ("  a   =  load  1   0  \n\n   store   a 1  64  \n", 0, 0, 0),
        ("a = load 00001 00000", 0, 0, 0),
        ("a=load 1 0", 2, 1, 0),
        ("a = load 1 100000", 2, 1, 0),
        ("a = load 1 0 0", 2, 1, 0),
        ("a = load -1 0", 2, 1, 0),
        ("a = load b 0", 2, 1, 0),
        ("a = add 1", 2, 1, 0),
        ("a = div 1 1", 2, 1, 0),
        ("= load 1 0", 2, 1, 0),
        ("store 1 1", 2, 1, 0),
        ("a = store 1 1 0", 2, 1, 0),
        ("unit a 1", 2, 1, 0),
        ("a = move a@", 2, 1, 0),
        ("a = move a@-1", 2, 1, 0),
        ("a = move a@100000", 2, 1, 0),
        ("a = move -", 2, 1, 0),
        ("a = move --1", 2, 1, 0),
        ("a = move 1\n\nq", 2, 3, 0),
        ("a = move 1\n\t", 1, 2, 0),
        ("\x7f", 1, 1, 0),
    ];
    for (text, number, line, column) in rows {
        answers(&rt, text.as_bytes(), text, number, line, column);
    }
}

#[test]
fn ranges(rt: HostRuntime) {
    let rows = [
        ("a = load 16 65535", 0, 0, 0),
        ("a = load 17 0", 3, 1, 10),
        ("a = load 1 65536", 3, 1, 12),
        ("store 1 17 65536", 3, 1, 9),
        ("a = move a@7", 0, 0, 0),
        ("a = move a@0", 3, 1, 10),
        ("a = move a@8", 3, 1, 10),
        ("a = add 1 a@00008", 3, 1, 11),
        ("a = move -0", 0, 0, 0),
        ("a = move -32768", 0, 0, 0),
        ("a = move -32769", 3, 1, 10),
        ("a = move 32767", 0, 0, 0),
        ("a = move 32768", 3, 1, 10),
        ("load = load 17 0", 3, 1, 13),
        ("a = move b\nb = load 17 0", 3, 2, 10),
    ];
    for (text, number, line, column) in rows {
        answers(&rt, text.as_bytes(), text, number, line, column);
    }
}

#[test]
fn names(rt: HostRuntime) {
    let rows = [
        ("load = move 1", 4, 1, 1),
        ("  unit = move 1", 4, 1, 3),
        ("a = move 1\na = move 2", 4, 2, 1),
        ("alu = move 1", 0, 0, 0),
        ("a = move load", 7, 1, 10),
        ("a = move start@1", 7, 1, 10),
        ("a = move a", 7, 1, 10),
        ("a = move a@1", 0, 0, 0),
        ("a = move b\nb = move 1", 7, 1, 10),
        ("a = move b@1\nb = move 1", 0, 0, 0),
        ("a = add 1 b", 7, 1, 11),
        ("a = add b c", 7, 1, 9),
        ("a = move 1\n\nstore b@3 1 0\nc = move d", 7, 3, 7),
    ];
    for (text, number, line, column) in rows {
        answers(&rt, text.as_bytes(), text, number, line, column);
    }
}

// So many lines that each define a name of two letters.
fn moves(heap: Global, count: u8) -> Result<Vec<u8>, AllocError> {
    let mut text = Vec::new(heap);
    for i in 0..count {
        text.push(b'a' + i / 26)?;
        text.push(b'a' + i % 26)?;
        text.extend_from_slice(b" = move 1\n")?;
    }
    Ok(text)
}

fn stores(heap: Global, count: u8) -> Result<Vec<u8>, AllocError> {
    let mut text = Vec::new(heap);
    for _ in 0..count {
        text.extend_from_slice(b"store 1 1 0\n")?;
    }
    Ok(text)
}

#[test]
fn counts(rt: HostRuntime) -> Result<(), Fail> {
    answers(&rt, moves(rt.alloc(), 32)?.as_slice(), "32 moves", 0, 0, 0);
    answers(&rt, moves(rt.alloc(), 33)?.as_slice(), "33 moves", 6, 33, 0);
    answers(
        &rt,
        stores(rt.alloc(), 16)?.as_slice(),
        "16 stores",
        0,
        0,
        0,
    );
    answers(
        &rt,
        stores(rt.alloc(), 17)?.as_slice(),
        "17 stores",
        6,
        17,
        0,
    );
    let mut both = stores(rt.alloc(), 16)?;
    both.extend_from_slice(b"\na = move 1\nb = load 1 0\n")?;
    answers(&rt, both.as_slice(), "16 stores and a load", 6, 19, 0);
    Ok(())
}

#[test]
fn lengths(rt: HostRuntime) {
    let padded = padded(b"a = move 1");
    let text: &[u8] = &padded;
    assert!(rt; text.len() == 4097);
    answers(&rt, &text[0..4096], "4096 bytes", 0, 0, 0);
    answers(&rt, text, "4097 bytes", 1, 0, 0);
}

// a = load 1 0, s = add s@1 a, store s 1 64
#[test]
fn the_worked_loop(rt: HostRuntime) -> Result<(), Fail> {
    let Ok(body) = Loop::read(b"a = load 1 0\ns = add s@1 a\nstore s 1 64\n") else {
        return Err(Fail::new("the loop is accepted"));
    };
    let [
        _,
        Operation::Binary(_, left, right),
        Operation::Store(value, cell),
    ] = body.operations()
    else {
        return Err(Fail::new("three operations, of which the second adds and the third stores"));
    };
    reads(&rt, *left, 1, 1)?;
    reads(&rt, *right, 0, 0)?;
    reads(&rt, *value, 1, 0)?;
    assert_eq!(rt; cell.stride, 1);
    assert_eq!(rt; cell.offset, 64);
    Ok(())
}

fn reads(rt: &impl Abort, operand: Operand, wanted: usize, back: usize) -> Result<(), Fail> {
    let Operand::Variable { definer, distance } = operand else {
        return Err(Fail::new("the operand is a variable"));
    };
    assert_eq!(rt; definer, wanted);
    assert_eq!(rt; distance, back);
    Ok(())
}
