//! Texts of models that are read, at once and in pieces.

ghost use Rattle.std.specs.Prelude.{◌<◌};

use crate::{ModelKind, ModelReader, ModelRefusal, parse_model};
use cp_io::{Limit, Limits};
use cp_logic::Assignment;
use std::alloc::Global;
use std::test::Fail;

const VARS: u32 = 3;

#[test]
fn models_are_read(rt: HostRuntime) -> Result<(), Fail> {
    let rows = [
        ("c x\ns SATISFIABLE\nv 3\nv 0\n", "--+"),
        ("v 1 -2 3 00 x\nfoo", "+-+"),
        ("v 2 2 0", "-+-"),
        ("v 4 2 4 0\n", "-+-"),
        ("v -2000000 0\n", "---"),
        ("v 2 0\ns UNKNOWN\n", "-+-"),
        ("v 3\ns SATISFIABLE\nv 0\n", "--+"),
        (" \t\r\n\n\tv\r-1  2\r\nv\nv 0", "-+-"),
        ("comment\ncv 0\nv 1 0\n", "+--"),
        ("v 0000000000000000000000002 0\n", "-+-"),
    ];
    for (text, signs) in rows {
        assert!(rt;
            is_read(rt.alloc(), text, Limits::standard(), Ok(signs)),
            "{text}"
        );
    }
    let none = parse_model(rt.alloc(), 0, b"v 1 0\n", &Limits::standard());
    let none = none.ok().ok_or("not read")?;
    assert!(rt; none.is_empty());
    Ok(())
}

#[test]
fn other_texts_are_refused(rt: HostRuntime) {
    let rows = [
        ("", bad(0, ModelKind::NoEnd)),
        ("v 1\n", bad(4, ModelKind::NoEnd)),
        ("v 1 -1 0\n", bad(4, ModelKind::Contradiction)),
        ("v -4 4 0\n", bad(5, ModelKind::Contradiction)),
        ("v 1\nv -1 0\n", bad(6, ModelKind::Contradiction)),
        ("v -0\n", bad(2, ModelKind::BadWord)),
        ("v 1 x\n", bad(4, ModelKind::BadWord)),
        ("v 1 +2\n", bad(4, ModelKind::BadWord)),
        ("1 0\n", bad(0, ModelKind::BadWord)),
        ("vv 1\n", bad(0, ModelKind::BadWord)),
        ("s", bad(1, ModelKind::BadStatus)),
        ("s \n", bad(2, ModelKind::BadStatus)),
        ("s MAYBE\n", bad(2, ModelKind::BadStatus)),
        ("s SATISFIABLE x\n", bad(14, ModelKind::BadStatus)),
        ("s UNKNOWN x\n", bad(10, ModelKind::BadStatus)),
        ("s SATISFIABLE\ns UNKNOWN\n", bad(14, ModelKind::BadStatus)),
        ("s UNSATISFIABLE\n", ModelRefusal::NoModel),
        ("s UNKNOWN", ModelRefusal::NoModel),
        ("v 1\ns UNKNOWN\n", ModelRefusal::NoModel),
        ("v 2000001 0\n", too_large(Limit::Variables, 2)),
        ("v 18446744073709551617 0\n", too_large(Limit::Variables, 2)),
    ];
    for (text, refusal) in rows {
        assert!(rt;
            is_read(rt.alloc(), text, Limits::standard(), Err(refusal)),
            "{text}"
        );
    }
}

#[test]
fn limits_are_kept(rt: HostRuntime) {
    let rows = [
        ("v 9 0\n", 9, 7, Ok("---")),
        ("v 10 0\n", 9, 7, Err(too_large(Limit::Variables, 2))),
        ("v 1 2 0 x", 9, 7, Ok("++-")),
        ("v 1 2 0", 9, 7, Ok("++-")),
        ("v 1 2 0 x", 9, 6, Err(too_large(Limit::Bytes, 6))),
        ("v 1 2 00", 9, 7, Err(too_large(Limit::Bytes, 7))),
        ("s UNKNOWN\n", 9, 9, Err(too_large(Limit::Bytes, 9))),
        ("s UNKNOWN\n", 9, 10, Err(ModelRefusal::NoModel)),
        ("s UNKNOWN\nv", 9, 10, Err(ModelRefusal::NoModel)),
        ("s\nv 1 0", 9, 1, Err(too_large(Limit::Bytes, 1))),
        ("s\nv 1 0", 9, 2, Err(bad(1, ModelKind::BadStatus))),
        ("v 1 -1 0", 9, 6, Err(bad(4, ModelKind::Contradiction))),
        ("v 1 -1 0", 9, 5, Err(too_large(Limit::Bytes, 5))),
        ("v 1\n", 9, 3, Err(too_large(Limit::Bytes, 3))),
        ("x v", 9, 1, Err(bad(0, ModelKind::BadWord))),
        ("xv", 9, 1, Err(too_large(Limit::Bytes, 1))),
        ("v 0", 9, 0, Err(too_large(Limit::Bytes, 0))),
    ];
    for (text, variables, bytes, wanted) in rows {
        let limits = Limits {
            variables,
            bytes,
            ..Limits::standard()
        };
        assert!(rt; is_read(rt.alloc(), text, limits, wanted), "{text}");
    }
}

#[test]
fn kinds_are_printed_by_name(rt: HostRuntime) -> Result<(), Fail> {
    let rows = [
        (ModelKind::BadWord, "BadWord"),
        (ModelKind::BadStatus, "BadStatus"),
        (ModelKind::Contradiction, "Contradiction"),
        (ModelKind::NoEnd, "NoEnd"),
    ];
    for (kind, name) in rows {
        let printed = format!(in rt.alloc(); "{kind}")?;
        assert_eq!(rt; printed.as_str(), name);
    }
    Ok(())
}

// Whether the text is read so, at once and in pieces of one to seven bytes.
fn is_read(alloc: Global, text: &str, limits: Limits, wanted: Result<&str, ModelRefusal>) -> bool {
    if !agrees(parse_model(alloc, VARS, text.as_bytes(), &limits), wanted) {
        return false;
    }
    for size in 1..8 {
        if !agrees(read_in_pieces(alloc, text.as_bytes(), size, limits), wanted) {
            return false;
        }
    }
    true
}

fn read_in_pieces(
    alloc: Global,
    text: &[u8],
    size: usize,
    limits: Limits,
) -> Result<Assignment, ModelRefusal>
    requires { 0 < size }
{
    let mut reader = ModelReader::new(alloc, VARS, limits)?;
    for piece in text.chunks(size) {
        reader.feed(piece)?;
    }
    reader.finish()
}

// The refusal is this one, or the variables have these signs.
fn agrees(answer: Result<Assignment, ModelRefusal>, wanted: Result<&str, ModelRefusal>) -> bool {
    match (answer, wanted) {
        (Ok(model), Ok(signs)) => has_signs(&model, signs.as_bytes()),
        (Err(refusal), Err(expected)) => refusal == expected,
        _ => false,
    }
}

fn has_signs(model: &Assignment, signs: &[u8]) -> bool {
    if model.len() as usize != signs.len() {
        return false;
    }
    for index in 0..model.len() {
        if model.get(index + 1) != (signs[index as usize] == b'+') {
            return false;
        }
    }
    true
}

fn bad(offset: u64, kind: ModelKind) -> ModelRefusal {
    ModelRefusal::BadModel { offset, kind }
}

fn too_large(limit: Limit, offset: u64) -> ModelRefusal {
    ModelRefusal::TooLarge { limit, offset }
}
