// Paths as text: that calls of the library succeed, and values worked out by hand.
use crate::made::{Parts, made};
use mix_tree::Label;
use path_expr::PathFault::{Ends, NotUtf8, TooDeep, TooMany, Unexpected};
use path_expr::{Node, Path, PathFault, no_text_spells_two_paths, read_path, write_path};
use std::alloc::{AllocError, Global};

// The canonical text of a path that is read, or why it is refused.
fn canonical(alloc: Global, text: &[u8]) -> Result<Vec<u8>, PathFault> {
    let path = read_path(alloc, text)?;
    Ok(write_path(alloc, &path)?)
}

// Whether a text comes to this canonical text, or is refused so.
fn comes_to(alloc: Global, text: &[u8], wanted: Result<&[u8], PathFault>) -> bool {
    match (canonical(alloc, text), wanted) {
        (Ok(found), Ok(wanted)) => found.as_slice() == wanted,
        (Err(found), Err(wanted)) => found == wanted,
        _ => false,
    }
}

// Texts, each with its canonical text or its refusal.
const TEXTS: &[(&[u8], Result<&[u8], PathFault>)] = &[
    (b"a", Ok(b"a")),
    (b"_", Ok(b"_")),
    (b"_a", Ok(b"_a")),
    (b"__", Ok(b"__")),
    (b"a-0.Z_", Ok(b"a-0.Z_")),
    (b"\"a\"", Ok(b"a")),
    (b"\"_\"", Ok(b"\"_\"")),
    (b"\"\"", Ok(b"\"\"")),
    (
        b"\"\xc3\xa9\\\"\\\\\\n\t.(|\"",
        Ok(b"\"\xc3\xa9\\\"\\\\\\n\\t.(|\""),
    ),
    (b"((a))", Ok(b"a")),
    (b"a.b.c", Ok(b"a.b.c")),
    (b"a.(b.c)", Ok(b"a.(b.c)")),
    (b"(a.b).c", Ok(b"(a.b).c")),
    (b"a|(b|c)", Ok(b"a|(b|c)")),
    (b"a|(b.c)", Ok(b"a|b.c")),
    (b"(a|b).c", Ok(b"(a|b).c")),
    (b"(a)*", Ok(b"a*")),
    (b"(a*)+", Ok(b"(a*)+")),
    (b"(a.b)?", Ok(b"(a.b)?")),
    (b"(_)*.(a+)", Ok(b"_*.a+")),
    (b"(a|c)*.(c|a.c)", Ok(b"(a|c)*.(c|a.c)")),
    (b"", Err(Ends)),
    (b"a.", Err(Ends)),
    (b"a|", Err(Ends)),
    (b"(a", Err(Ends)),
    (b"\"\xc3\xa9", Err(Ends)),
    (b"\"\\", Err(Ends)),
    (b"a..b", Err(Unexpected(2))),
    (b" a", Err(Unexpected(0))),
    (b"\xc3\xa9", Err(Unexpected(0))),
    (b"a \xc3\xa9", Err(Unexpected(1))),
    (b"a**", Err(Unexpected(2))),
    (b"a)", Err(Unexpected(1))),
    (b"()", Err(Unexpected(1))),
    (b"\"\xc3\xa9\\\xc3\xa9\"", Err(Unexpected(4))),
    (b"\"a\"b", Err(Unexpected(3))),
    (b"a..\"\xff", Err(NotUtf8(4))),
];

#[test]
fn texts_have_one_canonical_text_or_a_refusal(rt: HostRuntime) {
    for (text, wanted) in TEXTS {
        assert!(rt; comes_to(rt.alloc(), text, *wanted));
    }
    no_text_spells_two_paths();
}

// Whether the text of these parts comes to the text of those, or is refused so.
fn made_comes_to(
    alloc: Global,
    parts: &Parts,
    times: usize,
    wanted: Result<&Parts, PathFault>,
) -> Result<bool, AllocError> {
    let text = made(alloc, parts, times)?;
    match wanted {
        Ok(parts) => Ok(comes_to(alloc, &text, Ok(&made(alloc, parts, times)?))),
        Err(fault) => Ok(comes_to(alloc, &text, Err(fault))),
    }
}

// Texts at a limit and past it, with 120 positions and 100 open parentheses.
const LIMITS: &[(Parts, usize, Result<&Parts, PathFault>)] = &[
    (
        [b"_", b"._", b"", b"", b""],
        119,
        Ok(&[b"_", b"._", b"", b"", b""]),
    ),
    ([b"_", b"._", b"", b"", b""], 120, Err(TooMany(121))),
    (
        [b"", b"(", b"a.\"(\"", b")", b""],
        100,
        Ok(&[b"", b"", b"a.\"(\"", b"", b""]),
    ),
    ([b"", b"(", b"a", b")", b""], 101, Err(TooDeep(100))),
];

#[test]
fn at_most_120_positions_and_100_open_parentheses_are_read(rt: HostRuntime) {
    for (parts, times, wanted) in LIMITS {
        assert!(rt; made_comes_to(rt.alloc(), parts, *times, *wanted) == Ok(true));
    }
}

// The members of a sequence of one label.
fn one_name(alloc: Global, text: &str) -> Result<Vec<Path>, AllocError> {
    let label = Label::of_text(alloc, text.as_bytes())?;
    let mut members = Vec::new(alloc);
    members.push(Path::new(Node::Name(label)))?;
    Ok(members)
}

// Whether a sequence of one label is written so.
fn is_written(alloc: Global, text: &str, wanted: &[u8]) -> Result<bool, AllocError> {
    let path = Path::new(Node::Seq(one_name(alloc, text)?));
    Ok(write_path(alloc, &path)?.as_slice() == wanted)
}

#[test]
fn a_path_that_no_text_spells_is_written(rt: HostRuntime) {
    assert!(rt; is_written(rt.alloc(), "a b", b"\"a b\"") == Ok(true));
}
