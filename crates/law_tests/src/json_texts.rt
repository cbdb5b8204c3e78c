// JSON texts: the trees that they come to, and the places at which they are refused, worked out by hand.
use bracket_text::write_tree;
use json_text::JsonFault::{NotJson, NotUtf8};
use json_text::{JsonFault, read_json};
use mix_tree::Label;
use std::alloc::{AllocError, Global};

// The canonical text of the tree of a JSON text, whose root is called `j`, or why it is refused.
fn canonical(alloc: Global, text: &[u8]) -> Result<Vec<u8>, JsonFault> {
    let name = Label::of_text(alloc, b"j")?;
    let document = read_json(alloc, &name, text)?;
    let tree = document.tree(alloc)?;
    Ok(write_tree(alloc, &tree)?)
}

// Whether a JSON text comes to this canonical text, or is refused so.
fn comes_to(alloc: Global, text: &[u8], wanted: Result<&str, JsonFault>) -> bool {
    match canonical(alloc, text) {
        Ok(found) => wanted.is_ok_and(|wanted| found.as_slice() == wanted.as_bytes()),
        Err(found) => wanted == Err(found),
    }
}

// JSON texts, each with its canonical text or its refusal.
const TEXTS: &[(&[u8], Result<&str, JsonFault>)] = &[
    (b" null\n", Ok("j")),
    (b"[]", Ok("j")),
    (b"{ }", Ok("j")),
    (b"true", Ok("j[true]")),
    (b"\"\"", Ok("j[\"\"]")),
    (b"1e5", Ok("j[1e5]")),
    (b"\t-0.0", Ok("j[-0.0]")),
    (
        b"[1,[-2,[ ]],{}, null]",
        Ok("j[item[1],item[item[-2],item],item,item]"),
    ),
    (
        b"{\"a\":null,\"a\":{\"\":[false]},\"b\":\"c d\"}",
        Ok("j[a,a[\"\"[item[false]]],b[\"c d\"]]"),
    ),
    (
        b"\"\\/\\\"\\\\\\n\\t\\u0041\\u00e9\\uD83D\\ude00\"",
        Ok("j[\"/\\\"\\\\\\n\\tAé😀\"]"),
    ),
    (b"\"\xc3\xa9\"", Ok("j[é]")),
    (b"", Err(NotJson(0))),
    (b"nul", Err(NotJson(0))),
    (b"01", Err(NotJson(0))),
    (b"\"\\ud83d\"", Err(NotJson(0))),
    (b"\xef\xbb\xbf1", Err(NotJson(0))),
    (b"1 2", Err(NotJson(2))),
    (b"[1,]", Err(NotJson(3))),
    (b"{\"a\":1,}", Err(NotJson(7))),
    (b"\xff", Err(NotUtf8(0))),
    (b"[\"\xe2\x82\"]", Err(NotUtf8(2))),
];

#[test]
fn texts_have_a_tree_or_a_refusal(rt: HostRuntime) {
    for (text, wanted) in TEXTS {
        assert!(rt; comes_to(rt.alloc(), text, *wanted));
    }
}

// A text of arrays alone, which nest so deep.
fn nested(alloc: Global, depth: u8) -> Result<Vec<u8>, AllocError> {
    let mut text = Vec::new(alloc);
    text.resize(depth as usize, b'[')?;
    text.resize(depth as usize * 2, b']')?;
    Ok(text)
}

// Whether a text whose arrays nest so deep is read.
fn is_read(alloc: Global, depth: u8) -> bool {
    match nested(alloc, depth) {
        Ok(text) => canonical(alloc, text.as_slice()).is_ok(),
        Err(_) => false,
    }
}

#[test]
fn arrays_nest_at_most_128_deep(rt: HostRuntime) {
    assert!(rt; is_read(rt.alloc(), 128));
    assert!(rt; !is_read(rt.alloc(), 129));
}
