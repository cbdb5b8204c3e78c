// Trees as text: that calls of the library succeed, and values worked out by hand.
use bracket_text::BracketFault::{NotUtf8, Unexpected};
use bracket_text::{BracketFault, no_text_spells_two, read_tree, write_tree};
use mix_tree::{Place, Tree};
use std::alloc::Global;

// The canonical text of a tree that is read, or why it is refused.
fn canonical(alloc: Global, text: &[u8]) -> Result<Vec<u8>, BracketFault> {
    let tree = read_tree(alloc, text)?;
    Ok(write_tree(alloc, &tree)?)
}

// Whether a text comes to this canonical text, or is refused so.
fn comes_to(alloc: Global, text: &[u8], wanted: Result<&str, BracketFault>) -> bool {
    match (canonical(alloc, text), wanted) {
        (Ok(found), Ok(wanted)) => found.as_slice() == wanted.as_bytes(),
        (Err(found), Err(wanted)) => found == wanted,
        _ => false,
    }
}

// Texts, each with its canonical text or its refusal.
const TEXTS: &[(&[u8], Result<&str, BracketFault>)] = &[
    (b"a", Ok("a")),
    (b" a [ ] ", Ok("a")),
    (
        b"\"a\" [ \"b c\" , \xc3\xa9 [ ] , \"\" [ d ] ]",
        Ok("a[\"b c\",é,\"\"[d]]"),
    ),
    (b"\"\\n\"[\"\t\"]", Ok("\"\\n\"[\"\\t\"]")),
    (
        b" a [ b , \"c\\\"\\n\" [ ] , d[e,f] ]",
        Ok("a[b,\"c\\\"\\n\",d[e,f]]"),
    ),
    (b"\xff", Err(NotUtf8(0))),
    (b"a]\xc3", Err(NotUtf8(2))),
    (b"a[\"\xe2\x82\"]", Err(NotUtf8(3))),
    (b"a]", Err(Unexpected(1))),
    (b"a,b", Err(Unexpected(1))),
    (b"a b", Err(Unexpected(2))),
    (b"a[b] c", Err(Unexpected(5))),
    (b"a[b,]", Err(Unexpected(4))),
    (b"a[,b]", Err(Unexpected(2))),
    (b"[a]", Err(Unexpected(0))),
    (b"a[b][c]", Err(Unexpected(4))),
    (b"a\"b\"", Err(Unexpected(1))),
    (b"\"a\"b", Err(Unexpected(3))),
    (b"\"a\"\xc3\xa9", Err(Unexpected(3))),
    (b"a[\"\\x\"]", Err(Unexpected(4))),
    (b"a[\"\xc3\xa9\\\xc3\xa9\"]", Err(Unexpected(6))),
    (b"a!", Err(Unexpected(1))),
];

#[test]
fn texts_have_one_canonical_text_or_a_refusal(rt: HostRuntime) {
    for (text, wanted) in TEXTS {
        assert!(rt; comes_to(rt.alloc(), text, *wanted));
    }
    no_text_spells_two();
}

// Whether the subtree at a place has this label and so many kids.
fn has_at(tree: &Tree, place: &Place, label: &str, count: usize) -> bool {
    match tree.at(place) {
        Some(found) => found.label().bytes() == label.as_bytes() && found.kids().len() == count,
        None => false,
    }
}

// Whether the subtree at a place of a text has this label and so many kids.
fn stands_at(
    alloc: Global,
    text: &str,
    steps: &[u64],
    label: &str,
    count: usize,
) -> Result<bool, BracketFault> {
    let place = Place::new(Vec::from_slice(alloc, steps)?);
    let tree = read_tree(alloc, text.as_bytes())?;
    Ok(has_at(&tree, &place, label, count))
}

// A text with spaces of each kind.
const SPACED: &str = " \ta\n[\r b , \"c\"\t[ d ]\n, e\r] \n";

// Texts, each with steps to a subtree, its label and how many kids it has.
const SHAPES: &[(&str, &[u64], &str, usize)] = &[
    ("a", &[], "a", 0),
    ("aZ09_-.:/@#+$%é", &[], "aZ09_-.:/@#+$%é", 0),
    ("a[]", &[], "a", 0),
    (" \"\" [ ] ", &[], "", 0),
    ("a[b]", &[0], "b", 0),
    ("a[b,c[d],e]", &[], "a", 3),
    ("a[b,c[d],e]", &[1], "c", 1),
    ("a[b,c[d],e]", &[1, 0], "d", 0),
    (SPACED, &[], "a", 3),
    (SPACED, &[1, 0], "d", 0),
    (SPACED, &[2], "e", 0),
    ("a[\"[é\\\"\\\\\\n\\t,]\"]", &[0], "[é\"\\\n\t,]", 0),
];

#[test]
fn accepted_texts_have_their_shape(rt: HostRuntime) {
    for (text, steps, label, count) in SHAPES {
        assert!(rt; stands_at(rt.alloc(), text, steps, label, *count) == Ok(true));
    }
}
