// Labels: that calls of the library succeed, and values worked out by hand.
use mix_tree::{Label, LabelRead, begins_label, read_label, same_label, write_label};
use std::alloc::{AllocError, Global};

// Whether a label has these bytes.
pub fn is_label(label: &Label, text: &str) -> bool {
    label.bytes() == text.as_bytes()
}

// A label of a text.
pub fn label(alloc: Global, text: &str) -> Result<Label, AllocError> {
    Label::of_text(alloc, text.as_bytes())
}

// Whether the label of a text has its bytes, and a copy is the same; `None` where there is no label.
fn is_kept(alloc: Global, text: &[u8]) -> Result<Option<bool>, AllocError> {
    let Some(label) = Label::new(alloc, text)? else {
        return Ok(None);
    };
    let copy = label.copy(alloc)?;
    let is_same = same_label(&label, &copy) && label.cmp(&copy).is_eq();
    Ok(Some(label.bytes() == text && is_same))
}

// Texts, with whether they are kept, if they are labels.
const LABELS: &[(&[u8], Option<bool>)] = &[
    (b"\xff", None),
    (b"", Some(true)),
    (b"home", Some(true)),
    (b"fourteen_bytes", Some(true)),
    (b"fifteen___bytes", Some(true)),
    (b"La Jolla \xc3\xbcber alles", Some(true)),
];

// Whether the labels of two texts ascend by their bytes, and differ.
fn ascend(alloc: Global, first: &str, second: &str) -> Result<bool, AllocError> {
    let (first, second) = (label(alloc, first)?, label(alloc, second)?);
    Ok(first < second && first != second)
}

#[test]
fn labels_are_texts(rt: HostRuntime) {
    for (text, wanted) in LABELS {
        assert!(rt; is_kept(rt.alloc(), text) == Ok(*wanted));
    }
    assert!(rt; ascend(rt.alloc(), "10", "9") == Ok(true));
    assert!(rt; ascend(rt.alloc(), "a", "b") == Ok(true));
}

// Whether a label is spelled so.
fn is_written(alloc: Global, text: &str, spelling: &str) -> Result<bool, AllocError> {
    let label = label(alloc, text)?;
    Ok(write_label(alloc, &label)?.as_slice() == spelling.as_bytes())
}

// Labels, each with its spelling.
const SPELLINGS: &[(&str, &str)] = &[
    ("home", "home"),
    ("-7", "-7"),
    ("été", "été"),
    ("", "\"\""),
    ("La Jolla", "\"La Jolla\""),
    ("a\"b\\c\nd\te\rf", "\"a\\\"b\\\\c\\nd\\te\rf\""),
    ("a[b", "\"a[b\""),
];

#[test]
fn labels_are_spelled_bare_or_quoted(rt: HostRuntime) {
    for (text, spelling) in SPELLINGS {
        assert!(rt; is_written(rt.alloc(), text, spelling) == Ok(true));
    }
}

// A label with the place after its spelling; or the byte that does not fit, if the text does not end there.
type Spelled = Result<(&'static str, usize), Option<usize>>;

// Whether this is what stands at a place of a text.
fn stands_at(alloc: Global, text: &str, from: usize, wanted: Spelled) -> Result<bool, AllocError> {
    if from > text.len() {
        return Ok(false);
    }
    match read_label(alloc, text.as_bytes(), from)? {
        LabelRead::Got { label, end } => match wanted {
            Ok((text, at)) => Ok(is_label(&label, text) && end == at),
            Err(_) => Ok(false),
        },
        LabelRead::Unexpected(at) => Ok(wanted == Err(Some(at))),
        LabelRead::Ends => Ok(wanted == Err(None)),
    }
}

// Texts and places, each with what stands there.
const SPELLED: &[(&str, usize, Spelled)] = &[
    ("home", 0, Ok(("home", 4))),
    ("a[b]", 2, Ok(("b", 3))),
    ("été,", 0, Ok(("été", 5))),
    ("\"\"a", 0, Ok(("", 2))),
    ("\"La Jolla\"", 0, Ok(("La Jolla", 10))),
    ("\"é\\\"\\\\\\n\\té\" ", 0, Ok(("é\"\\\n\té", 14))),
    ("", 0, Err(None)),
    ("a", 1, Err(None)),
    ("\"a", 0, Err(None)),
    ("\"a\\", 0, Err(None)),
    (" a", 0, Err(Some(0))),
    ("a[b]", 1, Err(Some(1))),
    ("\"é\\é\"", 0, Err(Some(4))),
    ("\"\\n\\x\"", 0, Err(Some(4))),
    ("é", 1, Err(Some(1))),
];

#[test]
fn labels_are_read_as_they_are_spelled(rt: HostRuntime) {
    for (text, from, wanted) in SPELLED {
        assert!(rt; stands_at(rt.alloc(), text, *from, *wanted) == Ok(true));
    }
    assert!(rt; begins_label(b'a') && begins_label(b'"') && !begins_label(b'['));
}
