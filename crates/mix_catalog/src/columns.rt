// The columns of a CSV source in a line.
ghost use Rattle.std.specs.Prelude.{◌≡◌, ◌≤◌, ◌+◌, IfOk, IfSome, IsTrue, length, drop, option_map};
ghost use Rattle.std.specs.List.{list_any};
ghost use Rattle.std.specs.Str.{IsUtf8, IsCharBoundary, bytes_eq};
ghost use Rattle.mix_catalog.specs.Columns.{are_apart, columns_at, has_comma, seen_of};

use mix_tree::{Label, LabelRead, read_label, same_label};
use std::alloc::{AllocError, Global};

/// The names of columns, and the place after their spelling.
#[derive(Drop)]
pub struct Columns {
    pub labels: Vec<Label>,
    pub end: usize,
}

// Whether a comma stands at a place.
fn has_comma(line: &[u8], at: usize) -> bool
    requires { at ≤ length line.now }
    ensures comma { result ≡ has_comma (drop at line.now) }
    ensures more { IsTrue result → at + 1 ≤ length line.now }
    ensures boundary { IsUtf8 line.now → IsTrue result → IsCharBoundary line.now (at + 1) }
{
    match &line[at..] {
        [] => false,
        [byte, ..] => *byte == b',',
    }
}

/// The columns that are spelled at a place of a line, as far as they go; `None` where there are none.
pub fn read_columns(alloc: Global, line: &[u8], at: usize) -> Result<Option<Columns>, AllocError>
    requires utf8 { IsUtf8 line.now }
    requires inside { at ≤ length line.now }
    requires boundary { IsCharBoundary line.now at }
    ensures seen { IfOk result (λ found. option_map (seen_of line.now) found ≡ columns_at line.now at) }
    ensures inside { IfOk result (λ found. IfSome found (λ columns. columns.end ≤ length line.now)) }
{
    let mut labels = Vec::new(alloc);
    let mut from = at;
    loop {
        let LabelRead::Got { label, end } = read_label(alloc, line, from)? else {
            return Ok(None);
        };
        labels.push(label)?;
        if !has_comma(line, end) {
            return Ok(Some(Columns { labels, end }));
        }
        from = end + 1;
    }
}

// Whether a column is the same as one of these.
fn is_among(column: &Label, others: &[Label]) -> bool
    ensures { result ≡ list_any (bytes_eq column.now) others.now }
{
    others.iter().any(|other| same_label(column, other))
}

/// Whether no column is the same as one after it.
pub fn are_apart(columns: &[Label]) -> bool
    ensures { result ≡ are_apart columns.now }
{
    match columns {
        [] => true,
        [first, others @ ..] => !is_among(first, others) && are_apart(others),
    }
}
