// The forms of an operator, by the words after its keyword.
ghost use Rattle.std.specs.Prelude.{◌≡◌, ◌<◌, ◌≤◌, ◌^◌, IfOk, IfSome, length, map, option_map};
ghost use Rattle.plan_core.specs.PlanMade.{op_of};
ghost use Rattle.plan_core.specs.Shapes.{shape_of};
ghost use Rattle.plan_read.specs.Checks.{positions};
ghost use Rattle.plan_read.specs.PiecesMade.{pieces_of};
ghost use Rattle.plan_read.specs.Reading.{source_number, ends_read, group_of, source_form, descent_form, select_form, join_form, project_form, group_form, order_form, concat_form, element_form, destroy_form, keyword_read};

use crate::comparing::{read_test, read_tests};
use crate::names::Names;
use crate::numbers::op_number;
use crate::parts::{is_name_word, read_direction, read_path_word};
use crate::pieces::{PiecesRead, read_out, read_pieces};
use crate::variables::{read_keys, read_var};
use mix_catalog::Catalog;
use mix_tree::{Key, Label, Var};
use plan_core::Op;
use std::alloc::{AllocError, Global};

// The number of the source of a name; how many sources there are, where none has it.
fn source_number(catalog: &Catalog, name: &Label) -> u32
    ensures { result ≡ source_number catalog.now name.now }
{
    match catalog.find(name) {
        Some(number) => number,
        None => catalog.len(),
    }
}

// The source of the words NAME -> VAR.
fn read_source(
    alloc: Global,
    names: &Names,
    catalog: &Catalog,
    words: &[&[u8]],
) -> Result<Option<Op>, AllocError>
    requires { length names.now < 2 ^ 32 }
    ensures reads { IfOk result (λ op. option_map op_of op ≡ source_form names.now catalog.now (map (λ w. w.now) words.now)) }
    ensures short { IfOk result (λ op. IfSome op (λ o. positions (shape_of (op_of o)) ≤ 121)) }
{
    let [name, arrow, out] = words else {
        return Ok(None);
    };
    if !is_name_word(name) {
        return Ok(None);
    }
    let Some(out) = read_out(names, arrow, out) else {
        return Ok(None);
    };
    let name = Label::of_text(alloc, name)?;
    let source = source_number(catalog, &name);
    Ok(Some(Op::Source { source, out }))
}

// The input and the variables of the words IN VAR before an operator's own, and -> VAR after them.
fn read_ends(
    names: &Names,
    input: &[u8],
    start: &[u8],
    arrow: &[u8],
    out: &[u8],
) -> Option<(u32, Var, Var)>
    requires { length names.now < 2 ^ 32 }
    ensures { result ≡ ends_read names.now input.now start.now arrow.now out.now }
{
    let input = op_number(input)?;
    let start = read_var(names, start)?;
    let out = read_out(names, arrow, out)?;
    Some((input, start, out))
}

// The getDescendants of the words IN VAR PATH -> VAR.
fn read_descent(alloc: Global, names: &Names, words: &[&[u8]]) -> Result<Option<Op>, AllocError>
    requires { length names.now < 2 ^ 32 }
    ensures reads { IfOk result (λ op. option_map op_of op ≡ descent_form names.now (map (λ w. w.now) words.now)) }
    ensures short { IfOk result (λ op. IfSome op (λ o. positions (shape_of (op_of o)) ≤ 121)) }
{
    let [input, start, path, arrow, out] = words else {
        return Ok(None);
    };
    let Some((input, start, out)) = read_ends(names, input, start, arrow, out) else {
        return Ok(None);
    };
    let Some(path) = read_path_word(alloc, path)? else {
        return Ok(None);
    };
    Ok(Some(Op::GetDescendants {
        input,
        start,
        path,
        out,
    }))
}

// The selection of the words IN TEST.
fn read_select(alloc: Global, names: &Names, words: &[&[u8]]) -> Result<Option<Op>, AllocError>
    requires { length names.now < 2 ^ 32 }
    ensures reads { IfOk result (λ op. option_map op_of op ≡ select_form names.now (map (λ w. w.now) words.now)) }
    ensures short { IfOk result (λ op. IfSome op (λ o. positions (shape_of (op_of o)) ≤ 121)) }
{
    let [input, left, sign, right] = words else {
        return Ok(None);
    };
    let Some(input) = op_number(input) else {
        return Ok(None);
    };
    match read_test(alloc, names, left, sign, right)? {
        Some(test) => Ok(Some(Op::Select { input, test })),
        None => Ok(None),
    }
}

// The join of the words LEFT RIGHT and comparisons.
fn read_join(alloc: Global, names: &Names, words: &[&[u8]]) -> Result<Option<Op>, AllocError>
    requires { length names.now < 2 ^ 32 }
    ensures reads { IfOk result (λ op. option_map op_of op ≡ join_form names.now (map (λ w. w.now) words.now)) }
    ensures short { IfOk result (λ op. IfSome op (λ o. positions (shape_of (op_of o)) ≤ 121)) }
{
    let [left, right, tests @ ..] = words else {
        return Ok(None);
    };
    let (Some(left), Some(right)) = (op_number(left), op_number(right)) else {
        return Ok(None);
    };
    match read_tests(alloc, names, tests)? {
        Some(tests) => Ok(Some(Op::Join { left, right, tests })),
        None => Ok(None),
    }
}

// The projection of the words IN KEYS.
fn read_project(alloc: Global, names: &Names, words: &[&[u8]]) -> Result<Option<Op>, AllocError>
    requires { length names.now < 2 ^ 32 }
    ensures reads { IfOk result (λ op. option_map op_of op ≡ project_form names.now (map (λ w. w.now) words.now)) }
    ensures short { IfOk result (λ op. IfSome op (λ o. positions (shape_of (op_of o)) ≤ 121)) }
{
    let [input, keys] = words else {
        return Ok(None);
    };
    let Some(input) = op_number(input) else {
        return Ok(None);
    };
    match read_keys(alloc, names, keys)? {
        Some(keys) => Ok(Some(Op::Project { input, keys })),
        None => Ok(None),
    }
}

// The groups of one piece.
fn group_of(input: u32, keys: Vec<Key>, read: PiecesRead) -> Option<Op>
    ensures reads { option_map op_of result ≡ group_of input keys.items (pieces_of read) }
    ensures short { IfSome result (λ o. positions (shape_of (op_of o)) ≤ 121) }
{
    let PiecesRead { mut pieces, out } = read;
    if pieces.len() != 1 {
        return None;
    }
    let piece = pieces.pop()?;
    Some(Op::GroupBy {
        input,
        keys,
        piece,
        out,
    })
}

// The groupBy of the words IN KEYS PIECE -> VAR.
fn read_group(alloc: Global, names: &Names, words: &[&[u8]]) -> Result<Option<Op>, AllocError>
    requires { length names.now < 2 ^ 32 }
    ensures reads { IfOk result (λ op. option_map op_of op ≡ group_form names.now (map (λ w. w.now) words.now)) }
    ensures short { IfOk result (λ op. IfSome op (λ o. positions (shape_of (op_of o)) ≤ 121)) }
{
    let [input, keys, rest @ ..] = words else {
        return Ok(None);
    };
    let Some(input) = op_number(input) else {
        return Ok(None);
    };
    let Some(keys) = read_keys(alloc, names, keys)? else {
        return Ok(None);
    };
    match read_pieces(alloc, names, rest)? {
        Some(read) => Ok(group_of(input, keys, read)),
        None => Ok(None),
    }
}

// The order of the words IN VAR asc, or IN VAR desc.
fn read_order(names: &Names, words: &[&[u8]]) -> Option<Op>
    requires { length names.now < 2 ^ 32 }
    ensures reads { option_map op_of result ≡ order_form names.now (map (λ w. w.now) words.now) }
    ensures short { IfSome result (λ o. positions (shape_of (op_of o)) ≤ 121) }
{
    let [input, var, direction] = words else {
        return None;
    };
    let input = op_number(input)?;
    let var = read_var(names, var)?;
    let desc = read_direction(direction)?;
    Some(Op::OrderBy { input, var, desc })
}

// The concatenate of the words IN PIECE PIECE .. -> VAR.
fn read_concatenate(alloc: Global, names: &Names, words: &[&[u8]]) -> Result<Option<Op>, AllocError>
    requires { length names.now < 2 ^ 32 }
    ensures reads { IfOk result (λ op. option_map op_of op ≡ concat_form names.now (map (λ w. w.now) words.now)) }
    ensures short { IfOk result (λ op. IfSome op (λ o. positions (shape_of (op_of o)) ≤ 121)) }
{
    let [input, rest @ ..] = words else {
        return Ok(None);
    };
    let Some(input) = op_number(input) else {
        return Ok(None);
    };
    match read_pieces(alloc, names, rest)? {
        Some(PiecesRead { pieces, out }) => Ok(Some(Op::Concatenate { input, pieces, out })),
        None => Ok(None),
    }
}

// The createElement of the words IN NAME VAR -> VAR.
fn read_element(alloc: Global, names: &Names, words: &[&[u8]]) -> Result<Option<Op>, AllocError>
    requires { length names.now < 2 ^ 32 }
    ensures reads { IfOk result (λ op. option_map op_of op ≡ element_form names.now (map (λ w. w.now) words.now)) }
    ensures short { IfOk result (λ op. IfSome op (λ o. positions (shape_of (op_of o)) ≤ 121)) }
{
    let [input, name, list, arrow, out] = words else {
        return Ok(None);
    };
    if !is_name_word(name) {
        return Ok(None);
    }
    let Some((input, list, out)) = read_ends(names, input, list, arrow, out) else {
        return Ok(None);
    };
    let label = Label::of_text(alloc, name)?;
    Ok(Some(Op::CreateElement {
        input,
        label,
        list,
        out,
    }))
}

// The tupleDestroy of the words IN VAR.
fn read_destroy(names: &Names, words: &[&[u8]]) -> Option<Op>
    requires { length names.now < 2 ^ 32 }
    ensures reads { option_map op_of result ≡ destroy_form names.now (map (λ w. w.now) words.now) }
    ensures short { IfSome result (λ o. positions (shape_of (op_of o)) ≤ 121) }
{
    let [input, element] = words else {
        return None;
    };
    let input = op_number(input)?;
    let element = read_var(names, element)?;
    Some(Op::TupleDestroy { input, element })
}

/// The operator of a keyword and the words after it; `None` where they are of no form.
pub fn read_keyword(
    alloc: Global,
    names: &Names,
    catalog: &Catalog,
    keyword: &[u8],
    words: &[&[u8]],
) -> Result<Option<Op>, AllocError>
    requires { length names.now < 2 ^ 32 }
    ensures reads { IfOk result (λ op. option_map op_of op ≡ keyword_read names.now catalog.now keyword.now (map (λ w. w.now) words.now)) }
    ensures short { IfOk result (λ op. IfSome op (λ o. positions (shape_of (op_of o)) ≤ 121)) }
{
    if keyword == b"source".as_slice() {
        read_source(alloc, names, catalog, words)
    } else if keyword == b"getDescendants".as_slice() {
        read_descent(alloc, names, words)
    } else if keyword == b"select".as_slice() {
        read_select(alloc, names, words)
    } else if keyword == b"join".as_slice() {
        read_join(alloc, names, words)
    } else if keyword == b"project".as_slice() {
        read_project(alloc, names, words)
    } else if keyword == b"groupBy".as_slice() {
        read_group(alloc, names, words)
    } else if keyword == b"orderBy".as_slice() {
        Ok(read_order(names, words))
    } else if keyword == b"concatenate".as_slice() {
        read_concatenate(alloc, names, words)
    } else if keyword == b"createElement".as_slice() {
        read_element(alloc, names, words)
    } else if keyword == b"tupleDestroy".as_slice() {
        Ok(read_destroy(names, words))
    } else {
        Ok(None)
    }
}
