// The shape of each tree that a file lists.
ghost use Rattle.std.specs.Prelude.{◌≡◌, length, IfOk, IfSome};

use crate::{ReadFault, Reason};
use sqlite_catalog::load;
use sqlite_schema::names::same_name;
use sqlite_schema::schema::Schema;
use sqlite_trees::sound::bytes_of;
use sqlite_trees::store::Shape;
use sqlite_value::keys::Order;
use sqlite_value::order::is_same;
use sqlite_value::row::Row;
use sqlite_value::value::ValueRef;
use std::alloc::{AllocError, Global};

// Whether a value is the text of this word.
fn is_word(value: ValueRef<'_>, word: &[u8]) -> bool {
    is_same(value, ValueRef::Text(word))
}

// Puts the values of an entry but for its root, the fifth of them.
fn push_without_root(row: &mut Row, entry: &Row) -> Result<(), AllocError> {
    row.push(entry.get(0))?;
    row.push(entry.get(1))?;
    row.push(entry.get(2))?;
    row.push(entry.get(3))?;
    row.push(entry.get(5))
}

// An entry without its root.
fn without_root(alloc: Global, entry: &Row) -> Result<Row, AllocError> {
    let mut row = Row::new(alloc);
    push_without_root(&mut row, entry)?;
    Ok(row)
}

/// The entries of the list without their roots.
pub fn without_roots(alloc: Global, listed: &[Row]) -> Result<Vec<Row>, AllocError>
    ensures { IfOk result (λ rows. length rows.items ≡ length listed.now) }
{
    let mut rows = Vec::new(alloc);
    'entries: for entry in listed {
        rows.push(without_root(alloc, entry)?)?;
    }
    Ok(rows)
}

// A table's trigger or an index that is not understood keeps it from being read.
fn binds(alloc: Global, row: &Row) -> Result<bool, AllocError> {
    if is_word(row.get(1), b"trigger") {
        return Ok(true);
    }
    if !is_word(row.get(1), b"index") {
        return Ok(false);
    }
    load::is_unread(alloc, row.get(4))
}

// Whether something keeps a table from being read: a trigger of it, or an index that is not understood.
fn is_bound(alloc: Global, rows: &[Row], table: &Row) -> Result<bool, AllocError> {
    for other in rows {
        if same_name(bytes_of(table.get(2)), bytes_of(other.get(3))) && binds(alloc, other)? {
            return Ok(true);
        }
    }
    Ok(false)
}

// Whether an entry is a table that is read.
fn is_own_table(alloc: Global, rows: &[Row], row: &Row) -> Result<bool, AllocError> {
    if is_bound(alloc, rows, row)? {
        return Ok(false);
    }
    let table = load::read_table(alloc, row)?;
    let is_read = table.is_some();
    // The table is given to `drop`, so that how its parts are dropped is proved once.
    drop(table);
    Ok(is_read)
}

// Whether the table of an entry, as of an index, is one that is read.
fn has_own_table(alloc: Global, rows: &[Row], row: &Row) -> Result<bool, AllocError> {
    for other in rows {
        if is_same(other.get(2), row.get(3)) && is_own_table(alloc, rows, other)? {
            return Ok(true);
        }
    }
    Ok(false)
}

// The shape of an entry's tree: what is not read keeps its pages frozen.
fn shape_for(
    alloc: Global,
    rows: &[Row],
    row: &Row,
    has_index_root: bool,
) -> Result<Shape, AllocError> {
    if is_word(row.get(1), b"view") || is_word(row.get(1), b"trigger") {
        return Ok(Shape::Pageless);
    }
    if is_word(row.get(1), b"index") {
        let is_ours = has_own_table(alloc, rows, row)?;
        return Ok(if is_ours {
            Shape::Index(Order::PLAIN)
        } else {
            Shape::FrozenIndex(Order::PLAIN)
        });
    }
    if is_own_table(alloc, rows, row)? {
        return Ok(Shape::Table);
    }
    Ok(if has_index_root {
        Shape::FrozenIndex(Order::PLAIN)
    } else {
        Shape::FrozenTable
    })
}

// The tree that a row lists: its number less one.
fn tree_of(row: &Row) -> Option<u32> {
    match row.get(0) {
        ValueRef::Int(id) if 1 <= id && id <= 65536 => Some((id - 1) as u32),
        _ => None,
    }
}

// The shape and the REAL columns of a tree.
fn layout(schema: &Schema, tree: u32, shape: Shape) -> Option<(Shape, u64)> {
    if schema.views.as_slice().iter().any(|view| view.tree == tree) {
        return Some((shape, 0));
    }
    let tables = schema.tables.as_slice();
    if let Some(table) = tables.iter().find(|table| table.tree == tree) {
        return Some((Shape::Table, load::reals_of_table(table)?));
    }
    let index = schema
        .indexes
        .as_slice()
        .iter()
        .find(|index| index.tree == tree)?;
    Some((
        Shape::Index(index.order),
        load::reals_of_index(tables, index)?,
    ))
}

// The shape and the REAL columns of each row's tree. A row without a tree is a fault.
fn layouts(
    alloc: Global,
    schema: &Schema,
    rows: &[Row],
    shapes: &[Shape],
) -> Result<Vec<(Shape, u64)>, ReadFault>
    requires { length shapes.now ≡ length rows.now }
    ensures { IfOk result (λ all. length all.items ≡ length rows.now) }
{
    let mut all = Vec::new(alloc);
    'rows: for at in 0..rows.len() {
        let Some(tree) = tree_of(&rows[at]) else {
            return Err(ReadFault::Failed(Reason::OtherKind));
        };
        let Some(found) = layout(schema, tree, shapes[at]) else {
            return Err(ReadFault::Failed(Reason::OtherKind));
        };
        all.push(found)?;
    }
    Ok(all)
}

// The shape of each entry's tree.
fn shapes_for(alloc: Global, rows: &[Row], roots: &[bool]) -> Result<Vec<Shape>, AllocError>
    requires { length roots.now ≡ length rows.now }
    ensures { IfOk result (λ all. length all.items ≡ length rows.now) }
{
    let mut all = Vec::new(alloc);
    'rows: for at in 0..rows.len() {
        all.push(shape_for(alloc, rows, &rows[at], roots[at])?)?;
    }
    Ok(all)
}

// The entries with the code of each one's shape.
fn with_codes(alloc: Global, rows: &[Row], shapes: &[Shape]) -> Result<Vec<Row>, AllocError>
    requires { length shapes.now ≡ length rows.now }
{
    let mut all = Vec::new(alloc);
    for at in 0..rows.len() {
        all.push(load::with_code(alloc, &rows[at], shapes[at])?)?;
    }
    Ok(all)
}

/// The schema that the entries describe, and the shape of each entry's tree.
pub fn lay_out(
    alloc: Global,
    rows: &[Row],
    roots: &[bool],
) -> Result<(Schema, Vec<(Shape, u64)>), ReadFault>
    requires { length roots.now ≡ length rows.now }
    ensures { IfOk result (λ found. length found.1.items ≡ length rows.now) }
{
    let shapes = shapes_for(alloc, rows, roots)?;
    let coded = with_codes(alloc, rows, shapes.as_slice())?;
    let Some(schema) = load::read(alloc, coded.as_slice())? else {
        return Err(ReadFault::Failed(Reason::OtherKind));
    };
    let kinds = layouts(alloc, &schema, rows, shapes.as_slice())?;
    Ok((schema, kinds))
}
