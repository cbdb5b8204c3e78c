// The nodes of a row's cells.
ghost use Rattle.std.specs.Prelude.{◌≡◌, ◌∷◌, IfOk, OnOk};
ghost use Rattle.std.specs.Fmt.{signed_decimal};
ghost use Rattle.hex.specs.Hex.{encode_lower};
ghost use Rattle.lxp_core.specs.Open.{Open, node, without_holes};
ghost use Rattle.lxp_core.specs.Plain.{plain, put_all};
ghost use Rattle.table_keep.specs.Rows.{value_of};
ghost use Rattle.table_wrap.specs.Rows.{label_of, leaf};
ghost use Rattle.table_wrap.specs.Wire.{IsInRange};

use lxp_core::OpenTree;
use mix_catalog::Column;
use mix_tree::Label;
use row_document::push_node;
use std::alloc::{AllocError, Global};
use table_keep::Cell;

// The label of a number: its decimal digits.
fn decimal_label(alloc: Global, number: i64) -> Result<Label, AllocError>
    ensures { IfOk result (λ label. label ≡ signed_decimal number) }
{
    let digits = number.to_string(alloc)?;
    Label::of_text(alloc, digits.as_str().as_bytes())
}

// The label of bytes: two hexadecimal digits for each.
fn hex_label(alloc: Global, bytes: Vec<u8>) -> Result<Label, AllocError>
    ensures { IfOk result (λ label. label ≡ encode_lower bytes.items) }
{
    let digits = hex::encode(alloc, bytes)?;
    Label::of_text(alloc, digits.as_str().as_bytes())
}

// The label of a cell, where it has one.
fn label_of(alloc: Global, cell: Cell) -> Result<Option<Label>, AllocError>
    ensures label { IfOk result (λ label. label ≡ label_of (value_of cell)) }
    // A number is one of 64 bits.
    ensures range { IfOk result (λ _. IsInRange (value_of cell)) }
{
    match cell {
        Cell::Null => Ok(None),
        Cell::Int(number) => Ok(Some(decimal_label(alloc, number)?)),
        Cell::Text(text) => Ok(Some(text)),
        Cell::Bytes(bytes) => Ok(Some(hex_label(alloc, bytes)?)),
    }
}

// The list of a leaf with the label of a cell, where it has one.
fn leaf(alloc: Global, cell: Cell) -> Result<Vec<OpenTree>, AllocError>
    ensures list { IfOk result (λ list. plain list.items ≡ without_holes (leaf (label_of (value_of cell)))) }
    ensures range { IfOk result (λ _. IsInRange (value_of cell)) }
{
    match label_of(alloc, cell)? {
        Some(label) => Ok(vec![in alloc;
            OpenTree::Node {
                label,
                kids: Vec::new(alloc)
            },
        ]?),
        None => Ok(Vec::new(alloc)),
    }
}

/// Puts a column of a row at the end of a list of trees, with the label of its cell below it.
pub fn push_cell(
    alloc: Global,
    list: &mut Vec<OpenTree>,
    column: &Column,
    cell: Cell,
) -> Result<(), AllocError>
    ensures put { OnOk result ((rest : Open) → put_all list.new.items rest
        ≡ put_all list.old.items (node column.now.name (without_holes (leaf (label_of (value_of cell)))) rest)) }
    // A number is one of 64 bits.
    ensures range { OnOk result (IsInRange (value_of cell)) }
{
    let below = leaf(alloc, cell)?;
    push_node(list, column.name.copy(alloc)?, below)
}

/// A copy of columns.
pub fn copy_columns(alloc: Global, columns: &[Column]) -> Result<Vec<Column>, AllocError>
    ensures { IfOk result (λ copies. copies.items ≡ columns.now) }
{
    let mut copies = Vec::new(alloc);
    'columns: for column in columns {
        let never_null = column.never_null;
        let name = column.name.copy(alloc)?;
        copies.push(Column { name, never_null })?;
    }
    Ok(copies)
}
