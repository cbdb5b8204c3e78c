// Columns as they stand in a line.
ghost use Rattle.std.specs.Prelude.{◌≡◌, ◌++◌, ◌∷◌, [], OnOk, IfOk};
ghost use Rattle.std.specs.List.{filter};
ghost use Rattle.mix_tree.specs.Spelling.{spelling};
ghost use Rattle.catalog_draft.specs.Lines.{listed, marked};
ghost use Rattle.catalog_draft.specs.Tables.{can_name};

use mix_catalog::Column;
use mix_tree::{Label, push_label};
use mix_words::words::is_sql_name;
use std::alloc::{AllocError, Global};

/// Writes the columns of a CSV file after what `line` holds.
pub fn push_labels(line: &mut Vec<u8>, columns: &[Label]) -> Result<(), AllocError>
    ensures { OnOk result (line.new.items ≡ line.old.items ++ listed spelling columns.now) }
{
    let [first, others @ ..] = columns else {
        return Ok(());
    };
    push_label(line, first)?;
    for column in others {
        line.push(b',')?;
        push_label(line, column)?;
    }
    Ok(())
}

// Writes a column of a table, with the mark of one that is never NULL.
fn push_marked(line: &mut Vec<u8>, column: &Column) -> Result<(), AllocError>
    ensures { OnOk result (line.new.items ≡ line.old.items ++ marked column.now) }
{
    line.extend_from_slice(column.name.bytes())?;
    if column.never_null {
        line.push(b'!')?;
    }
    Ok(())
}

/// Writes the columns of a table after what `line` holds.
pub fn push_columns(line: &mut Vec<u8>, columns: &[Column]) -> Result<(), AllocError>
    ensures { OnOk result (line.new.items ≡ line.old.items ++ listed marked columns.now) }
{
    let [first, others @ ..] = columns else {
        return Ok(());
    };
    push_marked(line, first)?;
    for column in others {
        line.push(b',')?;
        push_marked(line, column)?;
    }
    Ok(())
}

/// Whether a catalog can name a column of a table.
pub fn can_name(column: &Column) -> bool
    ensures { result ≡ can_name column.now }
{
    is_sql_name(column.name.bytes())
}

// Adds a copy of a column where a catalog can name it.
fn push_if_named(alloc: Global, column: &Column, kept: &mut Vec<Column>) -> Result<(), AllocError>
    ensures { OnOk result (kept.new.items ≡ kept.old.items ++ filter can_name (column.now ∷ [])) }
{
    if can_name(column) {
        kept.push(Column {
            name: column.name.copy(alloc)?,
            never_null: column.never_null,
        })?;
    }
    Ok(())
}

/// Copies of those columns that a catalog can name.
pub fn named_columns(alloc: Global, columns: &[Column]) -> Result<Vec<Column>, AllocError>
    ensures { IfOk result (λ kept. kept.items ≡ filter can_name columns.now) }
{
    let mut kept = Vec::new(alloc);
    for column in columns {
        push_if_named(alloc, column, &mut kept)?;
    }
    Ok(kept)
}
