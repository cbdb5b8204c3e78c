// The lines that are written.
ghost use Rattle.std.specs.Prelude.{◌≡◌, ◌++◌, [], ◌∷◌, OnOk, codes};
ghost use Rattle.mix_tree.specs.Spelling.{spelling};
ghost use Rattle.catalog_draft.specs.Lines.{column_note, csv_line, file_note, line_end, listed, marked, table_line, table_note, text_of};
ghost use Rattle.catalog_draft.specs.Names.{source_name};

use crate::columns::{push_columns, push_labels};
use crate::reasons::{Unsaid, reason};
use mix_catalog::Column;
use mix_tree::{Label, push_label};
use std::alloc::AllocError;

// What stands at the end of each line that says a source.
const LINE_END: &[u8] = b" chunk 100\n";

/// A file whose source a line says: its path, and the source's name.
#[derive(Clone, Copy)]
pub struct Named<'a> {
    pub path: &'a Label,
    pub name: &'a Label,
}

// Writes what stands before a file: the source's name, and the word of its form.
fn push_front(text: &mut Vec<u8>, file: &Named<'_>, form: &[u8]) -> Result<(), AllocError>
    ensures { OnOk result (text.new.items ≡ text.old.items ++ (codes "source " ++ file.now.name.now ++ form.now ++ spelling file.now.path.now)) }
{
    text.extend_from_slice(b"source ")?;
    text.extend_from_slice(file.name.bytes())?;
    text.extend_from_slice(form)?;
    push_label(text, file.path)
}

/// Writes the line of a CSV file with columns after what `text` holds.
pub fn push_csv(text: &mut Vec<u8>, file: &Named<'_>, columns: &[Label]) -> Result<(), AllocError>
    requires { file.now.name.now ≡ source_name file.now.path.now }
    ensures { OnOk result (text.new.items ≡ text.old.items ++ text_of (csv_line file.now.path.now columns.now ∷ [])) }
{
    push_front(text, file, b" csv ")?;
    text.extend_from_slice(b" columns ")?;
    push_labels(text, columns)?;
    text.extend_from_slice(LINE_END)?;
    Ok(())
}

// Writes the name and the key of a table, and the word before its columns.
fn push_key(text: &mut Vec<u8>, name: &Label, key: &Label) -> Result<(), AllocError>
    ensures { OnOk result (text.new.items ≡ text.old.items ++ (codes " " ++ name.now ++ codes " key " ++ key.now ++ codes " columns ")) }
{
    text.push(b' ')?;
    text.extend_from_slice(name.bytes())?;
    text.extend_from_slice(b" key ")?;
    text.extend_from_slice(key.bytes())?;
    text.extend_from_slice(b" columns ")?;
    Ok(())
}

// Writes what stands after the file of a table.
fn push_after(
    text: &mut Vec<u8>,
    name: &Label,
    key: &Label,
    columns: &[Column],
) -> Result<(), AllocError>
    ensures { OnOk result (text.new.items ≡ text.old.items
        ++ (codes " " ++ name.now ++ codes " key " ++ key.now ++ codes " columns " ++ listed marked columns.now ++ line_end ++ 10 ∷ [])) }
{
    push_key(text, name, key)?;
    push_columns(text, columns)?;
    text.extend_from_slice(LINE_END)?;
    Ok(())
}

/// Writes the line of a table of a file after what `text` holds. The source has the table's name.
pub fn push_table(
    text: &mut Vec<u8>,
    file: &Named<'_>,
    key: &Label,
    columns: &[Column],
) -> Result<(), AllocError>
    ensures { OnOk result (text.new.items ≡ text.old.items ++ text_of (table_line file.now.path.now file.now.name.now key.now columns.now ∷ [])) }
{
    push_front(text, file, b" table ")?;
    push_after(text, file.name, key, columns)
}

/// Writes the line that says why no line says a CSV file.
pub fn push_file_note(text: &mut Vec<u8>, path: &Label, why: Unsaid) -> Result<(), AllocError>
    ensures { OnOk result (text.new.items ≡ text.old.items ++ text_of (file_note path.now why ∷ [])) }
{
    text.extend_from_slice(b"# ")?;
    push_label(text, path)?;
    text.extend_from_slice(b": ")?;
    text.extend_from_slice(reason(why))?;
    text.push(b'\n')?;
    Ok(())
}

// Writes what stands before what is said of a table.
fn push_note_front(text: &mut Vec<u8>, table: &Label) -> Result<(), AllocError>
    ensures { OnOk result (text.new.items ≡ text.old.items ++ (codes "# table " ++ spelling table.now ++ codes ": ")) }
{
    text.extend_from_slice(b"# table ")?;
    push_label(text, table)?;
    text.extend_from_slice(b": ")?;
    Ok(())
}

/// Writes the line that says why no line says a table.
pub fn push_table_note(text: &mut Vec<u8>, name: &Label, why: Unsaid) -> Result<(), AllocError>
    ensures { OnOk result (text.new.items ≡ text.old.items ++ text_of (table_note name.now why ∷ [])) }
{
    push_note_front(text, name)?;
    text.extend_from_slice(reason(why))?;
    text.push(b'\n')?;
    Ok(())
}

// Writes what is said of a column that is left out.
fn push_left_out(text: &mut Vec<u8>, column: &Label) -> Result<(), AllocError>
    ensures { OnOk result (text.new.items ≡ text.old.items
        ++ (spelling column.now ++ codes " is no column's name that a catalog can say" ++ 10 ∷ [])) }
{
    push_label(text, column)?;
    text.extend_from_slice(b" is no column's name that a catalog can say\n")?;
    Ok(())
}

/// Writes the line that says that a column of a table is left out.
pub fn push_column_note(text: &mut Vec<u8>, table: &Label, column: &Label) -> Result<(), AllocError>
    ensures { OnOk result (text.new.items ≡ text.old.items ++ text_of (column_note table.now column.now ∷ [])) }
{
    push_note_front(text, table)?;
    push_left_out(text, column)
}
