// Labels as they are written.
ghost use Rattle.std.specs.Prelude.{◌≡◌, ◌++◌, OnOk, IfOk};
ghost use Rattle.std.specs.List.{list_all};
ghost use Rattle.mix_tree.specs.Spelling.{is_bare, is_bare_label, escaped, quoted, spelling};
ghost use Rattle.mix_tree.specs.LabelGrammar.{SpellsLabel};

use crate::Label;
use crate::bare_table::is_bare_byte;
use std::alloc::{AllocError, Global};

// Whether all bytes of a text belong to bare characters.
fn are_bare(text: &[u8]) -> bool
    ensures { result ≡ list_all is_bare text.now }
{
    text.iter().all(|byte| is_bare_byte(*byte))
}

// Whether a text is a bare label.
fn is_bare_text(text: &[u8]) -> bool
    ensures { result ≡ is_bare_label text.now }
{
    !text.is_empty() && are_bare(text)
}

// Writes a byte as it stands between quotes.
fn push_escaped(out: &mut Vec<u8>, byte: u8) -> Result<(), AllocError>
    ensures { OnOk result (out.new.items ≡ out.old.items ++ escaped byte) }
{
    match byte {
        b'"' => out.extend_from_slice(b"\\\"")?,
        b'\\' => out.extend_from_slice(b"\\\\")?,
        b'\n' => out.extend_from_slice(b"\\n")?,
        b'\t' => out.extend_from_slice(b"\\t")?,
        _ => out.push(byte)?,
    }
    Ok(())
}

/// Writes a label between quotes after what `out` holds. An error leaves a prefix of it there.
pub fn push_quoted(out: &mut Vec<u8>, label: &Label) -> Result<(), AllocError>
    ensures { OnOk result (out.new.items ≡ out.old.items ++ quoted label.now) }
{
    out.push(b'"')?;
    for byte in label.bytes() {
        push_escaped(out, *byte)?;
    }
    out.push(b'"')?;
    Ok(())
}

/// Writes a label's canonical spelling after what `out` holds. An error leaves a prefix of it there.
pub fn push_label(out: &mut Vec<u8>, label: &Label) -> Result<(), AllocError>
    ensures { OnOk result (out.new.items ≡ out.old.items ++ spelling label.now) }
{
    if is_bare_text(label.bytes()) {
        out.extend_from_slice(label.bytes())?;
        return Ok(());
    }
    push_quoted(out, label)
}

/// The canonical spelling of a label: bare where it is a bare label, else between quotes with the four escapes
/// (docs/FORMATS.md, "Labels").
pub fn write_label(alloc: Global, label: &Label) -> Result<Vec<u8>, AllocError>
    ensures canonical { IfOk result (λ text. text.items ≡ spelling label.now) }
    ensures spells { IfOk result (λ text. SpellsLabel text.items label.now) }
{
    let mut text = Vec::new(alloc);
    push_label(&mut text, label)?;
    Ok(text)
}
