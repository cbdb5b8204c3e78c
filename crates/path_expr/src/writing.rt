// Writing a path's canonical text.
ghost use Rattle.std.specs.Prelude.{◌≡◌, ◌∷◌, ◌++◌, [], ℕ, List, IfOk, OnOk, IsUtf8};
ghost use Rattle.std.specs.List.{list_all};
ghost use Rattle.mix_tree.specs.Names.{is_name_byte};
ghost use Rattle.path_expr.specs.Form.{paths_of};
ghost use Rattle.path_expr.specs.Results.{Spells, SpellsWithin};
ghost use Rattle.path_expr.specs.Canonical as canonical;
ghost use Rattle.path_expr.specs.Canonical.{canon, canon_label, canon_member, canon_between, wraps_in_mark, members_of, IsFormed};
ghost use Rattle.path_expr.specs.Writer.{wraps_in, member_of};

use crate::path::{Node, Path};
use crate::scan::is_name;
use mix_tree::{Label, push_quoted};
use std::alloc::{AllocError, Global};

// What a member stands in.
#[derive(Clone, Copy)]
enum Around {
    Sequence,
    Choice,
    Mark,
}

// Whether a member stands in parentheses in what it stands in.
fn is_wrapped(path: &Path, around: Around) -> bool
    ensures { result ≡ wraps_in around path.now.head }
{
    match path.node() {
        Node::Name(_) | Node::Any => false,
        Node::Alt(_) => true,
        Node::Seq(_) => !matches!(around, Around::Choice),
        Node::Star(_) | Node::Plus(_) | Node::Opt(_) => matches!(around, Around::Mark),
    }
}

// Whether names may have all bytes of a text.
fn are_name_bytes(text: &[u8]) -> bool
    ensures { result ≡ list_all is_name_byte text.now }
{
    text.iter().all(|byte| is_name(*byte))
}

// Whether a text is a name other than `_`.
fn is_plain_name(text: &[u8]) -> bool
    ensures { result ≡ canonical.is_plain_name text.now }
{
    !text.is_empty() && text != b"_".as_slice() && are_name_bytes(text)
}

// Writes a label as it stands in a path.
fn push_bare_or_quoted(out: &mut Vec<u8>, label: &Label) -> Result<(), AllocError>
    ensures { OnOk result (out.new.items ≡ out.old.items ++ canon_label label.now) }
{
    if is_plain_name(label.bytes()) {
        out.extend_from_slice(label.bytes())?;
        return Ok(());
    }
    push_quoted(out, label)
}

/// Writes a path's canonical text after what `out` holds. An error leaves a prefix of it there.
#[cycle(write)]
pub fn push_path(out: &mut Vec<u8>, path: &Path) -> Result<(), AllocError>
    ensures { OnOk result (out.new.items ≡ out.old.items ++ canon path.now) }
{
    match path.node() {
        Node::Name(label) => push_bare_or_quoted(out, label),
        Node::Any => Ok(out.push(b'_')?),
        Node::Seq(members) => push_members(out, members, Around::Sequence, b'.'),
        Node::Alt(members) => push_members(out, members, Around::Choice, b'|'),
        Node::Star(member) => push_marked(out, member, b'*'),
        Node::Plus(member) => push_marked(out, member, b'+'),
        Node::Opt(member) => push_marked(out, member, b'?'),
    }
}

// Writes a member, in parentheses where it needs them.
#[cycle(write)]
fn push_member(out: &mut Vec<u8>, path: &Path, around: Around) -> Result<(), AllocError>
    ensures { OnOk result (out.new.items ≡ out.old.items ++ canon_member (wraps_in around) (member_of path.now)) }
{
    if !is_wrapped(path, around) {
        return push_path(out, path);
    }
    out.push(b'(')?;
    push_path(out, path)?;
    out.push(b')')?;
    Ok(())
}

// Writes a member with a mark after it.
#[cycle(write)]
fn push_marked(out: &mut Vec<u8>, path: &Path, mark: u8) -> Result<(), AllocError>
    ensures { OnOk result (out.new.items ≡ out.old.items ++ (canon_member wraps_in_mark (member_of path.now) ++ mark ∷ [])) }
{
    push_member(out, path, Around::Mark)?;
    out.push(mark)?;
    Ok(())
}

// Writes members with a separator between them.
#[cycle(write)]
fn push_members(
    out: &mut Vec<u8>,
    members: &[Path],
    around: Around,
    separator: u8,
) -> Result<(), AllocError>
    ensures { OnOk result (out.new.items ≡ out.old.items ++ canon_between (wraps_in around) separator (members_of (paths_of members.now))) }
{
    let Some((first, rest)) = members.split_first() else {
        return Ok(());
    };
    push_member(out, first, around)?;
    for member in rest {
        out.push(separator)?;
        push_member(out, member, around)?;
    }
    Ok(())
}

/// The canonical text of a path: parentheses only round a sequence or choice in a sequence, a choice in a choice, and all but
/// a label and `_` under a mark; a label is bare where it is a name other than `_`, else between quotes.
pub fn write_path(alloc: Global, path: &Path) -> Result<Vec<u8>, AllocError>
    ensures canonical { IfOk result (λ text. text.items ≡ canon path.now) }

    // The text spells the path, where no sequence or choice of it has fewer than two members.
    ensures spells { IsFormed path.now → IfOk result (λ text. Spells text.items path.now) }

    // A path that was read from some text is read from its canonical text again.
    ensures again { (x : List ℕ) → IsUtf8 x → SpellsWithin x path.now → IfOk result (λ text. IsUtf8 text.items × SpellsWithin text.items path.now) }
{
    let mut text = Vec::new(alloc);
    push_path(&mut text, path)?;
    Ok(text)
}
