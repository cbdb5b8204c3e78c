// Writing a tree's canonical text.
ghost use Rattle.std.specs.Prelude.{◌≡◌, ◌<◌, ◌++◌, length, IfOk, OnOk};
ghost use Rattle.mix_tree.specs.Forest.{forest_of};
ghost use Rattle.bracket_text.specs.Canonical.{canon, canon_trees};
ghost use Rattle.bracket_text.specs.Grammar.{Spells};

use mix_tree::{Tree, push_label};
use std::alloc::{AllocError, Global};

/// Writes a tree's canonical text after what `out` holds. An error leaves a prefix of it there.
#[cycle(write)]
pub fn push_tree(out: &mut Vec<u8>, tree: &Tree) -> Result<(), AllocError>
    ensures { OnOk result (out.new.items ≡ out.old.items ++ canon tree.now) }
{
    push_label(out, &tree.label)?;
    if tree.kids.is_empty() {
        return Ok(());
    }
    out.push(b'[')?;
    push_trees(out, &tree.kids)?;
    out.push(b']')?;
    Ok(())
}

// Writes trees with commas between them.
#[cycle(write)]
fn push_trees(out: &mut Vec<u8>, trees: &[Tree]) -> Result<(), AllocError>
    requires { 0 < length trees.now }
    ensures { OnOk result (out.new.items ≡ out.old.items ++ canon_trees (forest_of trees.now)) }
{
    push_tree(out, &trees[0])?;
    for i in 1..trees.len() {
        out.push(b',')?;
        push_tree(out, &trees[i])?;
    }
    Ok(())
}

/// The canonical text of a tree: labels in their canonical spelling, no blanks, and no brackets after a leaf.
pub fn write_tree(alloc: Global, tree: &Tree) -> Result<Vec<u8>, AllocError>
    ensures canonical { IfOk result (λ text. text.items ≡ canon tree.now) }
    ensures spells { IfOk result (λ text. Spells text.items tree.now) }
{
    let mut text = Vec::new(alloc);
    push_tree(&mut text, tree)?;
    Ok(text)
}
