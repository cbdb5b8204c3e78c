// The lists of a document of rows, made node by node.
ghost use Rattle.std.specs.Prelude.{◌≡◌, ◌∷◌, [], IfOk, OnOk};
ghost use Rattle.lxp_core.specs.Open.{Open, node};
ghost use Rattle.lxp_core.specs.Plain.{plain, put_all};
ghost use Rattle.row_document.specs.Rows.{name_given, rest_given};

use lxp_core::{HoleId, OpenTree};
use mix_tree::Label;
use std::alloc::{AllocError, Global};

/// Puts a node at the end of a list of trees, above a list of its own. `AllocError`: memory ran out, and the list is of no use.
pub fn push_node(
    list: &mut Vec<OpenTree>,
    label: Label,
    kids: Vec<OpenTree>,
) -> Result<(), AllocError>
    ensures { OnOk result ((rest : Open) → put_all list.new.items rest
        ≡ put_all list.old.items (node label (plain kids.items) rest)) }
{
    list.push(OpenTree::Node { label, kids })?;
    Ok(())
}

/// Puts a row at the end of a list of trees, above its cells (docs/FORMATS.md, "CSV files"). `AllocError`: memory ran out, and the list
/// is of no use.
pub fn push_row(
    alloc: Global,
    list: &mut Vec<OpenTree>,
    cells: Vec<OpenTree>,
) -> Result<(), AllocError>
    ensures { OnOk result ((rest : Open) → put_all list.new.items rest
        ≡ put_all list.old.items (node (114 ∷ 111 ∷ 119 ∷ []) (plain cells.items) rest)) }
{
    let label = Label::of_text(alloc, b"row")?;
    push_node(list, label, cells)
}

/// Puts the hole for the rows that are left at the end of a list, where more are to come. `AllocError`: memory ran out, and the list is
/// of no use.
pub fn push_rest(list: &mut Vec<OpenTree>, more: bool, rest: HoleId) -> Result<(), AllocError>
    ensures { OnOk result (plain list.new.items ≡ put_all list.old.items (rest_given more rest)) }
{
    if more {
        list.push(OpenTree::Hole(rest))?;
    }
    Ok(())
}

/// The list of a whole document of rows: its name, above a hole for all rows. `AllocError`: memory ran out.
pub fn name_list(alloc: Global, name: &Label, all: HoleId) -> Result<Vec<OpenTree>, AllocError>
    ensures { IfOk result (λ list. plain list.items ≡ name_given name.now all) }
{
    let mut kids = Vec::new(alloc);
    kids.push(OpenTree::Hole(all))?;
    let mut list = Vec::new(alloc);
    push_node(&mut list, name.copy(alloc)?, kids)?;
    Ok(list)
}
