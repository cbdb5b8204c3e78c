// Copies of paths.
ghost use Rattle.std.specs.Prelude.{◌≡◌, IfOk};

use crate::path::{Node, Path};
use std::alloc::{AllocError, Global};

/// A copy of a path.
#[cycle(copy)]
pub fn copy_path(alloc: Global, path: &Path) -> Result<Path, AllocError>
    ensures { IfOk result (λ copy. copy ≡ path.now) }
{
    let node = match path.node() {
        Node::Name(label) => Node::Name(label.copy(alloc)?),
        Node::Any => Node::Any,
        Node::Seq(members) => Node::Seq(copy_members(alloc, members)?),
        Node::Alt(members) => Node::Alt(copy_members(alloc, members)?),
        Node::Star(member) => Node::Star(copy_member(alloc, member)?),
        Node::Plus(member) => Node::Plus(copy_member(alloc, member)?),
        Node::Opt(member) => Node::Opt(copy_member(alloc, member)?),
    };
    Ok(Path::new(node))
}

// A box with a copy of a path.
#[cycle(copy)]
fn copy_member(alloc: Global, member: &Path) -> Result<Box<Path>, AllocError>
    ensures { IfOk result (λ copy. copy.value ≡ member.now) }
{
    Ok(Box::new(alloc, copy_path(alloc, member)?)?)
}

// Copies of paths.
#[cycle(copy)]
fn copy_members(alloc: Global, members: &[Path]) -> Result<Vec<Path>, AllocError>
    ensures { IfOk result (λ copies. copies.items ≡ members.now) }
{
    let mut copies = Vec::new(alloc);
    for member in members {
        copies.push(copy_path(alloc, member)?)?;
    }
    Ok(copies)
}
