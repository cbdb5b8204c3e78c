// A list of the answer.
ghost use Rattle.std.specs.Prelude.{◌≡◌, IfOk};
ghost use Rattle.list_costs.specs.Lists.{deeper};

use std::alloc::{AllocError, Global};

/// A list of the answer, that of an element.
#[derive(Clone, Copy)]
pub struct AnswerList {
    /// How many lists of elements stand around it.
    pub depth: usize,
    /// The number of the operator that makes the element.
    pub op: usize,
}

/// The same lists inside one element more. `Err`: memory.
pub fn deeper(alloc: Global, lists: &[AnswerList]) -> Result<Vec<AnswerList>, AllocError>
    ensures { IfOk result (λ inner. inner.items ≡ deeper lists.now) }
{
    let mut inner = Vec::new(alloc);
    for list in lists {
        let Some(depth) = list.depth.checked_add(1) else {
            return Err(AllocError);
        };
        inner.push(AnswerList { depth, op: list.op })?;
    }
    Ok(inner)
}
