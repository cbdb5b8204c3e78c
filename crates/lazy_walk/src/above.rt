// What is above a node.
ghost use Rattle.std.specs.Prelude.{◌≡◌, ◌∷◌, IfOk};
ghost use Rattle.lazy_walk.specs.Above.{rests, rests_above, rests_below, top_above, top_below, top_in, top_of};

use crate::ids::{Above, WalkedNode};
use lazy_site::{Head, Rest, Site, share};
use std::alloc::{AllocError, Global};
use std::rc::Rc;
use tree_buffer::Spot;

/// The spot of a source's node with all below it.
fn top(head: &Head) -> Option<Spot>
    ensures { result ≡ top_of head.now }
{
    match head {
        Head::Whole(_, p) => Some(*p),
        _ => None,
    }
}

/// What is above a node once more: it is above the node's siblings too.
pub(crate) fn above_sibling(n: &WalkedNode) -> Result<Option<Rc<Above>>, AllocError>
    ensures rests { IfOk result (λ a. rests_above a ≡ rests_above n.now.above) }
    ensures top { IfOk result (λ a. top_above a ≡ top_above n.now.above) }
{
    match &n.above {
        None => Ok(None),
        Some(above) => Ok(Some(above.clone()?)),
    }
}

/// What is above the children of a member of a list, with this above the member.
fn entry(head: &Head, rest: &Rc<Rest>, above: &Option<Rc<Above>>) -> Result<Above, AllocError>
    ensures rests { IfOk result (λ a. rests a ≡ rest.now.value ∷ rests_above above.now) }
    ensures top { IfOk result (λ a. top_in a ≡ top_of head.now) }
{
    let rest = share(rest)?;
    let top = top(head);
    match above {
        None => Ok(Above::Outer { rest, top }),
        Some(up) => {
            let up = up.clone()?;
            Ok(Above::Inner { rest, top, up })
        }
    }
}

/// What is above the children of a node.
pub(crate) fn above_child(alloc: Global, n: &WalkedNode) -> Result<Option<Rc<Above>>, AllocError>
    ensures rests { IfOk result (λ a. rests_above a ≡ rests_below n.now) }
    ensures top { IfOk result (λ a. top_above a ≡ top_below n.now) }
{
    match &n.site {
        Site::Root => Ok(None),
        Site::Inside(_, _) => above_sibling(n),
        Site::Item { head, rest } => {
            let entry = entry(head, rest, &n.above)?;
            Ok(Some(Rc::new(alloc, entry)?))
        }
    }
}
