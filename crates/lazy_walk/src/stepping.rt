// Steps from a node to a child or a sibling at an index.
use crate::ids::WalkedNode;
use crate::walk::Walk;
use lazy_plan::WalkFault;
use lxp_core::Sources;
use plan_core::tolled_is_document;
use std::alloc::Global;

impl Walk {
    ghost use Rattle.lazy_walk.specs.Finding.{ChildAt, SiblingAt, Steps};
    ghost use Rattle.lazy_walk.specs.Walks.{state_of, IsWalkOf};
    ghost use Rattle.lazy_walk.specs.Places.{IsNode};

    /// The sibling that is so many places to the right of a node; `None` where there is none.
    fn sibling_at<S: Sources>(
        &mut self,
        alloc: Global,
        s: &mut S,
        first: WalkedNode,
        more: u64,
    ) -> Result<Option<WalkedNode>, WalkFault>
        requires walk { IsWalkOf (S.view s.old) self.old }
        requires node { IsNode (state_of (S.view s.old) self.old) first }
        ensures { Steps S.view S.came_from s.old self.old s.new self.new (SiblingAt first more) result }
    {
        tolled_is_document();
        let mut node = first;
        for _step in 0..more {
            match self.right(alloc, s, &node)? {
                None => return Ok(None),
                Some(next) => node = next,
            }
        }
        Ok(Some(node))
    }

    /// The child of a node at an index; `None` where there is none.
    pub(crate) fn child_at<S: Sources>(
        &mut self,
        alloc: Global,
        s: &mut S,
        n: &WalkedNode,
        index: u64,
    ) -> Result<Option<WalkedNode>, WalkFault>
        requires walk { IsWalkOf (S.view s.old) self.old }
        requires node { IsNode (state_of (S.view s.old) self.old) n.now }
        ensures { Steps S.view S.came_from s.old self.old s.new self.new (ChildAt n.now index) result }
    {
        tolled_is_document();
        match self.down(alloc, s, n)? {
            None => Ok(None),
            Some(first) => self.sibling_at(alloc, s, first, index),
        }
    }
}
