// Walks of the document of a plan.
use crate::above::{above_child, above_sibling};
use crate::ids::WalkedNode;
use crate::naming::{levels_of_node, place_of_node};
use lazy_plan::{Bench, WalkFault};
use lazy_site::{Site, first_child, label_of, next_sibling};
use lxp_core::Sources;
use mix_tree::Label;
use node_text::NodeData;
use plan_core::{Plan, tolled_is_document};
use std::alloc::{AllocError, Global};

/// The document of a plan over sources, walked node by node.
#[derive(Drop)]
pub struct Walk {
    pub(crate) bench: Bench,
}

impl Walk {
    ghost use Rattle.std.specs.Prelude.{◌≡◌, ℕ, IsTrue, List, [], IfOk, Some};
    ghost use Rattle.std.specs.List.{AllByRecursion};
    ghost use Rattle.mix_tree.specs.Place.{child_place, next_place};
    ghost use Rattle.lxp_core.specs.View.{View};
    ghost use Rattle.node_text.specs.Node.{IsFormed};
    ghost use Rattle.plan_core.specs.PlanMade.{plan_value};
    ghost use Rattle.plan_core.specs.Valid.{IsValid, HasSource};
    ghost use Rattle.plan_evidence.specs.Named.{Names};
    ghost use Rattle.lazy_plan.specs.Bench.{documents, ops_of, told, AsksAtMost};
    ghost use Rattle.lazy_steps.specs.Steps.{HasCause};
    ghost use Rattle.lazy_walk.specs.Finding.{root_height};
    ghost use Rattle.lazy_walk.specs.Places.{IsNode, IsAt, GivesNode, down_toll, right_toll};
    ghost use Rattle.lazy_walk.specs.Walks.{state_of, plan_of, node_left, node_height, HasFewer, HasLower, HasNoHigher, LeadsTo, IsLabelOf, IsWalkOf, HasWalked};

    /// The document of a plan, of which nothing was asked yet. No fill is asked.
    pub fn open<S: Sources>(alloc: Global, p: Plan, s: &S) -> Result<Walk, AllocError>
        requires valid { IsValid (plan_value p) }
        requires sources { AllByRecursion (HasSource (S.view s.now).count) (plan_value p).ops }
        ensures plan { IfOk result (λ m. plan_of m ≡ p) }
        ensures walk { IfOk result (IsWalkOf (S.view s.now)) }
    {
        Ok(Walk {
            bench: Bench::open(alloc, p, s)?,
        })
    }

    /// The root of the document. No fill is asked.
    pub fn root(&self) -> WalkedNode
        requires walk { (view : View) × IsWalkOf view self.now }
        ensures place { (view : View) → IsWalkOf view self.now → IsAt (state_of view self.now) result [] }
        ensures height { (view : View) → node_height (state_of view self.now) result ≡ root_height (state_of view self.now) }
    {
        WalkedNode {
            site: Site::Root,
            above: None,
        }
    }

    /// The first child of a node; `None` where it has none. `Failed`: this source failed. Every earlier identifier stays, whatever is answered.
    pub fn down<S: Sources>(
        &mut self,
        alloc: Global,
        s: &mut S,
        n: &WalkedNode,
    ) -> Result<Option<WalkedNode>, WalkFault>
        requires walk { IsWalkOf (S.view s.old) self.old }
        requires node { IsNode (state_of (S.view s.old) self.old) n.now }
        ensures walked { HasWalked S.view S.came_from s.old self.old s.new self.new }
        ensures lazy { let old = state_of (S.view s.old) self.old in let new = state_of (S.view s.new) self.new in
            (p : List ℕ) → IsAt old n.now p → AsksAtMost old new (down_toll (documents old) (ops_of old) p) }
        ensures cause { HasCause (ops_of (state_of (S.view s.old) self.old)) (S.view s.old) (S.view s.new) result }
        ensures node { IfOk result (GivesNode (state_of (S.view s.new) self.new)) }
        ensures place { let old = state_of (S.view s.old) self.old in let new = state_of (S.view s.new) self.new in
            (p : List ℕ) → LeadsTo old new n.now p (Some (child_place p)) result }
        ensures height { let old = state_of (S.view s.old) self.old in let new = state_of (S.view s.new) self.new in
            IfOk result (HasLower (node_height old n.now) new) }
    {
        tolled_is_document();
        match first_child(alloc, &mut self.bench, s, &n.site)? {
            None => Ok(None),
            Some(site) => {
                let above = above_child(alloc, n)?;
                Ok(Some(WalkedNode { site, above }))
            }
        }
    }

    /// The next sibling of a node; `None` where it has none. `Failed`: this source failed. Every earlier identifier stays, whatever is answered.
    pub fn right<S: Sources>(
        &mut self,
        alloc: Global,
        s: &mut S,
        n: &WalkedNode,
    ) -> Result<Option<WalkedNode>, WalkFault>
        requires walk { IsWalkOf (S.view s.old) self.old }
        requires node { IsNode (state_of (S.view s.old) self.old) n.now }
        ensures walked { HasWalked S.view S.came_from s.old self.old s.new self.new }
        ensures lazy { let old = state_of (S.view s.old) self.old in let new = state_of (S.view s.new) self.new in
            (p : List ℕ) → IsAt old n.now p → AsksAtMost old new (right_toll (documents old) (ops_of old) p) }
        ensures cause { HasCause (ops_of (state_of (S.view s.old) self.old)) (S.view s.old) (S.view s.new) result }
        ensures node { IfOk result (GivesNode (state_of (S.view s.new) self.new)) }
        ensures place { let old = state_of (S.view s.old) self.old in let new = state_of (S.view s.new) self.new in
            (p : List ℕ) → LeadsTo old new n.now p (next_place p) result }
        ensures left { let old = state_of (S.view s.old) self.old in let new = state_of (S.view s.new) self.new in
            IfOk result (HasFewer (node_left old n.now) new) }
        ensures height { let old = state_of (S.view s.old) self.old in let new = state_of (S.view s.new) self.new in
            IfOk result (HasNoHigher (node_height old n.now) new) }
    {
        tolled_is_document();
        match next_sibling(alloc, &mut self.bench, s, &n.site)? {
            None => Ok(None),
            Some(site) => {
                let above = above_sibling(n)?;
                Ok(Some(WalkedNode { site, above }))
            }
        }
    }

    /// The label of a node. It was asked for with the node: no fill is asked and no memory taken.
    pub fn fetch(&self, n: &WalkedNode) -> &Label
        requires node { (view : View) × IsWalkOf view self.now × IsNode (state_of view self.now) n.now }
        ensures { (view : View) → IsWalkOf view self.now → (p : List ℕ) → IsLabelOf (state_of view self.now) n.now p result.now }
    {
        tolled_is_document();
        label_of(&self.bench, &n.site)
    }

    /// What the text of a node's identifier says: the levels that lead to the node, and where it lies inside a source, the place below the top of its
    /// subtree there. `write_node` (node_text) writes it, whatever the sources tell. No fill is asked. `Err`: memory.
    pub fn node_data(&self, alloc: Global, n: &WalkedNode) -> Result<NodeData, AllocError>
        requires node { (view : View) × IsWalkOf view self.now × IsNode (state_of view self.now) n.now }
        ensures names { (view : View) → IsWalkOf view self.now → let st = state_of view self.now in
            (p : List ℕ) → IsAt st n.now p → IsTrue (told st) → IfOk result (λ d. Names (documents st) (ops_of st) d p) }
        ensures formed { IfOk result IsFormed }
    {
        tolled_is_document();
        let levels = levels_of_node(alloc, &self.bench, n)?;
        let inside = place_of_node(alloc, &self.bench, n)?;
        Ok(NodeData { levels, inside })
    }
}
