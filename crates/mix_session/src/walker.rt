// What can be walked node by node.
ghost use Rattle.std.specs.Prelude.{◌≤◌, ◌+◌, ℕ, List, IfOk};
ghost use Rattle.lxp_core.specs.View.{View};
ghost use Rattle.mix_session.specs.Meaning.{Meaning, Stays};
ghost use Rattle.mix_session.specs.Refusals.{of_walk};
ghost use Rattle.mix_session.specs.Seeking.{IsFollowed, IsNext, IsRoot, IsSaid, ReadsLabel};

use lxp_core::{Sources, WalkFault};
use mix_script::Way;
use mix_tree::Label;
use node_text::NodeData;
use std::alloc::{AllocError, Global};

/// What a search comes to: a node was found, there is none, or the source of a number failed.
#[derive(Drop)]
pub enum Found<N> {
    Node(N),
    None,
    Fault(u32),
}

// What a search comes to, by what a buffer or a mediator found.
pub(crate) fn found_in<N: Drop>(found: Result<Option<N>, WalkFault>) -> Result<Found<N>, AllocError>
    ensures { IfOk result (of_walk found) }
{
    match found {
        Ok(Some(node)) => Ok(Found::Node(node)),
        Ok(None) => Ok(Found::None),
        Err(WalkFault::Failed(source)) => Ok(Found::Fault(source)),
        Err(WalkFault::OutOfMemory) => Err(AllocError),
    }
}

/// A document over sources that is walked node by node.
pub trait Walker {
    /// What stands for a node.
    type Node: Drop;

    /// What is told of a node for the tolls of the ways from it.
    ghost Told: { Type 0 };

    /// What a state of the walker means, over sources with a given meaning.
    ghost means: { View → Self → Meaning Self.Node Told };

    /// `keeps v w v' w'`: what a call has kept which found the state w over sources that mean v and left w' and v'.
    ghost keeps: { View → Self → View → Self → Type 0 };

    /// The root of the document. Every earlier node stays, whatever is answered, and after want of memory.
    fn seek_root<S: Sources>(
        &mut self,
        alloc: Global,
        s: &mut S,
    ) -> Result<Found<Self::Node>, AllocError>
        requires { (means (S.view s.old) self.old).IsReady }
        ensures came { S.came_from s.old s.new }
        ensures kept { keeps (S.view s.old) self.old (S.view s.new) self.new }
        ensures stays { Stays (means (S.view s.old) self.old) (means (S.view s.new) self.new) }
        ensures found { let m = means (S.view s.old) self.old in
            IfOk result (IsRoot m (means (S.view s.new) self.new) (S.view s.old).faults (S.view s.new).faults) }
        ensures toll { let c = (means (S.view s.old) self.old).course in
            c.HasTolls → (S.view s.new).fills ≤ (S.view s.old).fills + c.root_toll };

    /// The node to which a way leads from a node. Every earlier node stays, whatever is answered, and after want of memory.
    /// By the numbers of nodes each walk ends. What is owed for the node is asked with it, and then no more.
    fn seek<S: Sources>(
        &mut self,
        alloc: Global,
        s: &mut S,
        way: Way,
        n: &Self::Node,
    ) -> Result<Found<Self::Node>, AllocError>
        requires ready { (means (S.view s.old) self.old).IsReady }
        requires node { (means (S.view s.old) self.old).IsNode n.now }
        ensures came { S.came_from s.old s.new }
        ensures kept { keeps (S.view s.old) self.old (S.view s.new) self.new }
        ensures stays { Stays (means (S.view s.old) self.old) (means (S.view s.new) self.new) }
        ensures found { let m = means (S.view s.old) self.old in
            IfOk result (IsNext m (means (S.view s.new) self.new) (S.view s.old).faults (S.view s.new).faults way n.now) }
        ensures toll { let m = means (S.view s.old) self.old in (x : Told) → m.IsTold n.now x → m.course.HasTolls
            → (S.view s.new).fills ≤ (S.view s.old).fills + m.course.toll way x }
        ensures cost { let m = means (S.view s.old) self.old in m.course.HasTolls → (p : List ℕ) → m.IsAt n.now p
            → (S.view s.new).fills ≤ (S.view s.old).fills + (m.owes n.now p + m.course.toll way (m.course.at p)) };

    /// The label of a node.
    fn read_label(&self, n: &Self::Node) -> &Label
        requires { (v : View) × (means v self.now).IsReady × (means v self.now).IsNode n.now }
        ensures { (v : View) → (means v self.now).IsReady → ReadsLabel (means v self.now) n.now result.now };

    /// What the text of a node's identifier says, where such texts can be told. No fill is asked.
    fn tell(&self, alloc: Global, n: &Self::Node) -> Result<NodeData, AllocError>
        requires { (v : View) × (means v self.now).IsReady × (means v self.now).IsNode n.now }
        ensures { (v : View) → (means v self.now).IsReady → (means v self.now).course.Tells → IfOk result (IsSaid (means v self.now) n.now) };

    /// The node that the text of an identifier names, by what it says; none where it names none. What is found may owe the walk
    /// to it. Every earlier node stays, whatever is answered, and after want of memory.
    fn seek_named<S: Sources>(
        &mut self,
        alloc: Global,
        s: &mut S,
        node: &NodeData,
    ) -> Result<Found<Self::Node>, AllocError>
        requires ready { (means (S.view s.old) self.old).IsReady }
        requires follows { (means (S.view s.old) self.old).course.Follows }
        ensures came { S.came_from s.old s.new }
        ensures kept { keeps (S.view s.old) self.old (S.view s.new) self.new }
        ensures stays { Stays (means (S.view s.old) self.old) (means (S.view s.new) self.new) }
        ensures found { let m = means (S.view s.old) self.old in
            IfOk result (IsFollowed m (means (S.view s.new) self.new) (S.view s.old).faults (S.view s.new).faults node.now) }
        ensures reach { let c = (means (S.view s.old) self.old).course in
            c.HasTolls → (S.view s.new).fills ≤ (S.view s.old).fills + c.reach node.now };

    /// What a call keeps to a second state and another one from there to a third is kept from the first to the third.
    ghost twice: { (v : View) (w : Self) (v' : View) (w' : Self) (v'' : View) (w'' : Self)
        → keeps v w v' w' → keeps v' w' v'' w'' → keeps v w v'' w'' };

    /// All that a call keeps is kept from a state to that same state.
    ghost same: { (v : View) (w : Self) → keeps v w v w };
}
