// The lists with which a document answers.
ghost use Rattle.std.specs.Prelude.{◌≡◌, ◌≤◌, ◌+◌, ◌<◌, length, vec_len, vec_capacity, true, false, IfOk, OnOk, MatchOption};
ghost use Rattle.lxp_core.specs.Open.{Open, node, without_holes};
ghost use Rattle.lxp_core.specs.Plain.{plain, put_all};
ghost use Rattle.document_store.specs.Laid.{node_at, below};
ghost use Rattle.document_store.specs.Between.{before, between};
ghost use Rattle.bracket_wrap.specs.Holes.{hole_rest, is_there, is_known, rest_given, kids_given, given_from};

use crate::BracketDoc;
use crate::holes::Rest;
use lxp_core::{HoleId, OpenTree};
use std::alloc::{AllocError, Global};

// A list over at most so many nodes has room for all of them.
const FEW: usize = 4;

// Makes room for one tree more after a list. Mostly there is room, and the test is the whole cost.
#[inline(always)]
fn make_room(list: &mut Vec<OpenTree>) -> Result<(), AllocError>
    ensures items { list.new.items ≡ list.old.items }
    ensures room { OnOk result (vec_len list.new < vec_capacity list.new) }
{
    if list.len() < list.capacity() {
        return Ok(());
    }
    list.reserve(1)
}

impl BracketDoc {
    // Puts a node at the end of a list of trees, above a list of its own.
    #[inline(always)]
    fn push_node(
        &self,
        alloc: Global,
        list: &mut Vec<OpenTree>,
        i: usize,
        kids: Vec<OpenTree>,
    ) -> Result<(), AllocError>
        requires { i < length self.now.nodes }
        ensures { OnOk result ((rest : Open) → put_all list.new.items rest
            ≡ put_all list.old.items (node (node_at self.now.nodes i).label (plain kids.items) rest)) }
    {
        make_room(list)?;
        let label = self.nodes.copy_label(alloc, i)?;
        list.push_reserved(OpenTree::Node { label, kids });
        Ok(())
    }

    // How many of the trees between two positions there are, up to one more than `most`.
    fn count(&self, from: usize, mut to: usize, most: u32) -> usize
        requires { to ≤ length self.now.nodes }
        ensures { result ≤ most + 1 }
    {
        let all = most as usize + 1;
        for count in 0..all {
            let Some(i) = self.nodes.first(from, to) else {
                return count;
            };
            to = self.nodes.before(i);
        }
        all
    }

    // For how many of the trees between two positions a list has room: for as many as there are nodes, where these are few.
    fn room(&self, from: usize, to: usize, most: u32) -> usize
        requires { to ≤ length self.now.nodes }
    {
        let nodes = to.saturating_sub(from);
        if nodes <= FEW {
            return nodes;
        }
        self.count(from, to, most)
    }

    // The trees between two positions, without holes.
    fn subtrees(
        &self,
        alloc: Global,
        from: usize,
        mut to: usize,
    ) -> Result<Vec<OpenTree>, AllocError>
        requires { to ≤ length self.now.nodes }
        ensures { IfOk result (λ list. plain list.items ≡ without_holes (between self.now.nodes from to)) }
    {
        let mut list = Vec::with_capacity(alloc, self.count(from, to, u32::MAX))?;
        while let Some(i) = self.nodes.first(from, to) {
            let kids = self.subtrees(alloc, self.nodes.before(i), i)?;
            self.push_node(alloc, &mut list, i, kids)?;
            to = self.nodes.before(i);
        }
        Ok(list)
    }

    // Puts a hole for some last children of a node at the end of a list, where there are any.
    fn push_rest(&self, list: &mut Vec<OpenTree>, rest: Rest) -> Result<(), AllocError>
        requires { is_there self.now.nodes rest ≡ true }
        ensures { OnOk result (plain list.new.items ≡ put_all list.old.items (rest_given self.now.nodes rest)) }
    {
        let from = self.nodes.before(rest.node);
        match self.nodes.first(from, rest.to) {
            Some(_) => {
                make_room(list)?;
                list.push_reserved(OpenTree::Hole(rest.hole()));
                Ok(())
            }
            None => Ok(()),
        }
    }

    // The list below a node, whose children begin at a position. With a hole it has room for nothing more, since it lies in the buffer as
    // long as nobody asks for what is below.
    fn kids(
        &self,
        alloc: Global,
        whole: bool,
        from: usize,
        i: usize,
    ) -> Result<Vec<OpenTree>, AllocError>
        requires inside { i < length self.now.nodes }
        requires from { from ≡ before self.now.nodes i }
        ensures { IfOk result (λ list. plain list.items ≡ kids_given self.now.nodes whole i) }
    {
        if whole {
            return self.subtrees(alloc, from, i);
        }
        match self.nodes.first(from, i) {
            Some(_) => Ok(vec![in alloc; OpenTree::Hole(Rest { node: i, to: i }.hole())]?),
            None => Ok(Vec::new(alloc)),
        }
    }

    /// The children that a hole names; `None` where the document doesn't know the hole.
    pub fn rest(&self, hole: HoleId) -> Option<Rest>
        ensures { MatchOption result (is_known self.now.nodes hole ≡ false)
            (λ rest. (rest ≡ hole_rest hole) × (is_known self.now.nodes hole ≡ true)) }
    {
        let rest = Rest::of_hole(hole);
        if hole.words[2] != 0 || rest.node >= self.nodes.len() {
            return None;
        }
        if self.nodes.before(rest.node) <= rest.to && rest.to <= rest.node {
            return Some(rest);
        }
        None
    }

    /// The next of some last children of a node, at most `most`, each whole or with a hole below it where it has children,
    /// and a hole after them where more remain.
    pub fn next_children(
        &self,
        alloc: Global,
        most: u32,
        whole: bool,
        rest: Rest,
    ) -> Result<Vec<OpenTree>, AllocError>
        requires { is_there self.now.nodes rest ≡ true }
        ensures { IfOk result (λ list. plain list.items ≡ given_from self.now.nodes whole rest.node most rest.to) }
    {
        let from = self.nodes.before(rest.node);
        let mut to = rest.to;
        // A hole after the children takes the place of one more.
        let mut list = Vec::with_capacity(alloc, self.room(from, to, most))?;
        let mut left = most;
        while left > 0 {
            let Some(i) = self.nodes.first(from, to) else {
                return Ok(list);
            };
            to = self.nodes.before(i);
            let kids = self.kids(alloc, whole, to, i)?;
            self.push_node(alloc, &mut list, i, kids)?;
            left -= 1;
        }
        self.push_rest(&mut list, Rest { to, ..rest })?;
        Ok(list)
    }
}
