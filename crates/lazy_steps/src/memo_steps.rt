// The members of a join's right side: the next one beside a binding of the left, its pair, and one more of them.
ghost use Rattle.std.specs.Prelude.{◌≡◌, ◌<◌, true, false, IsTrue, IfOk, IfErr, IfSome, length};
ghost use Rattle.plan_core.specs.Shapes.{pairs_up};
ghost use Rattle.lxp_core.specs.View.{View};
ghost use Rattle.lxp_core.specs.declared.fault.WalkFault.TheVariants.{OutOfMemory};
ghost use Rattle.lazy_binding.specs.Bench.{IsBench};
ghost use Rattle.lazy_binding.specs.Cursors.{has_row};
ghost use Rattle.plan_forms.specs.Links.{links_at};
ghost use Rattle.lazy_binding.specs.Members.{member_label};
ghost use Rattle.lazy_binding.specs.Parts.{operators, shape_walked, world_of, IsFixed};
ghost use Rattle.lazy_binding.specs.Reading.{HasStand, Tells};
ghost use Rattle.lazy_steps.specs.Beside.{left_of, right_of, memo_in, sought_label, is_by_label, IsPlaceFrom, IsNextPlace, IsPairAt, HasSought, CanPair, PairSteps, Grew};

use crate::join_steps::Join;
use crate::step::Step;
use crate::steps::advance;
use lazy_binding::growth::{end_members, last_member, push_member};
use lazy_binding::{Growing, Position, Walk, share};
use lxp_core::{Sources, WalkFault};
use mix_tree::Label;
use plan_forms::{Link, Side, only_label};
use std::alloc::{AllocError, Global};
use std::rc::Rc;

impl Join<'_> {
    /// The links by which members of the right side are looked up.
    fn links(&self) -> &[Link]
        requires fixed { IsFixed self.now.walk.fixed.now }
        requires op { self.now.walk.op < length (operators self.now.walk.fixed.now) }
        ensures { result.now ≡ links_at (operators self.now.walk.fixed.now) self.now.walk.op }
    {
        &self.walk.fixed.links[self.walk.op]
    }

    /// The place of the next member beside a binding of the left side, at or after one: the next of the label that is looked up, or whichever
    /// is next; `None` where none is known yet. No fill is asked.
    pub(crate) fn next_known(
        &self,
        alloc: Global,
        growing: &Growing,
        l: &Rc<Position>,
        from: usize,
    ) -> Result<Option<usize>, AllocError>
        requires fixed { IsFixed self.now.walk.fixed.now }
        requires op { self.now.walk.op < length (operators self.now.walk.fixed.now) }
        requires is { shape_walked self.now.walk ≡ pairs_up self.now.left self.now.right self.now.tests.now }
        requires cursor { HasStand growing.now (left_of self.now) l.now.value }
        requires row { IsTrue (has_row l.now.value) }
        ensures place { IfOk result (IsPlaceFrom (memo_in growing.now self.now.walk.op).pairs from) }
        ensures next { let ops = operators self.now.walk.fixed.now in
            let by = links_at ops self.now.walk.op in
            let ms = (memo_in growing.now self.now.walk.op).pairs in
            IfOk result (λ r. Tells growing.now (left_of self.now) l.now.value
            (λ w docs row. IsNextPlace ms (sought_label w ops self.now.left by l.now.value) from r)) }
        ensures label { let ops = operators self.now.walk.fixed.now in
            let by = links_at ops self.now.walk.op in
            let ms = (memo_in growing.now self.now.walk.op).pairs in
            IfOk result (λ r. Tells growing.now (left_of self.now) l.now.value
            (λ w docs row. IfSome r (HasSought ms (sought_label w ops self.now.left by l.now.value) by))) }
    {
        let left = Walk {
            fixed: self.walk.fixed,
            op: self.left,
        };
        let memo = &growing.memos[self.walk.op];
        if memo.len() <= from {
            return Ok(None);
        }
        let by = self.links();
        if by.is_empty() {
            return Ok(Some(from));
        }
        match only_label(by) {
            Some(link) => Ok(memo.find(left.label_of(growing, l, link.left), from)),
            None => {
                let key = left.key_by(alloc, growing, l, by, Side::Left)?;
                Ok(memo.find(&key, from))
            }
        }
    }

    /// The pair of a binding of the left side and the member at a place.
    fn pair_at(
        &self,
        growing: &Growing,
        l: &Rc<Position>,
        place: usize,
    ) -> Result<Position, WalkFault>
        requires bench { (view : View) × IsBench (world_of view growing.now) (operators self.now.walk.fixed.now) }
        requires op { self.now.walk.op < length (operators self.now.walk.fixed.now) }
        requires place { place < length (memo_in growing.now self.now.walk.op).pairs }
        ensures err { IfErr result (λ e. e ≡ OutOfMemory) }
        ensures pair { IfOk result (λ r. IsPairAt (memo_in growing.now self.now.walk.op).pairs l.now.value place r) }
    {
        let memo = &growing.memos[self.walk.op];
        let there = place < memo.len();
        prove!(there);
        match memo.get(place) {
            Some(member) => {
                let l = share(l)?;
                let r = share(member)?;
                Ok(Position::Pair(l, r, place + 1))
            }
            None => Ok(Position::Start),
        }
    }

    /// The event at the pair of a binding of the left side and the member at a place: a binding where all comparisons hold.
    fn at_member(
        &self,
        growing: &Growing,
        l: &Rc<Position>,
        place: usize,
    ) -> Result<Step, WalkFault>
        requires can { CanPair growing.now self.now l.now.value place }
        ensures err { IfErr result (λ e. e ≡ OutOfMemory) }
        ensures answer { PairSteps growing.now self.now l.now.value place result }
    {
        let pair = self.pair_at(growing, l, place)?;
        if self.walk.passes_each(growing, &pair, self.tests) {
            Ok(Step::At(pair))
        } else {
            Ok(Step::On(pair))
        }
    }

    /// Whether the only comparison is that of the labels by which members are looked up. Nodes are compared once more: two may have one text.
    fn label_decides(&self) -> bool
        requires fixed { IsFixed self.now.walk.fixed.now }
        requires op { self.now.walk.op < length (operators self.now.walk.fixed.now) }
        ensures { let by = links_at (operators self.now.walk.fixed.now) self.now.walk.op in
            IsTrue result → (length self.now.tests.now ≡ 1) × (is_by_label by ≡ true) }
    {
        let only = only_label(self.links());
        self.tests.len() == 1 && only.is_some()
    }

    /// The event at the pair of a binding of the left side and a member that was looked up: where its label decides, nothing more is compared.
    pub(crate) fn at_found(
        &self,
        growing: &Growing,
        l: &Rc<Position>,
        place: usize,
    ) -> Result<Step, WalkFault>
        requires can { CanPair growing.now self.now l.now.value place }
        requires label { let ops = operators self.now.walk.fixed.now in
            let by = links_at ops self.now.walk.op in
            let ms = (memo_in growing.now self.now.walk.op).pairs in
            Tells growing.now (left_of self.now) l.now.value
            (λ w docs row. HasSought ms (sought_label w ops self.now.left by l.now.value) by place) }
        ensures err { IfErr result (λ e. e ≡ OutOfMemory) }
        ensures answer { PairSteps growing.now self.now l.now.value place result }
    {
        if self.label_decides() {
            let pair = self.pair_at(growing, l, place)?;
            Ok(Step::At(pair))
        } else {
            self.at_member(growing, l, place)
        }
    }

    /// The label by which a binding of the right side is found; no bytes where nothing is looked up.
    #[inline(always)]
    fn label_for(
        &self,
        alloc: Global,
        growing: &Growing,
        r: &Rc<Position>,
    ) -> Result<Label, AllocError>
        requires fixed { IsFixed self.now.walk.fixed.now }
        requires op { self.now.walk.op < length (operators self.now.walk.fixed.now) }
        requires is { shape_walked self.now.walk ≡ pairs_up self.now.left self.now.right self.now.tests.now }
        requires cursor { HasStand growing.now (right_of self.now) r.now.value }
        requires row { IsTrue (has_row r.now.value) }
        ensures { let ops = operators self.now.walk.fixed.now in
            let by = links_at ops self.now.walk.op in
            IfOk result (λ label. Tells growing.now (right_of self.now) r.now.value
            (λ w docs row. label ≡ member_label w ops self.now.right by r.now.value)) }
    {
        let right = Walk {
            fixed: self.walk.fixed,
            op: self.right,
        };
        let by = self.links();
        right.key_by(alloc, growing, r, by, Side::Right)
    }

    /// One more member, the next binding of the right side; `false` where there is none, and then the memo has ended. Whatever is answered, the
    /// members are the first bindings of the right side, and those that were there keep their places.
    #[cycle(walk)]
    pub(crate) fn grow<S: Sources>(
        &self,
        alloc: Global,
        growing: &mut Growing,
        s: &mut S,
    ) -> Result<bool, WalkFault>
        requires fixed { IsFixed self.now.walk.fixed.now }
        requires op { self.now.walk.op < length (operators self.now.walk.fixed.now) }
        requires is { shape_walked self.now.walk ≡ pairs_up self.now.left self.now.right self.now.tests.now }
        requires bench { IsBench (world_of (S.view s.old) growing.old) (operators self.now.walk.fixed.now) }
        requires open { (memo_in growing.old self.now.walk.op).ended ≡ false }
        ensures { Grew S.view S.came_from self.now s.old growing.old s.new growing.new result }
    {
        let right = Walk {
            fixed: self.walk.fixed,
            op: self.right,
        };
        let last = last_member(alloc, &growing.memos[self.walk.op])?;
        match advance(alloc, right, growing, s, &last)? {
            None => {
                end_members(&mut growing.memos, self.walk.op);
                Ok(false)
            }
            Some(found) => {
                let label = self.label_for(alloc, growing, &found)?;
                push_member(alloc, &mut growing.memos, self.walk.op, label, found)?;
                Ok(true)
            }
        }
    }
}
