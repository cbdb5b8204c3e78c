// What the bindings of a join's sides are looked up by.
ghost use Rattle.std.specs.Prelude.{◌≡◌, ◌<◌, IsTrue, IfOk, Some, length};
ghost use Rattle.std.specs.List.{AllByRecursion, fold};
ghost use Rattle.std.specs.Hash.FoldHasher as folding;
ghost use Rattle.plan_core.specs.Valid.{kinds, a_node};
ghost use Rattle.plan_forms.specs.Links.{side_var};
ghost use Rattle.lazy_binding.specs.Cursors.{has_row};
ghost use Rattle.lazy_binding.specs.Members as keys;
ghost use Rattle.lazy_binding.specs.Parts.{operators, IsFixed};
ghost use Rattle.lazy_binding.specs.Reading.{HasStand, Tells};

use crate::parts::{Growing, Walk};
use crate::position::Position;
use crate::reading::hash_text;
use mix_tree::{Label, Var};
use plan_forms::{Link, LinkKind, Side};
use std::alloc::{AllocError, Global};
use std::default::Default;
use std::hash::{FoldHasher, Hash};

impl Walk<'_> {
    /// The label by which a variable in a position's binding is looked up alone: that of its node, or the text of the node's spot.
    fn alone(
        &self,
        alloc: Global,
        growing: &Growing,
        at: &Position,
        by: LinkKind,
        v: Var,
    ) -> Result<Label, AllocError>
        requires fixed { IsFixed self.now.fixed.now }
        requires op { self.now.op < length (operators self.now.fixed.now) }
        requires cursor { HasStand growing.now self.now at.now }
        requires row { IsTrue (has_row at.now) }
        requires node { kinds (operators self.now.fixed.now) self.now.op v ≡ Some a_node }
        ensures { let k = self.now in
            IfOk result (λ label. Tells growing.now k at.now (λ w docs row. label ≡ keys.link_label w (operators k.fixed.now) k.op by v at.now)) }
    {
        match by {
            LinkKind::Label => self.label_of(growing, at, v).copy(alloc),
            LinkKind::Node => self.text_of(alloc, at, v),
        }
    }

    /// Feeds a hasher with a variable in a position's binding: the label of its node, or the node's spot.
    fn feed(&self, growing: &Growing, at: &Position, by: LinkKind, v: Var, state: &mut FoldHasher)
        requires fixed { IsFixed self.now.fixed.now }
        requires op { self.now.op < length (operators self.now.fixed.now) }
        requires cursor { HasStand growing.now self.now at.now }
        requires row { IsTrue (has_row at.now) }
        requires node { kinds (operators self.now.fixed.now) self.now.op v ≡ Some a_node }
        ensures { let k = self.now in
            Tells growing.now k at.now (λ w docs row. state.new ≡ fold folding.write state.old (keys.link_fed w (operators k.fixed.now) k.op by v at.now)) }
    {
        match by {
            LinkKind::Label => self.label_of(growing, at, v).hash(state),
            LinkKind::Node => match self.fixed.spot_of(self.op, at, v) {
                Some((_, spot)) => spot.hash(state),
                None => {}
            },
        }
    }

    /// The text by which a position's binding is looked up where a join has several links: what all their variables on a side are hashed to.
    fn together(
        &self,
        alloc: Global,
        growing: &Growing,
        at: &Position,
        links: &[Link],
        side: Side,
    ) -> Result<Label, AllocError>
        requires fixed { IsFixed self.now.fixed.now }
        requires op { self.now.op < length (operators self.now.fixed.now) }
        requires cursor { HasStand growing.now self.now at.now }
        requires row { IsTrue (has_row at.now) }
        requires nodes { AllByRecursion (λ link. kinds (operators self.now.fixed.now) self.now.op (side_var side link) ≡ Some a_node) links.now }
        ensures { let k = self.now in
            IfOk result (λ text. Tells growing.now k at.now (λ w docs row. text ≡ keys.text_by w (operators k.fixed.now) k.op side links.now at.now)) }
    {
        let mut state = FoldHasher::default();
        for link in links {
            self.feed(growing, at, link.by, link.var(side), &mut state);
        }
        hash_text(alloc, &state)
    }

    /// The label by which a position's binding of a side of a join is looked up: no bytes without links, that of the only link, and of several links
    /// a text that all of them together make.
    pub fn key_by(
        &self,
        alloc: Global,
        growing: &Growing,
        at: &Position,
        links: &[Link],
        side: Side,
    ) -> Result<Label, AllocError>
        requires fixed { IsFixed self.now.fixed.now }
        requires op { self.now.op < length (operators self.now.fixed.now) }
        requires cursor { HasStand growing.now self.now at.now }
        requires row { IsTrue (has_row at.now) }
        requires nodes { AllByRecursion (λ link. kinds (operators self.now.fixed.now) self.now.op (side_var side link) ≡ Some a_node) links.now }
        ensures { let k = self.now in
            IfOk result (λ key. Tells growing.now k at.now (λ w docs row. key ≡ keys.key_by w (operators k.fixed.now) k.op side links.now at.now)) }
    {
        match links {
            [] => Label::of_text(alloc, &[]),
            [link] => self.alone(alloc, growing, at, link.by, link.var(side)),
            _ => self.together(alloc, growing, at, links, side),
        }
    }
}
