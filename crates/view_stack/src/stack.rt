// Stacks of views.
ghost use Rattle.std.specs.Prelude.{◌<◌, ◌^◌};
ghost use Rattle.view_stack.specs.Stacks.{stacking_in, view_of};
ghost use Rattle.view_stack.specs.Steps.{AreSound};

use crate::fact::recall;
use crate::filling::fill;
use crate::layers::Layers;
use crate::opening::views_of;
use crate::part::Part;
use lxp_core::{HoleId, OpenTree, SourceFault, Sources};
use plan_core::Plan;
use std::alloc::{AllocError, Global};
use std::marker::Brand;

/// Sources, and views over them as further sources, with the numbers after theirs. The document of a view is that of its plan. A hole of it is
/// asked by one step of its walk: the root, a first child or a next sibling. A view that is not mounted tells nothing: the list of its root
/// hole is empty, and it knows no other hole.
#[derive(Drop)]
pub struct Stack<S: Sources> {
    layers: Layers<S>,
    ghost few: { (view_of (stacking_in S.view layers)).count < 2 ^ 32 },
    ghost sound: { ∥ AreSound S.view layers ∥₁ },
}

/// Memory ran out. The sources are as they were.
#[derive(Drop)]
pub struct StackRefused<S> {
    pub base: S,
}

impl<S: Sources> Stack<S> {
    ghost use Rattle.std.specs.Prelude.{◌≡◌, ◌+◌, length, IfOk, IfErr};
    ghost use Rattle.std.specs.List.{AllByRecursion};
    ghost use Rattle.view_stack.specs.Stacks.{plans_of};
    ghost use Rattle.view_stack.specs.Steps.{IsPlanOver};

    /// A view over these sources for each plan, in order; none is mounted where there is no plan. No fill is asked.
    pub fn open(
        alloc: Global,
        base: S,
        plans: Vec<Option<Plan>>,
    ) -> Result<Stack<S>, StackRefused<S>>
        requires plans { AllByRecursion (IsPlanOver (S.view base).count) plans.items }
        requires few { (S.view base).count + length plans.items < 2 ^ 32 }
        ensures base { IfOk result (λ k. k.layers.base ≡ base) }
        ensures plans { IfOk result (λ k. plans_of k.layers.views.items ≡ plans.items) }
        ensures fills { IfOk result (λ k. (view_of (stacking_in S.view k.layers)).fills ≡ 0) }
        ensures refused { IfErr result (λ e. e.base ≡ base) }
    {
        match views_of(alloc, &base, plans) {
            Ok(views) => Ok(Stack {
                layers: Layers {
                    base,
                    views,
                    served: Vec::new(alloc),
                    fills: 0,
                },
            }),
            Err(AllocError) => Err(StackRefused { base }),
        }
    }

    /// The sources below, as they are now.
    pub fn into_base(self) -> S
        ensures { result ≡ self.layers.base }
    {
        self.layers.base
    }
}

impl<S: Sources> Sources for Stack<S> {
    ghost use Rattle.std.specs.Prelude.{◌≡◌, ◌-◌, ◌≤◌, IfOk};
    ghost use Rattle.lxp_core.specs.Fill.{Answers, IsCounted, IsRefused, source_of};
    ghost use Rattle.lxp_core.specs.Plain.{plain};
    ghost use Rattle.view_stack.specs.Steps.{CameFrom, IsOneStep, NeedsNone};
    ghost use Rattle.view_stack.specs.Laws.{came_same, came_after, stack_root_known};

    ghost view = { λ k. view_of (stacking_in S.view k.layers) };

    ghost came_from = { λ old new. CameFrom S.view S.came_from old.layers new.layers };

    fn count(&self) -> u32 {
        self.layers.base.count() + self.layers.views.len() as u32
    }

    fn get_root(&self, s: u32) -> HoleId {
        if s < self.layers.base.count() {
            self.layers.base.get_root(s)
        } else {
            Part::Whole.hole()
        }
    }

    fn fill(&mut self, alloc: Global, s: u32, hole: HoleId) -> Result<Vec<OpenTree>, SourceFault>
        requires { s < (view_of (stacking_in S.view self.old.layers)).count }
        ensures came { CameFrom S.view S.came_from self.old.layers self.new.layers }
        ensures step { (S.view self.old.layers.base).count ≤ s → IfOk result (λ list. IsOneStep hole (plain list.items)) }
        ensures answers { let before = source_of (view_of (stacking_in S.view self.old.layers)) s in
            let after = source_of (view_of (stacking_in S.view self.new.layers)) s in
            IfOk result (λ list. Answers before after hole (plain list.items)) }
        ensures refused { let before = source_of (view_of (stacking_in S.view self.old.layers)) s in
            let after = source_of (view_of (stacking_in S.view self.new.layers)) s in
            IsRefused _ before after hole result }
        ensures counted { IsCounted _ self.old.layers.fills self.new.layers.fills result }
        ensures unasked { let count = (S.view self.old.layers.base).count in count ≤ s
            → NeedsNone self.old.layers.views.items (s - count) hole → self.new.layers.base ≡ self.old.layers.base }
    {
        recall::<Layers<S>, Brand>(&self.layers);
        fill(alloc, &mut self.layers, s, hole)
    }

    ghost same = { λ a. came_same S.view S.came_from S.same a.layers };

    ghost after = { λ a b c x y. came_after S.view S.came_from S.after S.keeps S.root_known a.layers b.layers c.layers x y };

    ghost keeps = { λ a b x. x.kept };

    ghost root_known = { λ a s h. stack_root_known S.view S.came_from S.root_known a.layers s h };
}
