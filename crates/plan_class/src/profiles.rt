// The profiles of a plan: of the events of its operators, and of the lists that its variables have.
ghost use Rattle.std.specs.Prelude.{◌≡◌, ◌<◌, ℕ, suc, List, IfOk, OnOk, length};
ghost use Rattle.plan_core.specs.ByNumber.{op_at};
ghost use Rattle.plan_core.specs.FrontsKept.{front_in, AreKept};
ghost use Rattle.plan_core.specs.PlanMade.{op_of, plan_value};
ghost use Rattle.plan_core.specs.Plans.{Operator};
ghost use Rattle.plan_core.specs.Shapes.{shape_of};
ghost use Rattle.plan_core.specs.Valid.{AreDistinct, inputs_of, IsValid};
ghost use Rattle.plan_class.specs.Agree.{known_below};
ghost use Rattle.plan_class.specs.Known.{shape_known, IsShort};
ghost use Rattle.plan_class.specs.Profiles.{events_in, list_in, AreOfKnown, AreProfiles};
ghost use Rattle.plan_class.specs.Slots.{kept_at, IsPushed};
ghost use Rattle.plan_class.specs.VarDomains.{domain_in};

use crate::domains::Domains;
use crate::operators::op_known;
use crate::so_far::SoFar;
use browse_profile::Profile;
use browse_visit::Shape;
use mix_tree::Var;
use plan_core::fronts::Fronts;
use plan_core::{Op, Plan, valid_plans_are_typed};
use std::alloc::{AllocError, Global};

/// The profiles of a plan: of the events of each operator, and of the lists that variables have.
#[derive(Drop)]
pub struct Profiles {
    pub(crate) events: Vec<Profile>,
    pub(crate) domains: Domains,
}

impl Profiles {
    /// The profile of the events of an operator; that of no events where there is no such operator.
    pub fn of_events(&self, op: usize) -> Profile
        ensures { result ≡ events_in self.now op }
    {
        match self.events.get(op) {
            Some(profile) => *profile,
            None => Profile::costless(),
        }
    }

    /// The profile of the list that a variable has; that of one tree where it has none.
    pub fn of_list(&self, var: Var) -> Profile
        ensures { result ≡ list_in self.now var }
    {
        self.domains.of(var).trees
    }
}

// Adds an operator to those before it, and gives the profile of its events. `Err`: memory.
fn push_known(
    alloc: Global,
    shapes: &[Shape],
    fronts: &mut Fronts,
    so_far: &mut SoFar,
    op: &Op,
) -> Result<Profile, AllocError>
    requires short { IsShort (op_of op.now) }
    requires apart { AreDistinct (inputs_of (op_of op.now)) }
    ensures profile { let was = so_far.old in let known = shape_known shapes.now (front_in fronts.old) (domain_in was.domains) (kept_at was.slots.items) in
        IfOk result (λ p. p ≡ (known (shape_of (op_of op.now))).profile) }
    ensures known { OnOk result (IsPushed shapes.now (front_in fronts.old) so_far.old (op_of op.now) so_far.new) }
    ensures fronts { (ops : List Operator) (n : ℕ) → n < length ops → op_at ops n ≡ op_of op.now → AreKept ops n fronts.old → OnOk result (AreKept ops (suc n) fronts.new) }
{
    let one = op_known(alloc, shapes, fronts, so_far, op)?;
    let profile = one.profile;
    so_far.push(one)?;
    fronts.push(alloc, op)?;
    Ok(profile)
}

/// What is known of the operators of a plan: the profile of the events of each, and what the values of all variables can be. `Err`: memory.
pub(crate) fn all_profiles(
    alloc: Global,
    plan: &Plan,
    shapes: &[Shape],
) -> Result<Profiles, AllocError>
    requires { IsValid (plan_value plan.now) }
    ensures { let ops = (plan_value plan.now).ops in IfOk result (AreOfKnown (known_below shapes.now ops (length ops))) }
{
    valid_plans_are_typed();
    let mut fronts = Fronts::new(alloc, &plan.ops)?;
    let mut so_far = SoFar::new(alloc);
    let mut events = Vec::new(alloc);
    'ops: for op in &plan.ops {
        let profile = push_known(alloc, shapes, &mut fronts, &mut so_far, op)?;
        events.push(profile)?;
    }
    Ok(Profiles {
        events,
        domains: so_far.domains,
    })
}

/// The profiles of a plan over sources of such shapes. A source past the end of `shapes` has no known shape. `Err`: want of memory alone.
pub fn profiles_of(alloc: Global, plan: &Plan, shapes: &[Shape]) -> Result<Profiles, AllocError>
    requires { IsValid (plan_value plan.now) }
    ensures { IfOk result (AreProfiles shapes.now (plan_value plan.now).ops) }
{
    valid_plans_are_typed();
    let profiles = all_profiles(alloc, plan, shapes)?;
    Ok(profiles)
}
