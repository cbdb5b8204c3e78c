// Where the numbers of a plan's lists are lost: at which operator, and what stands between the keys of a group.
use browse_profile::Profile;
use mix_tree::{Key, Var};
use plan_class::Profiles;
use plan_core::front::{are_contiguous, shared};
use plan_core::fronts::Fronts;
use plan_core::{Op, Piece, Plan};
use std::alloc::{AllocError, Global};
use std::collections::BTreeMap;

/// What keeps bindings that agree by some keys from standing side by side. Variables stand by their numbers.
#[derive(Clone, Copy)]
pub enum Blocker {
    /// Nothing does.
    Nothing,
    /// They are in order by a variable that is no key, before a key.
    Between(u32),
    /// A key is a label, which nodes apart may share.
    Label(u32),
    /// A node of a key may come again after others.
    Again(u32),
}

/// The operator at which a number is lost, and what keeps its groups apart, if it has some.
#[derive(Clone, Copy)]
pub struct Cause {
    pub op: usize,
    pub blocker: Blocker,
}

/// The causes for which numbers are lost: of the events of operators, each by its number, and of the lists of variables. And of each operator, what
/// keeps apart what it, or one below it, takes together.
#[derive(Drop)]
pub struct Causes {
    events: Vec<Option<Cause>>,
    lists: BTreeMap<u32, Cause>,
    blockers: Vec<Blocker>,
}

/// Whether one of the four numbers from stop to stop of a list is lost.
pub fn lacks(profile: Profile) -> bool {
    profile.greatest().is_none()
}

// The first of two causes.
fn first_of(a: Option<Cause>, b: Option<Cause>) -> Option<Cause> {
    match a {
        Some(cause) => Some(cause),
        None => b,
    }
}

// The first key that isn't of one of these variables.
fn apart_from(keys: &[Key], vars: &[Var]) -> Option<Key> {
    for key in keys {
        if !vars.iter().any(|v| *v == key.var()) {
            return Some(*key);
        }
    }
    None
}

// What keeps a key apart that the first variables of a front don't tell, of which this is the next one.
fn blocker_by(key: Key, next: Option<&Var>) -> Blocker {
    match key {
        Key::LabelOf(var) => Blocker::Label(var.number()),
        Key::Node(var) => match next {
            Some(between) => Blocker::Between(between.number()),
            None => Blocker::Again(var.number()),
        },
    }
}

// What keeps bindings that agree by keys apart, over an input with a front of these variables.
fn blocker_of(keys: &[Key], vars: &[Var]) -> Blocker {
    if are_contiguous(keys, vars) {
        return Blocker::Nothing;
    }
    let first = shared(keys, vars);
    match apart_from(keys, first) {
        Some(key) => blocker_by(key, vars.get(first.len())),
        None => Blocker::Nothing,
    }
}

impl Causes {
    // The cause for which a number of an operator's events is lost.
    fn of_events(&self, op: u32) -> Option<Cause> {
        match self.events.get(op as usize) {
            Some(cause) => *cause,
            None => None,
        }
    }

    /// The cause for which a number of a variable's list is lost, if one is.
    pub fn of_list(&self, var: Var) -> Option<Cause> {
        match self.lists.get(&var.number()) {
            Some(cause) => Some(*cause),
            None => None,
        }
    }

    // What keeps apart what an operator, or one below it, takes together.
    fn blocker_below(&self, op: u32) -> Blocker {
        match self.blockers.get(op as usize) {
            Some(blocker) => *blocker,
            None => Blocker::Nothing,
        }
    }

    // What cut the front of an operator short, or else what is found without it.
    fn blocker_before(&self, input: u32, found: Blocker) -> Blocker {
        let below = self.blocker_below(input);
        match below {
            Blocker::Between(_) => below,
            _ => found,
        }
    }

    // What keeps bindings that agree by keys apart, over an operator with a front of these variables; where that front was cut short, what did that.
    fn blocker_over(&self, input: u32, keys: &[Key], vars: &[Var]) -> Blocker {
        let own = blocker_of(keys, vars);
        match own {
            Blocker::Again(_) => self.blocker_before(input, own),
            _ => own,
        }
    }

    // What keeps what an operator takes together apart, if it takes some together.
    fn blocker_at(&self, op: &Op, fronts: &Fronts) -> Blocker {
        match op {
            Op::Project { input, keys } => self.blocker_over(*input, keys, fronts.vars(*input)),
            Op::GroupBy { input, keys, .. } => {
                self.blocker_over(*input, keys, fronts.vars(*input))
            }
            _ => Blocker::Nothing,
        }
    }

    // What an operator leaves of that for those above it: its own, or what is below it.
    fn blocker_left(&self, op: &Op, own: Blocker) -> Blocker {
        match op {
            Op::Join { left, .. } => self.blocker_below(*left),
            Op::GetDescendants { input, .. }
            | Op::Select { input, .. }
            | Op::Concatenate { input, .. }
            | Op::CreateElement { input, .. } => self.blocker_below(*input),
            _ => own,
        }
    }

    // The cause below an operator: that of its first input of which a number is lost.
    fn below(&self, op: &Op) -> Option<Cause> {
        match op {
            Op::Source { .. } | Op::OrderBy { .. } => None,
            Op::Join { left, right, .. } => {
                first_of(self.of_events(*left), self.of_events(*right))
            }
            Op::GetDescendants { input, .. }
            | Op::Select { input, .. }
            | Op::Project { input, .. }
            | Op::GroupBy { input, .. }
            | Op::Concatenate { input, .. }
            | Op::CreateElement { input, .. }
            | Op::TupleDestroy { input, .. } => self.of_events(*input),
        }
    }

    // The cause of the first of some pieces whose list has lost a number.
    fn of_pieces(&self, pieces: &[Piece]) -> Option<Cause> {
        for piece in pieces {
            if let Piece::Var(var) = piece {
                if let Some(cause) = self.of_list(*var) {
                    return Some(cause);
                }
            }
        }
        None
    }

    // The cause of a groupBy's lists: its own where its groups may be apart, else what is below it.
    fn of_groups(&self, input: u32, profiles: &Profiles, own: Cause) -> Option<Cause> {
        let many = profiles.of_events(input as usize).most.many();
        match own.blocker {
            Blocker::Nothing => self.of_events(input),
            _ => if many {
                Some(own)
            } else {
                self.of_events(input)
            },
        }
    }

    // Adds the cause of the list that an operator binds, where that lacks a number. `Err`: memory.
    fn push_list(&mut self, op: &Op, profiles: &Profiles, own: Cause) -> Result<(), AllocError> {
        let (var, cause) = match op {
            Op::GroupBy { input, out, .. } => { (*out, self.of_groups(*input, profiles, own)) }
            Op::Concatenate { pieces, out, .. } => (*out, self.of_pieces(pieces)),
            _ => return Ok(()),
        };
        if lacks(profiles.of_list(var)) {
            let cause = match cause {
                Some(cause) => cause,
                None => own,
            };
            self.lists.insert(var.number(), cause)?;
        }
        Ok(())
    }

    // Adds the causes of an operator, before which the fronts are these. `Err`: memory.
    fn push(
        &mut self,
        number: usize,
        op: &Op,
        profiles: &Profiles,
        fronts: &Fronts,
    ) -> Result<(), AllocError> {
        let own = Cause {
            op: number,
            blocker: self.blocker_at(op, fronts),
        };
        let left = self.blocker_left(op, own.blocker);
        self.push_list(op, profiles, own)?;
        let cause = if lacks(profiles.of_events(number)) {
            first_of(self.below(op), Some(own))
        } else {
            None
        };
        self.events.push(cause)?;
        self.blockers.push(left)?;
        Ok(())
    }
}

/// The causes for which the lists of a plan have lost numbers, of which these are the profiles. `Err`: memory.
pub fn causes_of(alloc: Global, plan: &Plan, profiles: &Profiles) -> Result<Causes, AllocError> {
    let mut causes = Causes {
        events: Vec::new(alloc),
        lists: BTreeMap::new(alloc),
        blockers: Vec::new(alloc),
    };
    let mut fronts = Fronts::new(alloc, &plan.ops)?;
    for (number, op) in plan.ops.iter().enumerate() {
        causes.push(number, op, profiles, &fronts)?;
        fronts.push(alloc, op)?;
    }
    Ok(causes)
}
