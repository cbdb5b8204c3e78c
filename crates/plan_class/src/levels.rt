// The levels of an operator.
ghost use Rattle.std.specs.Prelude.{◌≡◌, IfOk, drop, true};
ghost use Rattle.browse_class.specs.Levels.{own_level};
ghost use Rattle.plan_class.specs.LevelLists.{level_in, same_levels, with_first, visit_levels, pair_levels};

use crate::runs::{Runs, beside};
use browse_profile::Profile;
use std::alloc::{AllocError, Global};
use std::marker::Model;

/// How many variables a front has, and whether it is whole.
#[derive(Clone, Copy)]
pub struct FrontSize {
    pub vars: usize,
    pub whole: bool,
}

/// The levels of an operator: level 0 where it is by itself, those after it or the first ones, and the one that all others are.
#[derive(Drop)]
pub struct Levels {
    zero: Option<Profile>,
    after: Runs,
    rest: Profile,
}

impl Model for Levels {
    ghost use Rattle.std.specs.Prelude.{◌++◌, option_to_list};
    ghost use Rattle.plan_class.specs.LevelLists.{Levels as LevelList};

    ghost Value = { LevelList };

    ghost view = { λ l. record { first = option_to_list l.zero ++ l.after; rest = l.rest } };
}

impl Levels {
    /// Levels that are all one profile.
    pub fn same(alloc: Global, level: Profile) -> Levels
        ensures { result ≡ same_levels level }
    {
        Levels {
            zero: None,
            after: Runs::none(alloc),
            rest: level,
        }
    }

    /// The level of a number: one of the first, or the one that all others are.
    pub fn at(&self, number: usize) -> Profile
        ensures { result ≡ level_in self.now number }
    {
        match self.zero {
            Some(level) if number == 0 => level,
            Some(_) => self.after.at(number - 1, self.rest),
            None => self.after.at(number, self.rest),
        }
    }

    // The levels but level 0, and the one that all others are.
    fn after_zero(self) -> Runs
        ensures { result ≡ drop 1 self.first }
    {
        match self.zero {
            Some(_) => self.after,
            None => self.after.after_first(),
        }
    }

    /// These levels, with the first stop of a list alone at level 0.
    pub fn with_first(self, list: Profile) -> Levels
        ensures { result ≡ with_first list self }
    {
        let rest = self.rest;
        Levels {
            zero: Some(list.once()),
            after: self.after_zero(),
            rest,
        }
    }

    // The levels of lists beside each binding of the left side, after m of which nothing is known. `Err`: memory.
    fn beside(&self, alloc: Global, m: usize, left: Profile) -> Result<Levels, AllocError>
        ensures { IfOk result (λ l. l ≡ pair_levels m true left self.now) }
    {
        let mut after = Runs::opens(alloc, m)?;
        if let Some(level) = self.zero {
            after.push(beside(left, level))?;
        }
        after.push_beside(left, &self.after)?;
        Ok(Levels {
            zero: None,
            after,
            rest: beside(left, self.rest),
        })
    }
}

/// The profile itself where there is one binding at most.
pub fn own_level(profile: Profile) -> Profile
    ensures { result ≡ own_level profile }
{
    if profile.most.many() {
        Profile::unbounded()
    } else {
        profile
    }
}

/// The levels of visits below the bindings of an input with such a front. `Err`: memory.
pub fn visit_levels(
    alloc: Global,
    front: FrontSize,
    input: Profile,
    visit: Profile,
) -> Result<Levels, AllocError>
    ensures { IfOk result (λ l. l ≡ visit_levels front.vars front.whole input visit) }
{
    if !front.whole {
        return Ok(Levels::same(alloc, Profile::unbounded()));
    }
    let mut after = Runs::opens(alloc, front.vars)?;
    after.push(input.replaced(visit.once()))?;
    after.push(input.replaced(visit))?;
    Ok(Levels {
        zero: None,
        after,
        rest: Profile::unbounded(),
    })
}

/// The levels of pairs, of which the left side has such a front. `Err`: memory.
pub fn pair_levels(
    alloc: Global,
    front: FrontSize,
    left: Profile,
    right: &Levels,
) -> Result<Levels, AllocError>
    ensures { IfOk result (λ l. l ≡ pair_levels front.vars front.whole left right.now) }
{
    if front.whole {
        right.beside(alloc, front.vars, left)
    } else {
        Ok(Levels::same(alloc, Profile::unbounded()))
    }
}
