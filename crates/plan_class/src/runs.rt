// Levels side by side.
ghost use Rattle.std.specs.Prelude.{◌≡◌, ◌++◌, ◌∷◌, [], IfOk, OnOk, drop, map, slice_index_or};
ghost use Rattle.plan_class.specs.LevelLists.{opens, beside};
ghost use Rattle.plan_class.specs.Runs.{levels_of};

use browse_profile::Profile;
use std::alloc::{AllocError, Global};
use std::marker::Model;

/// Levels of one profile side by side: one of them, and how many more.
#[derive(Clone, Copy)]
pub struct Run {
    pub level: Profile,
    pub more: usize,
}

/// A list of levels, kept as runs of one profile.
#[derive(Drop)]
pub struct Runs {
    runs: Vec<Run>,
}

impl Model for Runs {
    ghost use Rattle.std.specs.Prelude.{List};
    ghost use Rattle.browse_profile.specs.declared.profile.Profile.{Profile as ProfileValue};
    ghost use Rattle.plan_class.specs.Runs.{levels_of as levels_of_runs};

    ghost Value = { List ProfileValue };

    ghost view = { λ r. levels_of_runs r.runs.items };
}

/// A list beside each binding of the left side of a join.
pub fn beside(left: Profile, right: Profile) -> Profile
    ensures { result ≡ beside left right }
{
    left.replaced(Profile::one_skip().in_turn(right))
}

// A run beside each binding of the left side.
fn run_beside(left: Profile, run: Run) -> Run
    ensures { result ≡ record { level = beside left run.level; more = run.more } }
{
    Run {
        level: beside(left, run.level),
        more: run.more,
    }
}

// Runs beside each binding of the left side, after others.
fn push_beside(runs: &mut Vec<Run>, left: Profile, right: &[Run]) -> Result<(), AllocError>
    ensures { OnOk result (levels_of runs.new.items ≡ levels_of runs.old.items ++ map (beside left) (levels_of right.now)) }
{
    'right: for run in right {
        runs.push(run_beside(left, *run))?;
    }
    Ok(())
}

// The level of a number in runs; past their end, the one that all others are.
fn level_at(runs: &[Run], number: usize, rest: Profile) -> Profile
    ensures { result ≡ slice_index_or (levels_of runs.now) number rest }
{
    let mut left = number;
    'runs: for run in runs {
        if left <= run.more {
            return run.level;
        }
        left = left - run.more - 1;
    }
    rest
}

impl Runs {
    /// No levels.
    pub fn none(alloc: Global) -> Runs
        ensures { result ≡ [] }
    {
        Runs {
            runs: Vec::new(alloc),
        }
    }

    /// So many levels of which nothing is known. `Err`: memory.
    pub fn opens(alloc: Global, count: usize) -> Result<Runs, AllocError>
        ensures { IfOk result (λ levels. levels ≡ opens count) }
    {
        let mut runs = Vec::new(alloc);
        if count == 0 {
            return Ok(Runs { runs });
        }
        let level = Profile::unbounded();
        let more = count - 1;
        runs.push(Run { level, more })?;
        Ok(Runs { runs })
    }

    /// Adds a level after the others. `Err`: memory.
    pub fn push(&mut self, level: Profile) -> Result<(), AllocError>
        ensures { OnOk result (self.new ≡ self.old ++ level ∷ []) }
    {
        self.runs.push(Run { level, more: 0 })?;
        Ok(())
    }

    /// Adds lists beside each binding of the left side. `Err`: memory.
    pub fn push_beside(&mut self, left: Profile, right: &Runs) -> Result<(), AllocError>
        ensures { OnOk result (self.new ≡ self.old ++ map (beside left) right.now) }
    {
        push_beside(&mut self.runs, left, &right.runs)
    }

    /// The level of a number; past the end, the one that all others are.
    pub fn at(&self, number: usize, rest: Profile) -> Profile
        ensures { result ≡ slice_index_or self.now number rest }
    {
        level_at(&self.runs, number, rest)
    }

    /// The levels but the first.
    pub fn after_first(self) -> Runs
        ensures { result ≡ drop 1 self }
    {
        let mut runs = self.runs;
        match runs.first().copied() {
            None => Runs { runs },
            Some(run) if run.more > 0 => {
                let more = run.more - 1;
                runs[0] = Run {
                    level: run.level,
                    more,
                };
                Runs { runs }
            }
            Some(_) => {
                runs.remove(0);
                Runs { runs }
            }
        }
    }
}
