// What is known of an operator.
ghost use Rattle.std.specs.Prelude.{◌≡◌};
ghost use Rattle.plan_class.specs.Known.{no_known, known_with, ended_known, binding};

use crate::domain::{Domain, one_item};
use crate::levels::Levels;
use browse_profile::Profile;
use mix_tree::{Key, Var};
use std::alloc::Global;
use std::marker::Model;

/// What is known of an operator.
#[derive(Drop)]
pub struct Known {
    /// The profile of its events.
    pub profile: Profile,
    /// The variable that it binds anew.
    pub out: Option<Var>,
    /// What the values of that variable can be.
    pub domain: Domain,
    /// Keys by which no two of its bindings agree.
    pub keys: Vec<Key>,
    /// What its events cost where of bindings that agree the first alone counts.
    pub levels: Levels,
}

impl Model for Known {
    ghost use Rattle.plan_class.specs.Known.{Known as KnownValue};

    ghost Value = { KnownValue };

    ghost view = { λ k. record { profile = k.profile; out = k.out; domain = k.domain; keys = k.keys.items; levels = k.levels } };
}

impl Known {
    /// What is known of no operator: nothing.
    pub fn none(alloc: Global) -> Known
        ensures { result ≡ no_known }
    {
        Known {
            profile: Profile::costless(),
            out: None,
            domain: Domain::of_values(one_item()),
            keys: Vec::new(alloc),
            levels: Levels::same(alloc, Profile::unbounded()),
        }
    }

    /// What is known of an operator that binds no variable anew, with these levels after level 0.
    pub fn new(profile: Profile, keys: Vec<Key>, levels: Levels) -> Known
        ensures { result ≡ known_with profile keys.items levels }
    {
        Known {
            profile,
            out: None,
            domain: Domain::of_values(one_item()),
            keys,
            levels: levels.with_first(profile),
        }
    }

    /// What is known of an operator without events.
    pub fn ended(alloc: Global) -> Known
        ensures { result ≡ ended_known }
    {
        let levels = Levels::same(alloc, Profile::unbounded());
        Known::new(Profile::costless(), Vec::new(alloc), levels)
    }

    /// What is known of an operator, with a variable that it binds anew, and its domain.
    pub fn binding(self, out: Var, domain: Domain) -> Known
        ensures { result ≡ binding out domain self }
    {
        Known {
            profile: self.profile,
            out: Some(out),
            domain,
            keys: self.keys,
            levels: self.levels,
        }
    }
}
