// Profiles: what it can cost to go from stop to stop of a list.
ghost use Rattle.std.specs.Prelude.{◌≡◌};
ghost use Rattle.browse_profile.specs.Profiles.{may, many, added, greater, in_turn, one_of, repeated, replaced, passed, first_kept, one_skip, one_binding, unbounded, costless, replaced_sure, replaced_once, replaced_by, with_all, once, greatest};

use crate::bound::{all_replaced, larger, less_one, only_if, sum};

/// How many stops a list can have.
#[derive(Clone, Copy, PartialEq, Eq)]
pub enum Most {
    Never,
    Once,
    Many,
}

/// Bounds on the costs of a list, each a number or none: to its first stop, from one to the next, after the last, and of a list
/// without any.
#[derive(Clone, Copy)]
pub struct Profile {
    pub lead: Option<u64>,
    pub between: Option<u64>,
    pub trail: Option<u64>,
    pub none: Option<u64>,
    pub all: Option<u64>,
    pub sure: bool,
    pub most: Most,
}

impl Most {
    /// Whether there can be a stop.
    pub fn may(self) -> bool
        ensures { result ≡ may self }
    {
        !matches!(self, Most::Never)
    }

    /// Whether there can be several stops.
    pub fn many(self) -> bool
        ensures { result ≡ many self }
    {
        matches!(self, Most::Many)
    }

    /// How many stops there can be in one list after another.
    pub fn added(self, other: Most) -> Most
        ensures { result ≡ added self other }
    {
        match (self, other) {
            (Most::Never, m) => m,
            (Most::Once, Most::Never) => Most::Once,
            (_, _) => Most::Many,
        }
    }

    /// How many stops there can be in either of two lists.
    pub fn greater(self, other: Most) -> Most
        ensures { result ≡ greater self other }
    {
        match (self, other) {
            (Most::Never, m) => m,
            (Most::Once, Most::Never) => Most::Once,
            (Most::Once, m) => m,
            (Most::Many, _) => Most::Many,
        }
    }
}

impl Profile {
    /// The profile of one skip.
    pub fn one_skip() -> Profile
        ensures { result ≡ one_skip }
    {
        Profile {
            lead: Some(0),
            between: Some(0),
            trail: Some(0),
            none: Some(1),
            all: Some(1),
            sure: false,
            most: Most::Never,
        }
    }

    /// The profile of one binding.
    pub fn one_binding() -> Profile
        ensures { result ≡ one_binding }
    {
        Profile {
            lead: Some(1),
            between: Some(0),
            trail: Some(0),
            none: Some(0),
            all: Some(1),
            sure: true,
            most: Most::Once,
        }
    }

    /// The profile of which nothing is known.
    pub fn unbounded() -> Profile
        ensures { result ≡ unbounded }
    {
        Profile {
            lead: None,
            between: None,
            trail: None,
            none: None,
            all: None,
            sure: false,
            most: Most::Many,
        }
    }

    /// The profile of no events at all.
    pub fn costless() -> Profile
        ensures { result ≡ costless }
    {
        Profile {
            lead: Some(0),
            between: Some(0),
            trail: Some(0),
            none: Some(0),
            all: Some(0),
            sure: false,
            most: Most::Never,
        }
    }

    /// The profile of one list and then another.
    pub fn in_turn(self, b: Profile) -> Profile
        ensures { result ≡ in_turn self b }
    {
        Profile {
            lead: larger(
                self.lead,
                only_if(!self.sure && b.most.may(), sum(self.none, b.lead)),
            ),
            between: larger(
                larger(self.between, b.between),
                only_if(self.most.may() && b.most.may(), sum(self.trail, b.lead)),
            ),
            trail: larger(
                b.trail,
                only_if(self.most.may() && !b.sure, sum(self.trail, b.none)),
            ),
            none: only_if(!self.sure && !b.sure, sum(self.none, b.none)),
            all: sum(self.all, b.all),
            sure: self.sure || b.sure,
            most: self.most.added(b.most),
        }
    }

    /// The profile of either of two lists.
    pub fn one_of(self, b: Profile) -> Profile
        ensures { result ≡ one_of self b }
    {
        Profile {
            lead: larger(self.lead, b.lead),
            between: larger(self.between, b.between),
            trail: larger(self.trail, b.trail),
            none: larger(self.none, b.none),
            all: larger(self.all, b.all),
            sure: self.sure && b.sure,
            most: self.most.greater(b.most),
        }
    }

    /// The profile of any number of lists, one after another.
    pub fn repeated(self) -> Profile
        ensures { result ≡ repeated self }
    {
        if self.sure {
            Profile {
                lead: self.lead,
                between: larger(self.between, sum(self.trail, self.lead)),
                trail: self.trail,
                none: Some(0),
                all: None,
                sure: false,
                most: Most::Many,
            }
        } else {
            Profile::unbounded()
        }
    }

    // The profile of a list each stop of which is replaced by a list that has a stop.
    fn replaced_sure(self, p: Profile) -> Profile
        ensures { result ≡ replaced_sure self p }
    {
        Profile {
            lead: sum(less_one(self.lead), p.lead),
            between: larger(
                p.between,
                only_if(
                    self.most.many(),
                    sum(sum(p.trail, less_one(self.between)), p.lead),
                ),
            ),
            trail: sum(p.trail, self.trail),
            none: self.none,
            all: self.all,
            sure: self.sure,
            most: if self.most.many() { Most::Many } else { p.most },
        }
    }

    // The profile of a list whose one stop is replaced by a list.
    fn replaced_once(self, p: Profile) -> Profile
        ensures { result ≡ replaced_once self p }
    {
        Profile {
            lead: only_if(p.most.may(), sum(less_one(self.lead), p.lead)),
            between: p.between,
            trail: only_if(p.most.may(), sum(p.trail, self.trail)),
            none: larger(self.none, sum(sum(less_one(self.lead), p.none), self.trail)),
            all: self.all,
            sure: false,
            most: p.most,
        }
    }

    // The profile with another bound on the cost of all.
    fn with_all(self, all: Option<u64>) -> Profile
        ensures { result ≡ with_all all self }
    {
        Profile { all, ..self }
    }

    /// The profile of a list each stop of which is replaced by a list.
    pub fn replaced(self, p: Profile) -> Profile
        ensures { result ≡ replaced self p }
    {
        self.replaced_by(p).with_all(all_replaced(self.all, p.all))
    }

    // The profile of a list each stop of which is replaced by a list, but for the cost of all.
    fn replaced_by(self, p: Profile) -> Profile
        ensures { result ≡ replaced_by self.most self p }
    {
        match self.most {
            Most::Never => self,
            Most::Once => if p.sure {
                self.replaced_sure(p)
            } else {
                self.replaced_once(p)
            },
            Most::Many => if p.sure {
                self.replaced_sure(p)
            } else {
                Profile::unbounded()
            },
        }
    }

    /// The profile of a list whose stops may be passed over.
    pub fn passed(self) -> Profile
        ensures { result ≡ passed self }
    {
        match self.most {
            Most::Never => self,
            Most::Once => Profile {
                none: larger(self.none, sum(self.lead, self.trail)),
                sure: false,
                ..self
            },
            Most::Many => Profile::unbounded().with_all(self.all),
        }
    }

    /// The profile of a list's first stop alone.
    pub fn once(self) -> Profile
        ensures { result ≡ once self }
    {
        if self.most.many() {
            Profile {
                between: Some(0),
                trail: less_one(self.all),
                most: Most::Once,
                ..self
            }
        } else {
            self
        }
    }

    /// The profile of a list whose stops but the first may be passed over.
    pub fn first_kept(self) -> Profile
        ensures { result ≡ first_kept self }
    {
        Profile {
            between: None,
            trail: None,
            ..self
        }
    }

    /// The greatest of the four bounds.
    pub fn greatest(self) -> Option<u64>
        ensures { result ≡ greatest self }
    {
        larger(
            larger(self.lead, self.between),
            larger(self.trail, self.none),
        )
    }
}
