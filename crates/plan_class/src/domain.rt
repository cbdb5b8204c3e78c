// What the values of a variable can be.
ghost use Rattle.std.specs.Prelude.{◌≡◌};
ghost use Rattle.browse_class.specs.Facts.{one_item};
ghost use Rattle.plan_class.specs.Known.{node_domain, value_domain};

use browse_profile::{Most, Profile};
use browse_visit::Sorts;

/// What the values of a variable can be: of nodes, their source and what can stand below them; and the profile of a value's trees.
#[derive(Clone, Copy)]
pub struct Domain {
    pub source: u32,
    pub sorts: Sorts,
    pub trees: Profile,
}

/// The profile of one tree by itself.
pub fn one_item() -> Profile
    ensures { result ≡ one_item }
{
    Profile {
        lead: Some(0),
        between: Some(0),
        trail: Some(0),
        none: Some(0),
        all: None,
        sure: true,
        most: Most::Once,
    }
}

impl Domain {
    /// The domain of nodes of a source.
    pub fn of_nodes(source: u32, sorts: Sorts) -> Domain
        ensures { result ≡ node_domain source sorts }
    {
        Domain {
            source,
            sorts,
            trees: one_item(),
        }
    }

    /// Values with such trees that are no nodes.
    pub fn of_values(trees: Profile) -> Domain
        ensures { result ≡ value_domain trees }
    {
        Domain {
            source: 0,
            sorts: Sorts::none(),
            trees,
        }
    }
}
