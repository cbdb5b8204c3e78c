// What is known after what the bindings of an input go through.
ghost use Rattle.std.specs.Prelude.{◌≡◌, IfOk};
ghost use Rattle.plan_core.specs.Fronts.{covers as covers_keys};
ghost use Rattle.browse_class.specs.Facts.{group_profile};
ghost use Rattle.plan_class.specs.Known.{distinct_known, kept_known, group_known, grouped_known, selected_known, ordered_known, extended_known, piece_known, pieces_known};
ghost use Rattle.plan_class.specs.VarDomains.{domain_in};
ghost use Rattle.browse_profile.specs.Profiles.{costless};

use crate::domain::{Domain, one_item};
use crate::domains::Domains;
use crate::known::Known;
use crate::levels::{Levels, own_level};
use browse_profile::{Most, Profile, larger};
use mix_tree::{Key, Var, key_stands};
use plan_core::Piece;
use plan_core::front::{are_contiguous, shared};
use std::alloc::{AllocError, Global};

/// What is known after a comparison.
pub fn selected_known(alloc: Global, input: Known) -> Known
    ensures { result ≡ selected_known input }
{
    let profile = input.profile.passed();
    let levels = Levels::same(alloc, own_level(profile));
    Known::new(profile, input.keys, levels)
}

/// What is known after an order.
pub fn ordered_known(alloc: Global, input: Known) -> Known
    ensures { result ≡ ordered_known input }
{
    let levels = Levels::same(alloc, Profile::unbounded());
    Known::new(Profile::unbounded(), input.keys, levels)
}

/// What is known with one variable more, whose values have such trees.
pub fn extended_known(out: Var, trees: Profile, input: Known) -> Known
    ensures { result ≡ extended_known out trees input }
{
    let same = Known::new(input.profile, input.keys, input.levels);
    same.binding(out, Domain::of_values(trees))
}

// Whether what agrees by the first keys agrees by the others.
fn covers(keys: &[Key], others: &[Key]) -> bool
    ensures { result ≡ covers_keys keys.now others.now }
{
    others.iter().all(|key| key_stands(keys, key))
}

// The profile where bindings whose keys were seen are passed over, over an input with a front of these variables.
fn distinct_profile(keys: &[Key], vars: &[Var], input: &Known) -> Profile
    ensures { result ≡ distinct_known keys.now vars.now input.now }
{
    if !input.profile.most.many() || covers(keys, &input.keys) {
        input.profile
    } else if are_contiguous(keys, vars) {
        input.levels.at(shared(keys, vars).len())
    } else {
        input.profile.first_kept()
    }
}

/// The first bindings by keys, over an input with a front of these variables. `Err`: memory.
pub fn kept_known(
    alloc: Global,
    keys: &[Key],
    vars: &[Var],
    input: Known,
) -> Result<Known, AllocError>
    ensures { IfOk result (λ k. k ≡ kept_known keys.now vars.now input) }
{
    let profile = distinct_profile(keys, vars, &input);
    let own = Vec::from_slice(alloc, keys)?;
    Ok(Known::new(profile, own, input.levels))
}

// The list of a group by keys, which ends at the first other key where it stops.
fn group_profile(stops: bool, input: Profile) -> Profile
    ensures { result ≡ group_profile stops input }
{
    let many = input.most.many();
    let (between, trail) = if !many {
        (Some(0), input.trail)
    } else if stops {
        (input.between, larger(input.between, input.trail))
    } else {
        (None, None)
    };
    Profile {
        lead: Some(0),
        between,
        trail,
        none: Some(0),
        all: None,
        sure: true,
        most: if many { Most::Many } else { Most::Once },
    }
}

/// The groups by keys, each with its list, over an input with a front of these variables. `Err`: memory.
pub fn grouped_known(
    alloc: Global,
    keys: &[Key],
    vars: &[Var],
    out: Var,
    input: Known,
) -> Result<Known, AllocError>
    ensures { IfOk result (λ k. k ≡ grouped_known keys.now vars.now out input) }
{
    let list = group_profile(are_contiguous(keys, vars), input.profile);
    let kept = kept_known(alloc, keys, vars, input)?;
    Ok(kept.binding(out, Domain::of_values(list)))
}

/// One group of all, with its list.
pub fn group_known(alloc: Global, out: Var, input: &Known) -> Known
    ensures { result ≡ group_known out input.now }
{
    let levels = Levels::same(alloc, Profile::unbounded());
    let one = Known::new(Profile::one_binding(), Vec::new(alloc), levels);
    one.binding(out, Domain::of_values(input.profile))
}

// The profile of the trees of a piece.
fn piece_profile(domains: &Domains, piece: &Piece) -> Profile
    ensures { result ≡ piece_known (domain_in domains.now) piece.now }
{
    match piece {
        Piece::Var(v) => domains.of(*v).trees,
        Piece::LabelOf(_) | Piece::Text(_) => one_item(),
    }
}

/// The trees of pieces, one after another.
pub fn pieces_profile(domains: &Domains, pieces: &[Piece]) -> Profile
    ensures { result ≡ pieces_known (domain_in domains.now) costless pieces.now }
{
    let mut found = Profile::costless();
    'pieces: for piece in pieces {
        found = found.in_turn(piece_profile(domains, piece));
    }
    found
}
