// The first node of what is after another.
ghost use Rattle.std.specs.Prelude.{IfOk};
ghost use Rattle.lazy_plan.specs.Bench.{state_of, IsBenchOf, ops_of};
ghost use Rattle.lazy_steps.specs.Steps.{HasCause};
ghost use Rattle.lazy_site.specs.Ids.{IsRest, rest_trees, left};
ghost use Rattle.lazy_site.specs.Steps.{Reaches, Falls};
ghost use Rattle.lazy_site.specs.Heights.{GivesRanked, KeepsRank, TurnsRanked, rest_rank};
ghost use Rattle.lazy_site.specs.Standing.{PiecesTurnIn, ReachesIn, RestTurnsIn};
ghost use Rattle.lazy_site.specs.Calls.{Between, HasFewer, InEach, InPieces, InSome, PiecesFall, TurnsPieces, TurnsRest, WalkedTo};

use crate::entering::{enter, rest_of_pieces};
use crate::members::{group, members};
use crate::origin::head_of;
use crate::sites::{MembersFrom, PiecesFrom, Rest, Site, Turn, share};
use crate::ways::{Ways, again, found_along};
use lazy_plan::{Bench, Cursor, GroupFrom, WalkFault};
use lxp_core::Sources;
use plan_core::Piece;
use plan_forms::{count_pieces, input_of, piece};
use std::alloc::{AllocError, Global};
use std::rc::Rc;

/// The first node of a rest, turn by turn.
pub(crate) fn first_node<S: Sources>(
    alloc: Global,
    bench: &mut Bench,
    s: &mut S,
    rest: &Rc<Rest>,
) -> Result<Option<Site>, WalkFault>
    requires bench { IsBenchOf (S.view s.old) bench.old }
    requires rest { IsRest (state_of (S.view s.old) bench.old) rest.now.value }
    ensures walked { WalkedTo S.view S.came_from s.old bench.old s.new bench.new (λ st. rest_trees st rest.now.value) }
    ensures cause { HasCause (ops_of (state_of (S.view s.old) bench.old)) (S.view s.old) (S.view s.new) result }
    ensures answer { Between S.view s.old bench.old s.new bench.new (λ old new. IfOk result (Reaches old new (rest_trees old rest.now.value))) }
    ensures left { Between S.view s.old bench.old s.new bench.new (λ old new. IfOk result (HasFewer (left old rest.now.value) new)) }
    ensures rank { IfOk result (GivesRanked (rest_rank rest.now.value)) }
    ensures list { Between S.view s.old bench.old s.new bench.new (λ old new. IfOk result (ReachesIn old new rest.now.value)) }
{
    let mut now = share(rest)?;
    'turns: loop {
        match turn(alloc, bench, s, &now)? {
            Turn::Over => return Ok(None),
            Turn::At(n) => return Ok(Some(n)),
            Turn::On(next) => now = next,
        }
    }
}

/// One turn over a rest: it enters one list or piece.
fn turn<S: Sources>(
    alloc: Global,
    bench: &mut Bench,
    s: &mut S,
    rest: &Rc<Rest>,
) -> Result<Turn, WalkFault>
    requires bench { IsBenchOf (S.view s.old) bench.old }
    requires rest { IsRest (state_of (S.view s.old) bench.old) rest.now.value }
    ensures walked { WalkedTo S.view S.came_from s.old bench.old s.new bench.new (λ st. rest_trees st rest.now.value) }
    ensures cause { HasCause (ops_of (state_of (S.view s.old) bench.old)) (S.view s.old) (S.view s.new) result }
    ensures answer { Between S.view s.old bench.old s.new bench.new (λ old new. IfOk result (TurnsRest old new rest.now.value)) }
    ensures left { Between S.view s.old bench.old s.new bench.new (λ old new. IfOk result (Falls (left old rest.now.value) new)) }
    ensures rank { IfOk result (TurnsRanked (rest_rank rest.now.value)) }
    ensures list { Between S.view s.old bench.old s.new bench.new (λ old new. IfOk result (RestTurnsIn old new rest.now.value)) }
{
    let rest: &Rest = rest;
    match rest {
        Rest::End => Ok(Turn::Over),
        Rest::Pieces {
            op,
            at,
            next,
            ways,
            up,
        } => {
            let from = PiecesFrom {
                op: *op,
                at,
                next: *next,
            };
            Ok(pieces(alloc, bench, &from, ways, up)?)
        }
        Rest::Members { op, at, up } => members(alloc, bench, s, &MembersFrom { op: *op, at }, up),
        Rest::Group {
            op,
            first,
            number,
            at,
            place,
            up,
        } => {
            let from = GroupFrom {
                op: *op,
                number: *number,
                first,
                at,
                place: *place,
            };
            group(alloc, bench, s, &from, up)
        }
    }
}

/// One turn over the pieces of a concatenation from one on, and over what comes after them.
fn pieces(
    alloc: Global,
    bench: &Bench,
    from: &PiecesFrom<'_>,
    ways: &Ways,
    up: &Rc<Rest>,
) -> Result<Turn, AllocError>
    requires bench { InSome bench.now (λ st. InPieces st from.now ways.now up.now.value) }
    ensures answer { IfOk result (λ t. InEach bench.now (λ st. TurnsPieces st from.now ways.now up.now.value t)) }
    ensures left { IfOk result (λ t. InEach bench.now (λ st. PiecesFall st from.now ways.now up.now.value t)) }
    ensures rank { IfOk result (KeepsRank from.now.op up.now.value) }
    ensures list { IfOk result (λ t. InEach bench.now (λ st. InPieces st from.now ways.now up.now.value
        → PiecesTurnIn st from.now ways.now up.now.value t)) }
{
    if from.next == count_pieces(bench.plan(), from.op) {
        return Ok(Turn::On(share(up)?));
    }
    let later = PiecesFrom {
        next: from.next + 1,
        ..*from
    };
    match piece(bench.plan(), from.op, from.next) {
        Piece::Var(v) => {
            let found = found_along(alloc, bench, ways, *v)?;
            let after = rest_of_pieces(alloc, &later, found.ways, up)?;
            enter(alloc, bench, &found.origin, &after)
        }
        _ => {
            let input = input_of(bench.plan(), from.op);
            let head = head_of(alloc, bench, from, input)?;
            let rest = rest_of_pieces(alloc, &later, again(ways)?, up)?;
            Ok(Turn::At(Site::Item { head, rest }))
        }
    }
}
