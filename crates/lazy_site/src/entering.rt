// Going into a value.
ghost use Rattle.std.specs.Prelude.{◌≡◌, IfOk, Some};
ghost use Rattle.lxp_core.specs.View.{View};
ghost use Rattle.lazy_plan.specs.Bench.{state_of};
ghost use Rattle.plan_forms.specs.Forms.{gathers_all};
ghost use Rattle.lazy_site.specs.Ids.{Stands, IsOrigin, IsRest, left, site_left};
ghost use Rattle.lazy_site.specs.Heights.{KeepsRank, origin_rank};
ghost use Rattle.lazy_site.specs.Standing.{EntersList, GroupStandsIn, MemberStandsIn};
ghost use Rattle.lazy_site.specs.declared.sites.Turn.TheVariants.{At};
ghost use Rattle.lazy_site.specs.Calls.{EnteringFalls, Enters, InEach, InGroup, InSome, IsPiecesOf, IsGroupMember, IsListMember, after_group, after_member};

use crate::origin::head_of;
use crate::sites::{Head, Origin, PiecesFrom, Rest, Site, Turn, put, share};
use crate::ways::{Ways, begin};
use lazy_plan::{Bench, Cursor, GroupFrom};
use plan_forms::input_of;
use std::alloc::{AllocError, Global};
use std::rc::Rc;

/// One turn that enters a value, with a rest after it.
pub(crate) fn enter(
    alloc: Global,
    bench: &Bench,
    origin: &Origin,
    after: &Rc<Rest>,
) -> Result<Turn, AllocError>
    requires bench { InSome bench.now (λ st. IsOrigin st origin.now × IsRest st after.now.value) }
    ensures answer { IfOk result (λ t. InEach bench.now (λ st. Enters st origin.now after.now.value t)) }
    ensures left { IfOk result (λ t. InEach bench.now (λ st. EnteringFalls st origin.now after.now.value t)) }
    ensures rank { IfOk result (KeepsRank (origin_rank origin.now) after.now.value) }
    ensures list { IfOk result (λ t. InEach bench.now (λ st. EntersList st origin.now after.now.value t)) }
{
    let up = share(after)?;
    match origin {
        Origin::Node(source, spot) => {
            let head = Head::Whole(*source, *spot);
            Ok(Turn::At(Site::Item { head, rest: up }))
        }
        Origin::Element { op, at } => {
            let at = at.again()?;
            let head = Head::Built { op: *op, at };
            Ok(Turn::At(Site::Item { head, rest: up }))
        }
        Origin::Joined { op, at } => {
            let ways = begin(alloc, input_of(bench.plan(), *op), at)?;
            let all = PiecesFrom {
                op: *op,
                at,
                next: 0,
            };
            Ok(Turn::On(rest_of_pieces(alloc, &all, ways, after)?))
        }
        Origin::All { op } => {
            let (op, at) = (*op, None);
            let members = Rest::Members { op, at, up };
            Ok(Turn::On(put(alloc, members)?))
        }
        Origin::Group { op, first, number } => {
            let group = GroupFrom {
                op: *op,
                number: *number,
                first,
                at: first,
                place: 0,
            };
            Ok(Turn::At(group_member(alloc, bench, &group, after)?))
        }
    }
}

/// The rest made of the pieces of a concatenation from one on, with ways from its cursor, and of what comes after them.
pub(crate) fn rest_of_pieces(
    alloc: Global,
    from: &PiecesFrom<'_>,
    ways: Ways,
    up: &Rc<Rest>,
) -> Result<Rc<Rest>, AllocError>
    ensures { IfOk result (λ r. IsPiecesOf from.now ways up.now.value r.value) }
{
    let at = from.at.again()?;
    let up = share(up)?;
    put(
        alloc,
        Rest::Pieces {
            op: from.op,
            at,
            next: from.next,
            ways,
            up,
        },
    )
}

/// The identifier at a member of a group, with the members and the rest after it.
pub(crate) fn group_member(
    alloc: Global,
    bench: &Bench,
    group: &GroupFrom<'_>,
    up: &Rc<Rest>,
) -> Result<Site, AllocError>
    requires bench { InSome bench.now (λ st. InGroup st group.now up.now.value) }
    ensures answer { IfOk result (λ n. InEach bench.now (λ st. IsGroupMember st group.now up.now.value n)) }
    ensures left { IfOk result (λ n. (v : View) → let st = state_of v bench.now in site_left st n ≡ after_group st group.now up.now.value) }
    ensures rank { IfOk result (λ n. KeepsRank group.now.op up.now.value (At n)) }
    ensures list { IfOk result (λ n. InEach bench.now (λ st. GroupStandsIn st group.now up.now.value n)) }
{
    let input = input_of(bench.plan(), group.op);
    let piece = PiecesFrom {
        op: group.op,
        at: group.at,
        next: 0,
    };
    let head = head_of(alloc, bench, &piece, input)?;
    let up = share(up)?;
    let first = group.first.again()?;
    let at = group.at.again()?;
    let rest = put(
        alloc,
        Rest::Group {
            op: group.op,
            first,
            number: group.number,
            at,
            place: group.place,
            up,
        },
    )?;
    Ok(Site::Item { head, rest })
}

/// The identifier at a member of a list of all bindings, with the members and the rest after it.
pub(crate) fn list_member(
    alloc: Global,
    bench: &Bench,
    op: u32,
    at: &Cursor,
    up: &Rc<Rest>,
) -> Result<Site, AllocError>
    requires bench { InSome bench.now (λ st. Stands st op gathers_all at.now × IsRest st up.now.value) }
    ensures answer { IfOk result (λ n. InEach bench.now (λ st. IsListMember st op at.now up.now.value n)) }
    ensures left { IfOk result (λ n. (view : View) → let st = state_of view bench.now in site_left st n ≡ after_member st op at.now up.now.value) }
    ensures rank { IfOk result (λ n. KeepsRank op up.now.value (At n)) }
    ensures list { IfOk result (λ n. InEach bench.now (λ st. MemberStandsIn st op at.now up.now.value n)) }
{
    let input = input_of(bench.plan(), op);
    let piece = PiecesFrom { op, at, next: 0 };
    let head = head_of(alloc, bench, &piece, input)?;
    let up = share(up)?;
    let at = at.again()?;
    let rest = put(
        alloc,
        Rest::Members {
            op,
            at: Some(at),
            up,
        },
    )?;
    Ok(Site::Item { head, rest })
}
