// Where in a rule a token stands.
ghost use Rattle.std.specs.Prelude.{◌≡◌, true, false};
ghost use Rattle.xmas_text.specs.Stages as stages;

use xmas_tokens::{Kind, Mark};

/// The item after which a token stands, inside an element.
#[derive(Clone, Copy)]
pub enum Last {
    /// None: the tag has just been opened.
    Nothing,
    /// An item; whether a group label may stand after it.
    Item(bool),
}

/// Where in a rule a token stands.
#[derive(Clone, Copy)]
pub enum Stage {
    /// Before `CONSTRUCT`.
    Beginning,
    /// After an item, or where the first one may stand.
    Items(Last),
    /// After `label` as an item.
    Labelled,
    /// Inside a group label; whether it has no key yet.
    Keys(bool),
    /// After a comma inside a group label.
    KeyComma,
    /// After `label` inside a group label.
    KeyLabel,
    /// Where a condition begins.
    CondStart,
    /// After the first word of a condition; whether that is a variable.
    CondFrom(bool),
    /// After a path.
    CondPath,
    /// After an operator.
    Compared,
    /// After a condition.
    CondDone,
    /// After `ORDER`.
    Ordering,
    /// After `BY`.
    OrderingBy,
    /// After the variable that orders; whether `DESC` may stand after it.
    Sorted(bool),
}

// Whether a token of the kind may come after an item, inside an element.
fn may_come_inside(last: Last, gap: bool, kind: Kind) -> bool
    ensures { result ≡ stages.may_come (Stage.Items last) true gap kind }
{
    match kind {
        Kind::OpenTag | Kind::Var | Kind::Quoted | Kind::Fixed(Mark::LabelWord) => match last {
            Last::Nothing => true,
            Last::Item(_) => gap,
        },
        Kind::CloseTag => true,
        Kind::Fixed(Mark::OpenBrace) => matches!(last, Last::Item(true)),
        _ => false,
    }
}

// Whether a token of the kind may come before the template or after it.
fn may_come_outside(last: Last, gap: bool, kind: Kind) -> bool
    ensures { result ≡ stages.may_come (Stage.Items last) false gap kind }
{
    match kind {
        Kind::OpenTag => matches!(last, Last::Nothing) && gap,
        Kind::Fixed(Mark::Where) => matches!(last, Last::Item(_)) && gap,
        Kind::Fixed(Mark::OpenBrace) => matches!(last, Last::Item(true)),
        _ => false,
    }
}

// Whether a token of the kind may come inside a group label, which has no key yet or one.
fn may_come_in_group(empty: bool, kind: Kind) -> bool
    ensures { result ≡ stages.may_come (Stage.Keys empty) false false kind }
{
    match kind {
        Kind::Var | Kind::Fixed(Mark::LabelWord) => empty,
        Kind::Fixed(Mark::Comma) => !empty,
        Kind::Fixed(Mark::CloseBrace) => true,
        _ => false,
    }
}

/// Whether a token of the kind may come: inside an element or not, and after a blank or not.
pub fn may_come(stage: Stage, inside: bool, gap: bool, kind: Kind) -> bool
    ensures { result ≡ stages.may_come stage inside gap kind }
{
    match stage {
        Stage::Beginning => matches!(kind, Kind::Fixed(Mark::Construct)),
        Stage::Items(last) if inside => may_come_inside(last, gap, kind),
        Stage::Items(last) => may_come_outside(last, gap, kind),
        Stage::Keys(empty) => may_come_in_group(empty, kind),
        Stage::KeyComma => matches!(kind, Kind::Var | Kind::Fixed(Mark::LabelWord)),
        Stage::CondStart => matches!(kind, Kind::Name | Kind::Var) && gap,
        Stage::CondFrom(by_var) => match kind {
            Kind::Path => gap,
            Kind::Operator => by_var,
            _ => false,
        },
        Stage::Compared => matches!(kind, Kind::Var | Kind::Quoted),
        Stage::Labelled | Stage::KeyLabel | Stage::CondPath | Stage::OrderingBy => {
            matches!(kind, Kind::Var) && gap
        }
        Stage::CondDone => matches!(kind, Kind::Fixed(Mark::And | Mark::Order)) && gap,
        Stage::Ordering => matches!(kind, Kind::Fixed(Mark::By)) && gap,
        Stage::Sorted(true) => matches!(kind, Kind::Fixed(Mark::Desc)) && gap,
        Stage::Sorted(false) => false,
    }
}

/// The stage after a token of the kind, which may come there.
pub fn stage_after(stage: Stage, kind: Kind) -> Stage
    ensures { result ≡ stages.stage_after stage kind }
{
    match (stage, kind) {
        (Stage::Beginning, Kind::Fixed(Mark::Construct)) | (Stage::Items(_), Kind::OpenTag) => {
            Stage::Items(Last::Nothing)
        }
        (Stage::Items(_), Kind::CloseTag | Kind::Var) | (Stage::Labelled, Kind::Var) => {
            Stage::Items(Last::Item(true))
        }
        (Stage::Items(_), Kind::Quoted) | (Stage::Keys(_), Kind::Fixed(Mark::CloseBrace)) => {
            Stage::Items(Last::Item(false))
        }
        (Stage::Items(_), Kind::Fixed(Mark::LabelWord)) => Stage::Labelled,
        (Stage::Items(_), Kind::Fixed(Mark::OpenBrace)) => Stage::Keys(true),
        (Stage::Items(_), Kind::Fixed(Mark::Where)) => Stage::CondStart,
        (Stage::Keys(_) | Stage::KeyComma | Stage::KeyLabel, Kind::Var) => Stage::Keys(false),
        (Stage::Keys(_) | Stage::KeyComma, Kind::Fixed(Mark::LabelWord)) => Stage::KeyLabel,
        (Stage::Keys(_), Kind::Fixed(Mark::Comma)) => Stage::KeyComma,
        (Stage::CondStart, Kind::Name) => Stage::CondFrom(false),
        (Stage::CondStart, Kind::Var) => Stage::CondFrom(true),
        (Stage::CondFrom(_), Kind::Path) => Stage::CondPath,
        (Stage::CondFrom(_), Kind::Operator) => Stage::Compared,
        (Stage::Compared, Kind::Var | Kind::Quoted) | (Stage::CondPath, Kind::Var) => {
            Stage::CondDone
        }
        (Stage::CondDone, Kind::Fixed(Mark::And)) => Stage::CondStart,
        (Stage::CondDone, Kind::Fixed(Mark::Order)) => Stage::Ordering,
        (Stage::Ordering, Kind::Fixed(Mark::By)) => Stage::OrderingBy,
        (Stage::OrderingBy, Kind::Var) => Stage::Sorted(true),
        (Stage::Sorted(_), Kind::Fixed(Mark::Desc)) => Stage::Sorted(false),
        _ => stage,
    }
}
