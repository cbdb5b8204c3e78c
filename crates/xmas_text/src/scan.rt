// Whether a text is a rule, and where it stops to be one.
ghost use Rattle.std.specs.Prelude.{◌≡◌, ◌<◌, ◌≤◌, ◌+◌, ◌^◌, IfSome, IsUtf8, option_map};
ghost use Rattle.xmas_text.specs.Machine.{start};
ghost use Rattle.xmas_tokens.specs.Parts.{part_depth, first_keyword, first_item, first_path, first_word, first_part};
ghost use Rattle.xmas_text.specs.Results.{Scans};
ghost use Rattle.xmas_text.specs.Ends.{EndsSo};
ghost use Rattle.xmas_text.specs.Scans as scans;
ghost use Rattle.xmas_text.specs.Stages as stages;

use crate::TextFault;
use crate::stage::{Stage, may_come, stage_after};
use path_expr::{Scan as PathScan, is_name, scan_byte as scan_path_byte};
use xmas_tokens::{Kind, Mark, Part, Sign, ended_kind, is_blank_byte, next_part};

// The most levels of elements that a rule may have.
const LEVELS: usize = 20;

/// What a scan keeps of the text after it.
#[derive(Clone, Copy)]
pub struct Scan {
    /// Where the token at hand stands.
    pub stage: Stage,
    /// How many elements are open.
    pub depth: usize,
    /// Whether more than 20 were open at once.
    pub deep: bool,
    /// Whether a blank stands before the token at hand.
    pub gap: bool,
    /// What has been read of the token at hand.
    pub part: Part,
}

impl Scan {
    /// The scan before a text.
    pub fn new() -> Scan
        ensures { result ≡ scans.scan_of start }
    {
        Scan {
            stage: Stage::Beginning,
            depth: 0,
            deep: false,
            gap: false,
            part: Part::Between,
        }
    }
}

// Whether a token of the kind may come.
fn may_now(scan: Scan, kind: Kind) -> bool
    ensures { result ≡ scans.may_now scan kind }
{
    may_come(scan.stage, scan.depth > 0, scan.gap, kind)
}

// Whether a token that is always the same may come.
fn may_mark(scan: Scan, mark: Mark) -> bool
    ensures { result ≡ scans.may_now scan (Kind.Fixed mark) }
{
    may_now(scan, Kind::Fixed(mark))
}

// The first byte of a keyword, of those that may come.
fn begin_keyword(scan: Scan, byte: u8) -> Option<Part>
    ensures { result ≡ first_keyword (scans.may_now scan) byte }
{
    let mark = match byte {
        b'C' if may_mark(scan, Mark::Construct) => Mark::Construct,
        b'W' if may_mark(scan, Mark::Where) => Mark::Where,
        b'A' if may_mark(scan, Mark::And) => Mark::And,
        b'O' if may_mark(scan, Mark::Order) => Mark::Order,
        b'B' if may_mark(scan, Mark::By) => Mark::By,
        b'D' if may_mark(scan, Mark::Desc) => Mark::Desc,
        _ => return None,
    };
    Some(Part::Marking(mark, 1))
}

// The first byte of a tag, of an item or of a part of a group label, of those that may come.
fn begin_item(scan: Scan, byte: u8) -> Option<Part>
    ensures { result ≡ first_item (scans.may_now scan) byte }
{
    let may_open = may_now(scan, Kind::OpenTag);
    let may_close = may_now(scan, Kind::CloseTag);
    match byte {
        b'l' if may_mark(scan, Mark::LabelWord) => Some(Part::Marking(Mark::LabelWord, 1)),
        b'{' if may_mark(scan, Mark::OpenBrace) => Some(Part::Marking(Mark::OpenBrace, 1)),
        b'}' if may_mark(scan, Mark::CloseBrace) => Some(Part::Marking(Mark::CloseBrace, 1)),
        b',' if may_mark(scan, Mark::Comma) => Some(Part::Marking(Mark::Comma, 1)),
        b'<' if may_open || may_close => Some(Part::Angle(may_open, may_close)),
        b'$' if may_now(scan, Kind::Var) => Some(Part::Dollar),
        b'"' if may_now(scan, Kind::Quoted) => Some(Part::Quoting),
        _ => None,
    }
}

// The first byte of a path, where one may come.
fn begin_path(scan: Scan, byte: u8) -> Option<Part>
    ensures step { result ≡ first_path (scans.may_now scan Kind.Path) byte }
    ensures depth { IfSome result (λ p. part_depth p ≤ 1) }
{
    if !may_now(scan, Kind::Path) {
        return None;
    }
    Some(Part::Pathing(scan_path_byte(PathScan::new(), byte)?))
}

// The first byte of an operator, a name or a path, of those that may come.
fn begin_word(scan: Scan, byte: u8) -> Option<Part>
    ensures step { result ≡ first_word (scans.may_now scan) byte }
    ensures depth { IfSome result (λ p. part_depth p ≤ 1) }
{
    let may_compare = may_now(scan, Kind::Operator);
    match byte {
        b'=' if may_compare => Some(Part::Ready(Kind::Operator)),
        b'!' if may_compare => Some(Part::Comparing(Sign::Bang)),
        b'<' if may_compare => Some(Part::Comparing(Sign::Less)),
        b'>' if may_compare => Some(Part::Comparing(Sign::Greater)),
        _ if is_name(byte) && may_now(scan, Kind::Name) => Some(Part::Naming),
        _ => begin_path(scan, byte),
    }
}

// The first byte of a token, of those that may come.
fn begin_part(scan: Scan, byte: u8) -> Option<Part>
    ensures step { result ≡ first_part (scans.may_now scan) byte }
    ensures depth { IfSome result (λ p. part_depth p ≤ 1) }
{
    if let Some(part) = begin_keyword(scan, byte) {
        return Some(part);
    }
    if let Some(part) = begin_item(scan, byte) {
        return Some(part);
    }
    begin_word(scan, byte)
}

// The scan after a byte that begins a token or stands between two.
fn scan_between(scan: Scan, byte: u8) -> Option<Scan>
    ensures step { result ≡ scans.between_step scan byte }
    ensures depth { IfSome result (λ next. next.depth ≤ scan.depth) }
    ensures part { IfSome result (λ next. part_depth next.part ≤ 1) }
{
    let (gap, part) = if is_blank_byte(byte) {
        (true, Part::Between)
    } else {
        (scan.gap, begin_part(scan, byte)?)
    };
    Some(Scan {
        stage: scan.stage,
        depth: scan.depth,
        deep: scan.deep,
        gap,
        part,
    })
}

// How many elements are open after a token, and whether more than 20 were.
fn depth_after(scan: Scan, kind: Kind) -> (usize, bool)
    requires { scan.depth + 1 < 2 ^ 64 }
    ensures depth { result.0 ≡ stages.depth_after scan.depth kind }
    ensures deep { result.1 ≡ scans.deep_after scan.deep scan.depth kind }
    ensures more { result.0 ≤ scan.depth + 1 }
{
    match kind {
        Kind::OpenTag => (scan.depth + 1, scan.deep || scan.depth + 1 > LEVELS),
        Kind::CloseTag => (scan.depth.saturating_sub(1), scan.deep),
        _ => (scan.depth, scan.deep),
    }
}

// The scan after a token.
fn scan_after(scan: Scan, kind: Kind) -> Scan
    requires { scan.depth + 1 < 2 ^ 64 }
    ensures step { result ≡ scans.scan_after scan kind }
    ensures depth { result.depth ≤ scan.depth + 1 }
{
    let (depth, deep) = depth_after(scan, kind);
    Scan {
        stage: stage_after(scan.stage, kind),
        depth,
        deep,
        gap: false,
        part: Part::Between,
    }
}

/// The scan after the token that ends here; between tokens the scan itself; `None` where no token may end.
pub fn settle(scan: Scan) -> Option<Scan>
    requires { scan.depth + 1 < 2 ^ 64 }
    ensures step { result ≡ scans.settled scan }
    ensures depth { IfSome result (λ next. next.depth ≤ scan.depth + 1) }
{
    if let Part::Between = scan.part {
        return Some(scan);
    }
    Some(scan_after(scan, ended_kind(scan.part)?))
}

/// The scan after one more byte; `None` where no rule's text goes on with it.
pub fn scan_byte(scan: Scan, byte: u8) -> Option<Scan>
    requires depth { scan.depth + 1 < 2 ^ 64 }
    requires part { part_depth scan.part + 1 < 2 ^ 64 }
    ensures step { result ≡ scans.scan_step scan byte }
    ensures depth { IfSome result (λ next. next.depth ≤ scan.depth + 1) }
    ensures part { IfSome result (λ next. part_depth next.part ≤ part_depth scan.part + 1) }
{
    if let Some(part) = next_part(scan.part, byte) {
        return Some(Scan {
            stage: scan.stage,
            depth: scan.depth,
            deep: scan.deep,
            gap: scan.gap,
            part,
        });
    }
    scan_between(settle(scan)?, byte)
}

// Whether a rule may end at the stage.
fn may_end_at(stage: Stage) -> bool
    ensures { result ≡ scans.may_end_at stage }
{
    matches!(stage, Stage::CondDone | Stage::Sorted(_))
}

// What is said of a text, by where the scan stands at its end.
fn end_scan(scan: Scan) -> Result<(), TextFault>
    requires { scan.depth + 1 < 2 ^ 64 }
    ensures { EndsSo (scans.settled scan) result }
{
    let Some(after) = settle(scan) else {
        return Err(TextFault::EndsEarly);
    };
    if !may_end_at(after.stage) {
        return Err(TextFault::EndsEarly);
    }
    if after.deep {
        return Err(TextFault::TooDeep);
    }
    Ok(())
}

/// Passes over a rule's text. The error says where it stops to be one, or that it has more than 20 levels of elements.
pub fn scan_rule(text: &[u8]) -> Result<(), TextFault>
    requires { IsUtf8 text.now }
    ensures { Scans text.now result }
{
    let mut scan = Scan::new();
    for at in 0..text.len() {
        let Some(next) = scan_byte(scan, text[at]) else {
            return Err(TextFault::Unexpected(at));
        };
        scan = next;
    }
    end_scan(scan)
}
