// Building the tree of a rule whose text is known to be one.
ghost use Rattle.std.specs.Prelude.{◌≡◌, ◌<◌, ◌≤◌, ◌+◌, ◌^◌, ◌∷◌, [], length, slice_range, IfOk, IsUtf8};
ghost use Rattle.xmas_text.specs.Building.{build_in, IsEnded, EndsToken, place_after, CanBuild, Builds, IsOneElement, tree_of};
ghost use Rattle.xmas_text.specs.Drafts.{draft_in};
ghost use Rattle.xmas_text.specs.Grammar.{Rule, Writes};
ghost use Rattle.xmas_text.specs.Results.{Spells, form_of};

use crate::draft::{Built, Draft};
use crate::element::{ElementText, ItemText};
use crate::rule::RuleText;
use crate::scan::{Scan, scan_byte};
use crate::shift::shift;
use std::alloc::{AllocError, Global};
use xmas_tokens::{Part, ended_kind, next_part, read_lexeme};

/// What is kept of the text after a place.
#[derive(Drop)]
pub struct Build {
    /// The scan of the text up to the place.
    pub scan: Scan,
    /// Where the token at hand begins; between tokens the place itself.
    pub from: usize,
    /// The rule before the token at hand.
    pub draft: Draft,
}

// The draft after the token that ends, where one does, which begins at a place.
fn end_token(
    alloc: Global,
    draft: Draft,
    part: Part,
    from: usize,
    text: &[u8],
) -> Result<Draft, AllocError>
    requires utf8 { IsUtf8 text.now }
    requires ended { IsEnded part text.now }
    ensures { IfOk result (λ d. EndsToken part text.now from (draft_in draft) (draft_in d)) }
{
    let Some(kind) = ended_kind(part) else {
        return Ok(draft);
    };
    match read_lexeme(alloc, kind, text) {
        Ok(token) => shift(alloc, draft, from, token),
        Err(error) => {
            // The draft is given to `drop`, so that how its parts are dropped is proved once.
            drop(draft);
            Err(error)
        }
    }
}

// Where the token at hand begins, after a byte that did not go on with one.
fn begins_at(at: usize, part: Part) -> usize
    requires { at + 1 < 2 ^ 64 }
    ensures { result ≡ place_after at part }
{
    match part {
        Part::Between => at + 1,
        _ => at,
    }
}

// What is kept of the text after one more byte.
fn build_byte(alloc: Global, build: Build, text: &[u8], at: usize) -> Result<Build, AllocError>
    requires { CanBuild text.now at (build_in build) }
    ensures { IfOk result (λ b. Builds text.now at (build_in build) (build_in b)) }
{
    let Build { scan, from, draft } = build;
    let byte = text[at];
    let Some(next) = scan_byte(scan, byte) else {
        unreachable!()
    };
    if let Some(_) = next_part(scan.part, byte) {
        return Ok(Build {
            scan: next,
            from,
            draft,
        });
    }
    let draft = end_token(alloc, draft, scan.part, from, &text[from..at])?;
    let from = begins_at(at, next.part);
    Ok(Build {
        scan: next,
        from,
        draft,
    })
}

// The draft after the end of the text.
fn end_build(alloc: Global, build: Build, text: &[u8]) -> Result<Draft, AllocError>
    requires order { build.from ≤ length text.now }
    requires utf8 { IsUtf8 (slice_range text.now build.from (length text.now)) }
    requires ended { IsEnded build.scan.part (slice_range text.now build.from (length text.now)) }
    ensures { IfOk result (λ d. EndsToken build.scan.part (slice_range text.now build.from (length text.now)) build.from (draft_in build.draft) (draft_in d)) }
{
    let Build { scan, from, draft } = build;
    end_token(alloc, draft, scan.part, from, &text[from..text.len()])
}

// The only item, an element.
fn only_element(mut items: Vec<ItemText>) -> ElementText
    requires { IsOneElement items.items }
    ensures { items.items ≡ ItemText.Element result ∷ [] }
{
    let Some(ItemText::Element(element)) = items.pop() else {
        unreachable!()
    };
    element
}

// The rule of a draft whose items are its template.
fn finish(draft: Draft) -> RuleText
    requires { IsOneElement (draft_in draft).built.items }
    ensures { form_of result ≡ tree_of (draft_in draft) }
{
    let Draft { built, pending } = draft;
    // What is pending is given to `drop`, so that how its parts are dropped is proved once.
    drop(pending);
    let Built {
        open,
        items,
        conds,
        order,
    } = built;
    drop(open);
    RuleText {
        template: only_element(items),
        conds,
        order,
    }
}

/// Builds the tree that a text spells.
pub fn build_rule(alloc: Global, text: &[u8]) -> Result<RuleText, AllocError>
    requires utf8 { IsUtf8 text.now }
    requires rule { (r : Rule) × Writes text.now r }
    ensures { IfOk result (λ t. Spells text.now (form_of t)) }
{
    let mut build = Build {
        scan: Scan::new(),
        from: 0,
        draft: Draft::new(alloc),
    };
    for at in 0..text.len() {
        build = build_byte(alloc, build, text, at)?;
    }
    let draft = end_build(alloc, build, text)?;
    Ok(finish(draft))
}
