// The label of a node.
ghost use Rattle.std.specs.Prelude.{◌≡◌, ◌<◌, IsTrue, Some, length};
ghost use Rattle.mix_tree.specs.Nodes.{Documents};
ghost use Rattle.plan_core.specs.PlanMade.{plan_value};
ghost use Rattle.plan_core.specs.Typed.{IsTyped};
ghost use Rattle.plan_core.specs.Valid.{IsValid, kinds, an_element};
ghost use Rattle.plan_core.specs.Tolled.{is_item, item_label};
ghost use Rattle.plan_core.specs.Events.{tolled_document};
ghost use Rattle.lazy_plan.specs.Bench.{told};
ghost use Rattle.lazy_site.specs.Ids.{IsHead, head_label, IsSite, here};
ghost use Rattle.lazy_site.specs.Labels.{labels};
ghost use Rattle.lazy_site.specs.Calls.{InEach, InSome};

use crate::origin::passed_on;
use crate::sites::{Head, Site};
use lazy_plan::Bench;
use mix_tree::{Label, Var};
use plan_core::{Plan, valid_plans_are_typed};
use plan_forms::{element_label, last, piece, text};

/// The label of the node at which an identifier stands.
pub fn label_of<'a>(bench: &'a Bench, site: &Site) -> &'a Label
    requires site { InSome bench.now (λ st. IsSite st site.now) }
    ensures { InEach bench.now (λ st. let tree = here st site.now in
        IsSite st site.now → IsTrue (told st) → IsTrue (is_item tree) → result.now ≡ item_label tree) }
{
    match site {
        Site::Root => root_label(bench.plan()),
        Site::Inside(source, p) => bench.label(*source, p),
        Site::Item { head, .. } => head_label(bench, head),
    }
}

/// The label of a member of a list that the plan makes.
fn head_label<'a>(bench: &'a Bench, head: &Head) -> &'a Label
    requires head { InSome bench.now (λ st. IsHead st head.now) }
    ensures { InEach bench.now (λ st. IsHead st head.now → IsTrue (told st) → result.now ≡ head_label st head.now) }
{
    match head {
        Head::Whole(source, p) => bench.label(*source, p),
        Head::Built { op, .. } => element_label(bench.plan(), *op),
        Head::Leaf(source, p) => bench.label(*source, p),
        Head::Text { op, index } => text(piece(bench.plan(), *op, *index)),
    }
}

/// The label of the root, over any documents.
fn root_label(plan: &Plan) -> &Label
    requires { IsValid (plan_value plan.now) }
    ensures { (docs : Documents) → let d = tolled_document docs (plan_value plan.now).ops in IsTrue (is_item d) → result.now ≡ item_label d }
{
    valid_plans_are_typed();
    let (input, element) = last(plan);
    made_label(plan, input, element)
}

/// The label of the element that a variable holds in each binding.
fn made_label(plan: &Plan, op: u32, v: Var) -> &Label
    requires valid { IsValid (plan_value plan.now) }
    requires typed { IsTyped (plan_value plan.now).ops }
    requires op { op < length (plan_value plan.now).ops }
    requires element { kinds (plan_value plan.now).ops op v ≡ Some an_element }
    ensures { labels (plan_value plan.now).ops op v ≡ Some (Some result.now) }
{
    let mut at = op;
    'makers: loop {
        match passed_on(plan, at, v) {
            None => return element_label(plan, at),
            Some(input) => at = input,
        }
    }
}
