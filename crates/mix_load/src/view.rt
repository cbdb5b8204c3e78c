// The view of many people: their names, an element for each person.
ghost use Rattle.std.specs.Prelude.{◌≡◌, ◌∷◌, [], IfOk, codes, string_bytes};
ghost use Rattle.path_expr.specs.Form.{name, none};
ghost use Rattle.xmas_rule.specs.RuleMade.{rule_of};
ghost use Rattle.xmas_rule.specs.Rules.{IsAccepted};
ghost use Rattle.mix_load.specs.View.{names_rule, names_element, names_condition, rows_condition, person_element};

use mix_tree::{Key, Label, Var};
use path_expr::{Node, Path};
use std::alloc::{AllocError, Global};
use xmas_rule::{Cond, Item, Rule, Template};

/// A text as a label.
pub(crate) fn label(alloc: Global, text: &str) -> Result<Label, AllocError>
    ensures { IfOk result (λ l. l ≡ text.now) }
{
    Label::of_text(alloc, text.as_bytes())
}

// The path of a label alone.
fn step(alloc: Global, text: &str) -> Result<Path, AllocError>
    ensures { IfOk result (λ path. path ≡ record { head = name text.now; members = none }) }
{
    Ok(Path::new(Node::Name(label(alloc, text)?)))
}

// The condition that finds the rows of people: `people people.row $R`.
fn rows_condition(alloc: Global) -> Result<Cond, AllocError>
    ensures { IfOk result (λ cond. cond ≡ rows_condition) }
{
    let people = step(alloc, "people")?;
    let row = step(alloc, "row")?;
    Ok(Cond::FromSource {
        source: 0,
        path: Path::new(Node::Seq(vec![in alloc; people, row]?)),
        var: Var::new(0),
    })
}

// The condition that finds the names of people: `$R name._ $N`.
fn names_condition(alloc: Global) -> Result<Cond, AllocError>
    ensures { IfOk result (λ cond. cond ≡ names_condition) }
{
    let name = step(alloc, "name")?;
    let any = Path::new(Node::Any);
    Ok(Cond::FromVar {
        start: Var::new(0),
        path: Path::new(Node::Seq(vec![in alloc; name, any]?)),
        var: Var::new(1),
    })
}

// The element of a person: `<p> $N </p> {$R,$N}`.
fn person_element(alloc: Global) -> Result<Template, AllocError>
    ensures { IfOk result (λ t. t ≡ person_element) }
{
    let name = Item::Node {
        var: Var::new(1),
        keys: Vec::new(alloc),
    };
    let keys = vec![in alloc; Key::Node(Var::new(0)), Key::Node(Var::new(1))]?;
    Ok(Template {
        label: label(alloc, "p")?,
        items: vec![in alloc; name]?,
        keys,
    })
}

// The outer element, in which the elements of all people are: `<names> .. </names> {}`.
fn names_element(alloc: Global) -> Result<Template, AllocError>
    ensures { IfOk result (λ t. t ≡ names_element) }
{
    let person = Item::Element(person_element(alloc)?);
    Ok(Template {
        label: label(alloc, "names")?,
        items: vec![in alloc; person]?,
        keys: Vec::new(alloc),
    })
}

// The conditions of the view of people's names.
fn conditions(alloc: Global) -> Result<Vec<Cond>, AllocError>
    ensures { IfOk result (λ conds. conds.items ≡ rows_condition ∷ names_condition ∷ []) }
{
    let rows = rows_condition(alloc)?;
    let names = names_condition(alloc)?;
    Ok(vec![in alloc; rows, names]?)
}

// The names of the variables of the view of people's names.
fn var_names(alloc: Global) -> Result<Vec<Label>, AllocError>
    ensures { IfOk result (λ names. names.items ≡ codes "R" ∷ codes "N" ∷ []) }
{
    let row = label(alloc, "R")?;
    let name = label(alloc, "N")?;
    Ok(vec![in alloc; row, name]?)
}

/// The view of the names of people:
/// `CONSTRUCT <names> <p> $N </p> {$R,$N} </names> {} WHERE people people.row $R AND $R name._ $N` over the one source `people`. It fails
/// where memory runs out.
pub fn names_rule(alloc: Global) -> Result<Rule, AllocError>
    ensures rule { IfOk result (λ rule. rule_of rule ≡ names_rule) }
    ensures accepted { IfOk result (λ rule. IsAccepted 1 (rule_of rule)) }
{
    let template = names_element(alloc)?;
    let conds = conditions(alloc)?;
    Ok(Rule {
        template,
        conds,
        order: None,
        names: var_names(alloc)?,
    })
}
