// The visit of many people: the view of their names, walked from the first to the last and printed, by the commands of a session.
ghost use Rattle.std.specs.Prelude.{◌≡◌, List, [], ℕ, IfOk};
ghost use Rattle.mix_mount.specs.Mounts.{IsAlone, mounted_in};
ghost use Rattle.table_keep.specs.Untold.{no_tables_view};
ghost use Rattle.mix_script.specs.declared.answer.Answer.TheVariants as answers;
ghost use Rattle.mix_load.specs.People.{people_tree};
ghost use Rattle.mix_load.specs.Visit.{IsVisit};

use crate::nodes::count_nodes;
use crate::source::people_document;
use crate::view::{label, names_rule};
use lazy_value::Mediator;
use lazy_walk::valid_plans_have_documents;
use mix_mount::{Mount, Mounted};
use mix_script::{Act, Answer, Step, Text, Way};
use mix_session::Session;
use plan_core::visited_are_matches;
use plan_rewrite::plan_view;
use std::alloc::{AllocError, Global};
use table_keep::NoTables;

/// What a visit of many people comes to.
#[derive(Clone, Copy, Debug)]
pub struct Visit {
    /// How many commands the visit took.
    pub commands: u64,
    /// How many nodes the printed tree has.
    pub nodes: usize,
    /// How many bytes the text of the printed tree has.
    pub bytes: usize,
}

/// Who walks the names of people: a session, its sources, and how many commands it has answered.
#[derive(Drop)]
pub struct Visitor {
    sources: Mounted<NoTables>,
    session: Session<Mediator>,
    commands: u64,
}

// The document of `count` people, mounted as the only source.
fn mount_people(alloc: Global, count: u32) -> Result<Mounted<NoTables>, AllocError>
    ensures { IfOk result (λ sources. IsAlone (mounted_in no_tables_view sources) (people_tree count)) }
{
    match people_document(alloc, count) {
        Ok(doc) => Ok(Mounted::new(vec![in alloc; Mount::Csv(doc)]?, NoTables::new())),
        Err(_) => Err(AllocError),
    }
}

// The text that an answer gives; the empty text where it gives none.
fn text_of(alloc: Global, answer: Answer) -> Text
    ensures { (x : List ℕ) → answer ≡ answers.Text x → result ≡ x }
{
    match answer {
        Answer::Text(text) => text,
        _ => Text::new(Vec::new(alloc)),
    }
}

impl Visitor {
    ghost use Rattle.std.specs.Prelude.{◌+◌, ◌<◌, ◌^◌, IsTrue, OnOk};
    ghost use Rattle.mix_tree.specs.Forest.{LabelledTree};
    ghost use Rattle.bracket_text.specs.Canonical.{canon};
    ghost use Rattle.mix_script.specs.Names.{no_names};
    ghost use Rattle.mix_script.specs.Steps.{is_plain};
    ghost use Rattle.mix_script.specs.Transcript.{Names};
    ghost use Rattle.mix_load.specs.Visit.{Answers, AreNames, IsOn, HoldsRoot};

    // A visitor to the names of `count` people, who has taken no command yet.
    fn open(alloc: Global, count: u32) -> Result<Visitor, AllocError>
        ensures on { IfOk result (λ visitor. (t : LabelledTree) × AreNames count t × IsOn t no_names visitor) }
        ensures commands { IfOk result (λ visitor. visitor.commands ≡ 0) }
    {
        visited_are_matches();
        valid_plans_have_documents();
        let sources = mount_people(alloc, count)?;
        let rule = names_rule(alloc)?;
        let plan = plan_view(alloc, &rule, &[label(alloc, "people")?])?;
        let mediator = Mediator::open(alloc, plan, &sources)?;
        Ok(Visitor {
            sources,
            session: Session::open(alloc, mediator),
            commands: 0,
        })
    }

    // Takes a command of the client without a name, which neither writes an identifier down nor follows one, and counts it.
    fn take(&mut self, alloc: Global, act: Act) -> Result<Answer, AllocError>
        requires on { (t : LabelledTree) × (places : Names) × IsOn t places self.old }
        requires plain { IsTrue (is_plain act) }
        requires room { self.old.commands + 1 < 2 ^ 64 }
        ensures answer { IfOk result (Answers self.old self.new act) }
        ensures commands { OnOk result (self.new.commands ≡ self.old.commands + 1) }
    {
        let step = Step {
            client: label(alloc, "")?,
            act,
        };
        let answered = self.session.step(alloc, &mut self.sources, &step);
        // It is given to `drop`, so that how its parts are dropped is proved once.
        drop(step);
        let answer = answered?;
        self.commands += 1;
        Ok(answer)
    }

    // Lets the name r hold the root.
    fn start(&mut self, alloc: Global) -> Result<(), AllocError>
        requires on { (t : LabelledTree) × (places : Names) × IsOn t places self.old }
        requires room { self.old.commands + 1 < 2 ^ 64 }
        ensures root { OnOk result ((t : LabelledTree) (places : Names) → IsOn t places self.old → HoldsRoot t self.new) }
        ensures commands { OnOk result (self.new.commands ≡ self.old.commands + 1) }
    {
        let name = label(alloc, "r")?;
        self.take(alloc, Act::Root { name })?;
        Ok(())
    }

    // Lets the name x hold the node to which a way leads from that of a name, or nothing.
    fn go(&mut self, alloc: Global, way: Way, from: &str) -> Result<(), AllocError>
        requires root { (t : LabelledTree) × HoldsRoot t self.old }
        requires room { self.old.commands + 1 < 2 ^ 64 }
        ensures root { OnOk result ((t : LabelledTree) → HoldsRoot t self.old → HoldsRoot t self.new) }
        ensures commands { OnOk result (self.new.commands ≡ self.old.commands + 1) }
    {
        let name = label(alloc, "x")?;
        let from = label(alloc, from)?;
        self.take(alloc, Act::Move { way, name, from })?;
        Ok(())
    }

    // Prints the subtree of the root.
    fn print(&mut self, alloc: Global) -> Result<Text, AllocError>
        requires root { (t : LabelledTree) × HoldsRoot t self.old }
        requires room { self.old.commands + 1 < 2 ^ 64 }
        ensures text { IfOk result (λ text. (t : LabelledTree) → HoldsRoot t self.old → text ≡ canon t) }
        ensures commands { OnOk result (self.new.commands ≡ self.old.commands + 1) }
    {
        let from = label(alloc, "r")?;
        let answer = self.take(alloc, Act::Print { from })?;
        Ok(text_of(alloc, answer))
    }
}

/// A visit of so many people: the root of the view of their names, its first child, one step to the right for each person, of which the
/// last finds none, and the root as text, each by one command of a session over their document; and what it comes to. No file is read.
/// It fails where memory runs out.
pub fn visit_people(alloc: Global, count: u32) -> Result<Visit, AllocError>
    ensures { IfOk result (IsVisit count) }
{
    let mut visitor = Visitor::open(alloc, count)?;
    visitor.start(alloc)?;
    visitor.go(alloc, Way::Down, "r")?;
    'people: for _ in 0..count {
        visitor.go(alloc, Way::Right, "x")?;
    }
    let text = visitor.print(alloc)?;
    Ok(Visit {
        commands: visitor.commands,
        nodes: count_nodes(text.bytes()),
        bytes: text.bytes().len(),
    })
}
