// Sessions.
ghost use Rattle.std.specs.Prelude.{◌≡◌, IfOk, OnErr};
ghost use Rattle.lxp_core.specs.View.{View};
ghost use Rattle.mix_script.specs.Names.{held};
ghost use Rattle.mix_session.specs.Seeking.{IsSpelled, answer_followed, answer_found, names_followed, names_found};

use crate::printing::print;
use crate::searching::select;
use crate::walker::{Found, Walker};
use lxp_core::Sources;
use mix_script::{Act, Answer, Names, Step, Text};
use mix_tree::Label;
use node_text::write_node;
use std::alloc::{AllocError, Global};

/// A document that clients walk by commands. Each client has names of its own, which hold nodes of the document.
#[derive(Drop)]
pub struct Session<W: Walker> {
    walker: W,
    names: Names<W::Node>,
}

// Lets a name hold the node that was found, or nothing where there is none. A fault of a source leaves all names.
fn take_found<N: Drop>(
    alloc: Global,
    names: &mut Names<N>,
    client: &Label,
    name: &Label,
    found: Found<N>,
) -> Result<Answer, AllocError>
    ensures answer { IfOk result (λ a. a ≡ answer_found found) }
    ensures names { IfOk result (λ _. held names.new ≡ names_found (held names.old) client.now name.now found) }
    ensures still { OnErr result (held names.new ≡ held names.old) }
{
    match found {
        Found::Node(node) => {
            names.set(alloc, client, name, Some(node))?;
            Ok(Answer::Node)
        }
        Found::None => {
            names.set(alloc, client, name, None)?;
            Ok(Answer::None)
        }
        Found::Fault(source) => Ok(Answer::Fault(source)),
    }
}

// Lets a name hold the node that a text names. Where it names none, and after a fault of a source, all names hold what they held.
fn take_followed<N: Drop>(
    alloc: Global,
    names: &mut Names<N>,
    client: &Label,
    name: &Label,
    found: Found<N>,
) -> Result<Answer, AllocError>
    ensures answer { IfOk result (λ a. a ≡ answer_followed found) }
    ensures names { IfOk result (λ _. held names.new ≡ names_followed (held names.old) client.now name.now found) }
    ensures still { OnErr result (held names.new ≡ held names.old) }
{
    match found {
        Found::None => Ok(Answer::Foreign),
        _ => take_found(alloc, names, client, name, found),
    }
}

// The answer that is the text of a node's identifier.
fn spell<W: Walker>(alloc: Global, walker: &W, node: &W::Node) -> Result<Answer, AllocError>
    requires { (v : View) × (W.means v walker.now).IsReady × (W.means v walker.now).IsNode node.now × (W.means v walker.now).course.Tells }
    ensures { (v : View) → (W.means v walker.now).IsReady → (W.means v walker.now).course.Tells → IfOk result (IsSpelled (W.means v walker.now) node.now) }
{
    let said = walker.tell(alloc, node)?;
    Ok(Answer::Id(Text::new(write_node(alloc, &said)?)))
}

impl<W: Walker + Drop> Session<W> {
    ghost use Rattle.mix_script.specs.Names.{no_names};
    ghost use Rattle.mix_session.specs.Held.{IsSession};
    ghost use Rattle.mix_session.specs.Stepped.{Lets, Stepped};

    /// A session over a document, in which no name holds anything. No fill is asked.
    pub fn open(alloc: Global, walker: W) -> Session<W>
        ensures walker { result.walker ≡ walker }
        ensures names { held result.names ≡ no_names }
        ensures session { (v : View) → (W.means v walker).IsReady → IsSession (W.means v result.walker) (held result.names) }
    {
        Session {
            walker,
            names: Names::new(alloc),
        }
    }

    /// The answer to a step, by which the name that it gives holds the node that was found, or nothing where there is none.
    /// `NoNode`: the operand's name holds no node. `Foreign`: the text names no node. `Fault`: this source, which may fail, failed
    /// in this call. After these, and after want of memory, all names hold what they held.
    pub fn step<S: Sources>(
        &mut self,
        alloc: Global,
        s: &mut S,
        step: &Step,
    ) -> Result<Answer, AllocError>
        requires session { IsSession (W.means (S.view s.old) self.old.walker) (held self.old.names) }
        requires lets { Lets (W.means (S.view s.old) self.old.walker).course step.now.act }
        ensures came { S.came_from s.old s.new }
        ensures kept { W.keeps (S.view s.old) self.old.walker (S.view s.new) self.new.walker }
        ensures stepped { let m = W.means (S.view s.old) self.old.walker in let m' = W.means (S.view s.new) self.new.walker in
            Stepped m m' (S.view s.old) (S.view s.new) (held self.old.names) (held self.new.names) step.now.client step.now.act result }
    {
        let client = &step.client;
        match &step.act {
            Act::Root { name } => {
                let found = self.walker.seek_root(alloc, s)?;
                take_found(alloc, &mut self.names, client, name, found)
            }
            Act::Move { way, name, from } => {
                let Some(node) = self.names.get(client, from) else {
                    return Ok(Answer::NoNode);
                };
                let found = self.walker.seek(alloc, s, *way, node)?;
                take_found(alloc, &mut self.names, client, name, found)
            }
            Act::Select { name, from, label } => {
                let Some(node) = self.names.get(client, from) else {
                    return Ok(Answer::NoNode);
                };
                let found = select(alloc, s, &mut self.walker, node, label)?;
                take_found(alloc, &mut self.names, client, name, found)
            }
            Act::Fetch { from } => {
                let Some(node) = self.names.get(client, from) else {
                    return Ok(Answer::NoNode);
                };
                Ok(Answer::Label(self.walker.read_label(node).copy(alloc)?))
            }
            Act::Print { from } => {
                let Some(node) = self.names.get(client, from) else {
                    return Ok(Answer::NoNode);
                };
                print(alloc, s, &mut self.walker, node)
            }
            Act::Id { from } => {
                let Some(node) = self.names.get(client, from) else {
                    return Ok(Answer::NoNode);
                };
                spell(alloc, &self.walker, node)
            }
            Act::At { name, node } => {
                let found = self.walker.seek_named(alloc, s, node)?;
                take_followed(alloc, &mut self.names, client, name, found)
            }
        }
    }
}
