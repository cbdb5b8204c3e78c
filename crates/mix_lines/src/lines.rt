// Requests on whatever is walked, each answered by a line before the next is asked for.
ghost use Rattle.std.specs.Prelude.{◌≡◌, ◌<◌, ◌≤◌, ℕ, List, length};
ghost use Rattle.mix_io.specs.Views.{SinkView};
ghost use Rattle.lxp_core.specs.View.{View};
ghost use Rattle.mix_script.specs.Names.{held};
ghost use Rattle.mix_session.specs.Held.{IsSession};
ghost use Rattle.mix_session.specs.Meaning.{Course, Meaning};
ghost use Rattle.mix_session.specs.Stepped.{LetsAll};
ghost use Rattle.mix_lines.specs.Answered.{AreAnswered, IsRequestAnswered};
ghost use Rattle.mix_lines.specs.Heard.{Heard, steps_in};
ghost use Rattle.mix_lines.specs.Requests.{request_asks};

use crate::requests::{Request, Requests};
use crate::{LinesFault, write_line};
use lxp_core::Sources;
use mix_io::Sink;
use mix_session::{Session, Walker};
use mix_tree::Label;
use std::alloc::Global;
use std::mem;

/// What answers, what asks, and the sources' names by their numbers.
pub struct Asking<'a, W, R> {
    pub walker: W,
    pub requests: R,
    pub names: &'a [Label],
}

// A request, and the sources' names by their numbers.
#[derive(Clone, Copy)]
struct Asked<'r, 'n> {
    request: Request<'r>,
    names: &'n [Label],
}

// Answers a request, by one write at most. True: its answer is a fault line.
fn answer_request<W: Walker + Drop, S: Sources, K: Sink>(
    alloc: Global,
    s: &mut S,
    session: &mut Session<W>,
    asked: &Asked<'_, '_>,
    out: &mut K,
) -> Result<bool, LinesFault>
    requires session { IsSession (W.means (S.view s.old) session.old.walker) (held session.old.names) }
    requires names { (n : ℕ) → (W.means (S.view s.old) session.old.walker).course.MayFail n → n < length asked.now.names.now }
    requires lets { LetsAll (W.means (S.view s.old) session.old.walker).course (steps_in (request_asks asked.now.request)) }
    ensures came { S.came_from s.old s.new }
    ensures answered { IsRequestAnswered s.old s.new session.old session.new S.view (λ s session. W.means (S.view s) session.walker)
        (λ session. held session.names) asked.now.names.now asked.now.request (K.view out.old) (K.view out.new) result }
    ensures count { (K.view out.old).faults ≤ (K.view out.new).faults }
{
    match asked.request {
        Request::Passed => Ok(false),
        Request::NoForm => {
            out.write(alloc, b"no form\n")?;
            Ok(false)
        }
        Request::Step(step) => {
            let answer = session.step(alloc, s, step)?;
            write_line(alloc, step, &answer, asked.names, out)
        }
    }
}

/// Answers requests on the document of a walker, each by one write before the next is asked for. True: a fault line was written. All that
/// came up to some state was answered, and one more was asked for after it. What the walk holds at its end is not given back piece by
/// piece: the program ends after the lines, and the system takes it all at once.
pub fn answer_all<W: Walker + Drop, F, R: Requests<F> + Drop, S: Sources, K: Sink>(
    alloc: Global,
    s: &mut S,
    asking: Asking<'_, W, R>,
    from: &mut F,
    out: &mut K,
) -> Result<bool, LinesFault>
    requires ready { (W.means (S.view s.old) asking.walker).IsReady }
    requires names { (n : ℕ) → (W.means (S.view s.old) asking.walker).course.MayFail n → n < length asking.names.now }
    requires requests { R.IsReady asking.requests from.old }
    requires lets { (r : R) (x : F) (heard : List Heard) → R.come asking.requests from.old r x heard
        → LetsAll (W.means (S.view s.old) asking.walker).course (steps_in heard) }
    ensures came { S.came_from s.old s.new }
    ensures answered { AreAnswered (R.come asking.entry.requests from.old) R.moved R.IsReady R.asks (W.means (S.view s.old) asking.entry.walker).course
        (S.view s.old) (S.view s.new) asking.entry.names.now from.new (K.view out.old) (K.view out.new) result }
    ensures count { (K.view out.old).faults ≤ (K.view out.new).faults }
{
    let Asking {
        walker,
        mut requests,
        names,
    } = asking;
    let mut session = Session::open(alloc, walker);
    let mut marked = false;
    'requests: while requests.next(alloc, from)? {
        let request = requests.current();
        let asked = Asked { request, names };
        let fault = answer_request(alloc, s, &mut session, &asked, out)?;
        marked |= fault;
    }
    mem::forget(session);
    Ok(marked)
}
