// What is asked for, one request after another.
ghost use Rattle.std.specs.Prelude.{◌≡◌, ◌<◌, ℕ, true, Bool, List, [], ◌++◌, Result, Ok};
ghost use Rattle.mix_lines.specs.Heard.{Heard};
ghost use Rattle.mix_lines.specs.Requests.{request_asks};

use mix_io::TakeFault;
use mix_script::Step;
use std::alloc::Global;

/// What is asked for.
#[derive(Clone, Copy)]
pub enum Request<'a> {
    /// Nothing: a line that is passed over.
    Passed,
    /// A line of no form.
    NoForm,
    Step(&'a Step),
}

/// Requests that come one after another, out of what is given by states of `F`.
pub trait Requests<F> {
    ghost use Rattle.mix_io.specs.declared.input.TakeFault.{TakeFault};

    /// The next request may be asked for.
    ghost IsReady: { Self → F → Type 0 };

    /// `come r x r' x' heard`: between two states requests came that ask for this, one after another.
    ghost come: { Self → F → Self → F → List Heard → Type 0 };

    /// `moved r x r' x' result`: what one call of `next` came to.
    ghost moved: { Self → F → Self → F → Result Bool TakeFault → Type 0 };

    /// What the last request asks for.
    ghost asks: { Self → List Heard };

    /// How many requests can still come.
    ghost left: { Self → F → ℕ };

    /// Asks for the next request. False: there is none any more. No more is taken of `from` than the request needs.
    fn next(&mut self, alloc: Global, from: &mut F) -> Result<bool, TakeFault>
        requires { IsReady self.old from.old }
        ensures moved { moved self.old from.old self.new from.new result }
        ensures ready { result ≡ Ok true → IsReady self.new from.new }
        ensures less { result ≡ Ok true → left self.new from.new < left self.old from.old };

    /// The request that came last.
    fn current(&self) -> Request<'_>
        ensures { request_asks result ≡ asks self.now };

    /// From a state to that same state no request came.
    ghost same: { (r : Self) (x : F) → come r x r x [] };

    /// Where one request more came, it comes after those that came before it.
    ghost after: { (r : Self) (x : F) (r1 : Self) (x1 : F) (r2 : Self) (x2 : F) (heard : List Heard)
        → come r x r1 x1 heard → IsReady r1 x1 → moved r1 x1 r2 x2 (Ok true) → come r x r2 x2 (heard ++ asks r2) };
}
