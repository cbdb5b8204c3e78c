// Bytes that were taken of an input and are still to be cut into lines.
ghost use Rattle.std.specs.Prelude.{◌≡◌, ◌≤◌, [], drop, length, IfOk, OnOk, OnErr, IsErrOf};
ghost use Rattle.mix_base.specs.Counts.{HasRisen};
ghost use Rattle.mix_io.specs.Input.{InputView, IsAtEnd, Took};
ghost use Rattle.mix_lines.specs.Pages.{Refilled};

use mix_io::{Input, TakeFault};
use std::alloc::{AllocError, Global};
use std::marker::Model;

/// The most bytes that are taken at once.
pub const PAGE: usize = 4_096;

/// Bytes that were taken at once, without those that were dropped. They are seen as a list.
#[derive(Drop)]
pub struct Page {
    room: Vec<u8>,
    from: usize,
    to: usize,
}

impl Model for Page {
    ghost use Rattle.std.specs.Prelude.{◌≡◌, ◌≤◌, List, ℕ, length, slice_range};

    ghost Value = { List ℕ };

    ghost view = { λ p. slice_range p.room.items p.from p.to };

    ghost invariant = { λ p. (p.from ≤ p.to) × (p.to ≤ length p.room.items) × (length p.room.items ≡ 4096) };
}

impl Page {
    /// A page without bytes.
    pub fn new(alloc: Global) -> Result<Page, AllocError>
        ensures { IfOk result (λ page. page ≡ []) }
    {
        Ok(Page {
            room: vec![in alloc; 0; PAGE]?,
            from: 0,
            to: 0,
        })
    }

    /// The bytes of a page that are still to be cut into lines.
    pub fn bytes(&self) -> &[u8]
        ensures { result.now ≡ self.now }
    {
        &self.room[self.from..self.to]
    }

    /// Drops the first `count` bytes of a page.
    pub fn drop_prefix(&mut self, count: usize)
        requires { count ≤ length self.old }
        ensures { self.new ≡ drop count self.old }
    {
        self.from += count;
    }

    /// Takes the next bytes of an input in place of those of the page. The page has none then where the input has ended, and after an
    /// error.
    pub fn refill<I: Input>(&mut self, alloc: Global, input: &mut I) -> Result<(), TakeFault>
        ensures ok { OnOk result (Refilled (I.view input.old) (I.view input.new) self.new) }
        ensures short { OnOk result (length self.new ≤ 4096) }
        ensures err { OnErr result (Took (I.view input.old) (I.view input.new) []) }
        ensures count { (I.view input.old).faults ≤ (I.view input.new).faults }
        ensures failed { IsErrOf result TakeFault.Failed → HasRisen (I.view input.old).faults (I.view input.new).faults }
    {
        self.from = 0;
        self.to = 0;
        self.to = input.take(alloc, &mut self.room)?;
        Ok(())
    }
}
