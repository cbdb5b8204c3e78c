// The lines of an input, each asked for once those before it are answered.
ghost use Rattle.std.specs.Prelude.{◌≡◌, [], false, IfOk};

use crate::reader::LineReader;
use crate::requests::{Request, Requests};
use mix_io::{Input, TakeFault};
use mix_script::LineRead;
use std::alloc::{AllocError, Global};

/// The lines of an input: what reads them, and what the last one came to.
#[derive(Drop)]
pub struct InputLines {
    reader: LineReader,
    read: LineRead,
}

impl InputLines {
    /// The lines of an input of which nothing was taken.
    pub fn new(alloc: Global) -> Result<InputLines, AllocError>
        ensures page { IfOk result (λ r. r.reader.page ≡ []) }
        ensures ended { IfOk result (λ r. r.reader.ended ≡ false) }
    {
        Ok(InputLines {
            reader: LineReader::new(alloc)?,
            read: LineRead::Passed,
        })
    }
}

impl<I: Input> Requests<I> for InputLines {
    ghost use Rattle.mix_lines.specs.Reading.{AreRead, IsMoved, IsReaderOf, read_asks, to_read};
    ghost use Rattle.mix_lines.specs.ReadingLaws.{read_same, read_after};

    ghost IsReady = { λ r x. IsReaderOf (I.view x) r.reader };

    ghost come = { λ r x r' x' heard. AreRead (I.view x) (I.view x') r.reader r'.reader heard };

    ghost moved = { λ r x r' x' result. IsMoved (I.view x) (I.view x') r.reader r' result };

    ghost asks = { λ r. read_asks r.read };

    ghost left = { λ r x. to_read (I.view x) r.reader };

    fn next(&mut self, alloc: Global, from: &mut I) -> Result<bool, TakeFault> {
        match self.reader.next(alloc, from)? {
            Some(read) => {
                self.read = read;
                Ok(true)
            }
            None => Ok(false),
        }
    }

    fn current(&self) -> Request<'_> {
        match &self.read {
            LineRead::Passed => Request::Passed,
            LineRead::NoForm => Request::NoForm,
            LineRead::Step(step) => Request::Step(step),
        }
    }

    ghost same = { λ r x. read_same (I.view x) r.reader };

    ghost after = { λ r x r1 x1 r2 x2 heard come ready moved.
        read_after (I.view x) (I.view x1) (I.view x2) r.reader r1.reader r2 heard come ready moved };
}
