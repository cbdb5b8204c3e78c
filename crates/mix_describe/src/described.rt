// What a description comes to, and that of a file which is refused.
ghost use Rattle.std.specs.Prelude.{◌≡◌, IfOk};
ghost use Rattle.mix_describe.specs.Described.{IsRefusalOf, IsSchemaRefusal};

use mix_place::{FileFault, Refusal, Stop, refused};
use std::alloc::{AllocError, Global};

/// What a description comes to: the exit status, and the lines that are to be written.
#[derive(Drop)]
pub struct Described {
    pub status: u8,
    pub lines: Vec<u8>,
}

/// The refusal of a file for a fault. `Err`: memory.
pub fn refusal(alloc: Global, path: &str, fault: FileFault) -> Result<Described, AllocError>
    ensures { IfOk result (IsRefusalOf path.now fault) }
{
    let Stop::Refused(Refusal { status, line }) = refused(alloc, path, fault) else {
        return Err(AllocError);
    };
    Ok(Described {
        status,
        lines: line.into_bytes(),
    })
}

/// The refusal of a database whose tables can't be told, for a reason in words. `Err`: memory.
pub fn schema_refusal(alloc: Global, path: &str, why: &str) -> Result<Described, AllocError>
    ensures { IfOk result (IsSchemaRefusal path.now why.now) }
{
    let line = format!(in alloc; "{path}: {why}\n")?;
    Ok(Described {
        status: 3,
        lines: line.into_bytes(),
    })
}
