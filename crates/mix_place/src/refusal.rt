// Why a run stops before all was done, and what is said of it.
ghost use Rattle.std.specs.Prelude.{◌≡◌, IfOk, string_bytes};
ghost use Rattle.mix_place.specs.Causes.{IsCatalogLine, IsJsonLine, IsPlanLine, IsRefusalLine, IsScriptLine, IsCsvLine, IsTreeLine, IsViewLine, status_of, large_text};
ghost use Rattle.mix_place.specs.Stops.{IsStopFor};
ghost use Rattle.mix_place.specs.declared.refusal.Stop.TheVariants.{OutOfMemory};

use bracket_text::BracketFault;
use csv_wrap::CsvFault;
use json_text::JsonFault;
use mix_catalog::CatalogFault;
use mix_io::SinkFault;
use mix_script::ScriptFault;
use plan_read::PlanFault;
use std::alloc::{AllocError, AllocFailed, Global};
use xmas_read::{Large, XmasFault};

/// Why a file is refused.
#[derive(Clone, Copy, Debug, PartialEq, Eq)]
pub enum FileFault {
    /// It can't be read.
    Unread,
    /// It is longer than a file that is read whole may be.
    TooLong,
    /// It is no bracket text, for this fault.
    Document(BracketFault),
    /// It is no CSV file with the columns of its source, for this fault.
    Csv(CsvFault),
    /// It is no JSON file, for this fault.
    Json(JsonFault),
    /// It is no catalog, for this fault.
    Catalog(CatalogFault),
    /// It is no script, for this fault.
    Script(ScriptFault),
    /// It is no view, for this fault.
    View(XmasFault),
    /// It is no plan text, for this fault.
    Plan(PlanFault),
}

/// A refusal: the status of the run, and the line that says why.
#[derive(Drop)]
pub struct Refusal {
    pub status: u8,
    pub line: String,
}

/// Why a run stops.
#[derive(Drop)]
pub enum Stop {
    /// A file is refused, and its line is still to be written.
    Refused(Refusal),
    /// The sink failed.
    SinkFailed,
    /// Memory ran out.
    OutOfMemory,
}

impl From<AllocError> for Stop {
    ghost from_gives = { λ _ e. e ≡ OutOfMemory };

    fn from(_: AllocError) -> Self {
        Stop::OutOfMemory
    }
}

impl<T: Drop> From<AllocFailed<T>> for Stop {
    ghost from_gives = { λ _ e. e ≡ OutOfMemory };

    fn from(_: AllocFailed<T>) -> Self {
        Stop::OutOfMemory
    }
}

impl From<SinkFault> for Stop {
    ghost use Rattle.mix_place.specs.Stops.{stop_of};

    ghost from_gives = { λ fault e. e ≡ stop_of fault };

    fn from(fault: SinkFault) -> Self {
        match fault {
            SinkFault::Failed => Stop::SinkFailed,
            SinkFault::OutOfMemory => Stop::OutOfMemory,
        }
    }
}

// The word for what a view has too much of.
fn large_name(large: Large) -> &'static str
    ensures { result.now ≡ large_text large }
{
    match large {
        Large::Depth => "depth",
        Large::Items => "items",
        Large::Variables => "variables",
        Large::Conditions => "conditions",
        Large::Nesting => "nesting",
        Large::Positions => "positions",
    }
}

// What a refusal says of bracket text, after the file's path; want of memory is not said of a file.
fn tree_line(alloc: Global, path: &str, fault: BracketFault) -> Result<String, AllocError>
    ensures { IfOk result (λ line. IsTreeLine path.now fault (string_bytes line)) }
{
    match fault {
        BracketFault::OutOfMemory => Err(AllocError),
        _ => format!(in alloc; "{path}: {fault}\n"),
    }
}

// What a refusal says of a CSV file, after its path.
fn csv_line(alloc: Global, path: &str, fault: CsvFault) -> Result<String, AllocError>
    ensures { IfOk result (λ line. IsCsvLine path.now fault (string_bytes line)) }
{
    match fault {
        CsvFault::OutOfMemory => Err(AllocError),
        _ => format!(in alloc; "{path}: {fault}\n"),
    }
}

// What a refusal says of a JSON file, after its path.
fn json_line(alloc: Global, path: &str, fault: JsonFault) -> Result<String, AllocError>
    ensures { IfOk result (λ line. IsJsonLine path.now fault (string_bytes line)) }
{
    match fault {
        JsonFault::OutOfMemory => Err(AllocError),
        _ => format!(in alloc; "{path}: {fault}\n"),
    }
}

// What a refusal says of a catalog, after its path.
fn catalog_line(alloc: Global, path: &str, fault: CatalogFault) -> Result<String, AllocError>
    ensures { IfOk result (λ line. IsCatalogLine path.now fault (string_bytes line)) }
{
    match fault {
        CatalogFault::Line(n) => format!(in alloc; "{path}: no form fits line {n}\n"),
        CatalogFault::Chunk(n) => format!(in alloc; "{path}: chunk out of range in line {n}\n"),
        CatalogFault::Columns(n) => format!(in alloc; "{path}: too many columns in line {n}\n"),
        CatalogFault::ColumnTwice(n) => format!(in alloc; "{path}: column twice in line {n}\n"),
        CatalogFault::NameTwice(n) => format!(in alloc; "{path}: name twice in line {n}\n"),
        CatalogFault::TooMany(n) => format!(in alloc; "{path}: too many sources in line {n}\n"),
        CatalogFault::OutOfMemory => Err(AllocError),
    }
}

// What a refusal says of a script, after its path.
fn script_line(alloc: Global, path: &str, fault: ScriptFault) -> Result<String, AllocError>
    ensures { IfOk result (λ line. IsScriptLine path.now fault (string_bytes line)) }
{
    match fault {
        ScriptFault::Line(n) => format!(in alloc; "{path}: no form fits line {n}\n"),
        ScriptFault::OutOfMemory => Err(AllocError),
    }
}

// What a refusal says of a view, after its path.
fn view_line(alloc: Global, path: &str, fault: XmasFault) -> Result<String, AllocError>
    ensures { IfOk result (λ line. IsViewLine path.now fault (string_bytes line)) }
{
    match fault {
        XmasFault::NotUtf8(at) => format!(in alloc; "{path}: not UTF-8 at {at}\n"),
        XmasFault::Unexpected(at) => format!(in alloc; "{path}: unexpected at {at}\n"),
        XmasFault::EndsEarly => format!(in alloc; "{path}: ends too early\n"),
        XmasFault::TooLarge(large) => {
            let name = large_name(large);
            format!(in alloc; "{path}: too large: {name}\n")
        }
        XmasFault::TagDiffers(at) => format!(in alloc; "{path}: tag differs at {at}\n"),
        XmasFault::UnknownSource(at) => format!(in alloc; "{path}: unknown source at {at}\n"),
        XmasFault::BoundTwice(at) => format!(in alloc; "{path}: bound twice at {at}\n"),
        XmasFault::Unbound(at) => format!(in alloc; "{path}: unbound variable at {at}\n"),
        XmasFault::OuterGroup(at) => {
            format!(in alloc; "{path}: outer element grouped at {at}\n")
        }
        XmasFault::Loose(at) => format!(in alloc; "{path}: loose item at {at}\n"),
        XmasFault::OutOfMemory => Err(AllocError),
    }
}

// What a refusal says of a plan text, after its path.
fn plan_line(alloc: Global, path: &str, fault: PlanFault) -> Result<String, AllocError>
    ensures { IfOk result (λ line. IsPlanLine path.now fault (string_bytes line)) }
{
    match fault {
        PlanFault::NotUtf8(at) => format!(in alloc; "{path}: not UTF-8 at {at}\n"),
        PlanFault::Line(n) => format!(in alloc; "{path}: no form fits line {n}\n"),
        PlanFault::TooMany(n) => format!(in alloc; "{path}: too many operators in line {n}\n"),
        PlanFault::Number(n) => format!(in alloc; "{path}: wrong number in line {n}\n"),
        PlanFault::UnknownSource(n) => format!(in alloc; "{path}: unknown source in line {n}\n"),
        PlanFault::Positions(n) => format!(in alloc; "{path}: too large: positions in line {n}\n"),
        PlanFault::Variable(n) => {
            format!(in alloc; "{path}: variable out of range in line {n}\n")
        }
        PlanFault::Invalid(n) => format!(in alloc; "{path}: not valid in line {n}\n"),
        PlanFault::End => format!(in alloc; "{path}: wrong end\n"),
        PlanFault::Unused(n) => format!(in alloc; "{path}: unused in line {n}\n"),
        PlanFault::NotSingle => format!(in alloc; "{path}: not a single element\n"),
        PlanFault::OutOfMemory => Err(AllocError),
    }
}

// What a refusal says of a file, after its path.
fn line_of(alloc: Global, path: &str, fault: FileFault) -> Result<String, AllocError>
    ensures { IfOk result (λ line. IsRefusalLine path.now fault (string_bytes line)) }
{
    match fault {
        FileFault::Unread => format!(in alloc; "{path}: cannot be read\n"),
        FileFault::TooLong => format!(in alloc; "{path}: longer than 67108864 bytes\n"),
        FileFault::Document(fault) => tree_line(alloc, path, fault),
        FileFault::Csv(fault) => csv_line(alloc, path, fault),
        FileFault::Json(fault) => json_line(alloc, path, fault),
        FileFault::Catalog(fault) => catalog_line(alloc, path, fault),
        FileFault::Script(fault) => script_line(alloc, path, fault),
        FileFault::View(fault) => view_line(alloc, path, fault),
        FileFault::Plan(fault) => plan_line(alloc, path, fault),
    }
}

// The exit status with which a file is refused for a fault.
fn status_for(fault: FileFault) -> u8
    ensures { result ≡ status_of fault }
{
    match fault {
        FileFault::Unread => 4,
        FileFault::TooLong => 7,
        FileFault::Document(_)
        | FileFault::Csv(_)
        | FileFault::Json(_)
        | FileFault::Catalog(_)
        | FileFault::Script(_)
        | FileFault::View(_)
        | FileFault::Plan(_) => 3,
    }
}

/// The stop of a run by a file that is refused for a given fault; want of memory names no file.
pub fn refused(alloc: Global, path: &str, fault: FileFault) -> Stop
    ensures { IsStopFor path.now fault result }
{
    match line_of(alloc, path, fault) {
        Ok(line) => Stop::Refused(Refusal {
            status: status_for(fault),
            line,
        }),
        Err(_) => Stop::OutOfMemory,
    }
}
