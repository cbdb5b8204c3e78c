// Why a CSV file is no source with the declared columns.
ghost use Rattle.std.specs.Prelude.{◌≡◌, Some};
ghost use Rattle.csv_wrap.specs.Said.{text_of};
ghost use Rattle.csv_wrap.specs.declared.fault.CsvFault.TheVariants.{OutOfMemory};

use std::alloc::AllocError;
use std::fmt;

/// Why a CSV file is no source with the declared columns (docs/FORMATS.md, "CSV files"). Rows are counted from 1 after the
/// header, columns from 0. Of two rows with faults the first one is named, and of one row its length before its bytes.
#[derive(Clone, Copy, Debug, PartialEq, Eq)]
pub enum CsvFault {
    /// The file has no record.
    NoHeader,
    /// The header and the columns differ first at this column, where the shorter of them may have ended.
    HeaderDiffers(usize),
    /// The row has so many fields, and there are so many columns: row, fields, columns.
    Length(usize, usize, usize),
    /// The row has a field that is not UTF-8.
    NotUtf8(usize),
    /// Memory ran out.
    OutOfMemory,
}

impl fmt::Display for CsvFault {
    ghost output = { λ fault. Some (text_of fault) };

    fn fmt<W: fmt::Write>(&self, f: &mut fmt::Formatter<W>) -> fmt::Result {
        match self {
            CsvFault::NoHeader => write!(f, "no header"),
            CsvFault::HeaderDiffers(column) => write!(f, "header differs at column {column}"),
            CsvFault::Length(row, found, wanted) => {
                write!(f, "row {row} has {found} fields, {wanted} wanted")
            }
            CsvFault::NotUtf8(row) => write!(f, "row {row} is not UTF-8"),
            CsvFault::OutOfMemory => write!(f, "memory ran out"),
        }
    }
}

impl std::error::Error for CsvFault {}

impl From<AllocError> for CsvFault {
    ghost from_gives = { λ _ e. e ≡ OutOfMemory };

    fn from(_: AllocError) -> Self {
        CsvFault::OutOfMemory
    }
}
