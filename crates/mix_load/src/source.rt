// The document of many people.
ghost use Rattle.std.specs.Prelude.{◌≡◌, IfOk, IfErr};
ghost use Rattle.csv_wrap.specs.Document.{chunk_of, document};
ghost use Rattle.csv_wrap.specs.declared.fault.CsvFault.TheVariants.{OutOfMemory};
ghost use Rattle.mix_tree.specs.Forest.{alone};
ghost use Rattle.mix_load.specs.People.{people_columns, people_tree};

use crate::people::people_text;
use crate::view::label;
use csv_wrap::{CsvDoc, CsvFault};
use mix_tree::Label;
use std::alloc::{AllocError, Global};

// The columns of the file of people.
fn people_columns(alloc: Global) -> Result<Vec<Label>, AllocError>
    ensures { IfOk result (λ columns. columns.items ≡ people_columns) }
{
    let id = label(alloc, "id")?;
    let name = label(alloc, "name")?;
    let zip = label(alloc, "zip")?;
    Ok(vec![in alloc; id, name, zip]?)
}

/// The document of the CSV file of so many people, as the source `people`, given 10 rows at a time. It is refused only where memory runs
/// out.
pub fn people_document(alloc: Global, count: u32) -> Result<CsvDoc, CsvFault>
    ensures document { IfOk result (λ doc. document doc ≡ alone (people_tree count)) }
    ensures chunk { IfOk result (λ doc. chunk_of doc ≡ 10) }
    ensures refused { IfErr result (λ fault. fault ≡ OutOfMemory) }
{
    let text = people_text(alloc, count)?;
    let name = label(alloc, "people")?;
    let columns = people_columns(alloc)?;
    CsvDoc::open(alloc, &text, &name, &columns, 10)
}
