// The names of a catalog's sources.
ghost use Rattle.std.specs.Prelude.{◌≡◌, IfOk};
ghost use Rattle.xmas_read.specs.Results.{names_of_sources};

use mix_catalog::Catalog;
use mix_tree::Label;
use std::alloc::{AllocError, Global};

/// The names of a catalog's sources, by their numbers.
pub fn source_names(alloc: Global, catalog: &Catalog) -> Result<Vec<Label>, AllocError>
    ensures { IfOk result (λ names. names.items ≡ names_of_sources catalog.now) }
{
    let mut names = Vec::new(alloc);
    for number in 0..catalog.len() {
        names.push(catalog.spec(number).name.copy(alloc)?)?;
    }
    Ok(names)
}
