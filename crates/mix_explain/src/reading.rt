// The catalog and the view of an explanation, each accepted or explained.
ghost use Rattle.std.specs.Prelude.{◌≡◌, List, ℕ, length, IfOk};
ghost use Rattle.mix_io.specs.Views.{FilesView, KeepsFiles, ReadsOnly};
ghost use Rattle.xmas_read.specs.Results.{names_of_sources};
ghost use Rattle.mix_explain.specs.Answers.{IsCatalogAnswer, IsViewAnswer};

use crate::explained::{Answer, refusal_with, unread};
use mix_catalog::{Catalog, read_catalog};
use mix_io::{Files, read_whole};
use mix_place::FileFault;
use refusal_words::{catalog_words, view_words};
use std::alloc::{AllocError, Global};
use xmas_read::read_rule;
use xmas_rule::Rule;

/// The sources of the catalog that a file spells, or why the file is refused. `Err`: memory.
pub fn read_catalog_file<F: Files>(
    alloc: Global,
    files: &mut F,
    path: &str,
) -> Result<Answer<Catalog>, AllocError>
    ensures keeps { KeepsFiles (F.view files.old) (F.view files.new) }
    ensures others { ReadsOnly path.now (F.view files.old) (F.view files.new) }
    ensures ok { IfOk result (IsCatalogAnswer (F.view files.old) (F.view files.new) path.now) }
{
    let bytes = match read_whole(alloc, files, path) {
        Ok(bytes) => bytes,
        Err(fault) => return Ok(Answer::Refused(unread(alloc, path, fault)?)),
    };
    match read_catalog(alloc, &bytes) {
        Ok(catalog) => Ok(Answer::Accepted(catalog)),
        Err(fault) => {
            let words = catalog_words(alloc, &bytes, fault)?;
            let explained = refusal_with(alloc, path, FileFault::Catalog(fault), &words)?;
            Ok(Answer::Refused(explained))
        }
    }
}

/// The rule that a file spells over the sources of a catalog, or why the file is refused. `Err`: memory.
pub fn read_view_file<F: Files>(
    alloc: Global,
    files: &mut F,
    path: &str,
    catalog: &Catalog,
) -> Result<Answer<Rule>, AllocError>
    ensures keeps { KeepsFiles (F.view files.old) (F.view files.new) }
    ensures others { ReadsOnly path.now (F.view files.old) (F.view files.new) }
    ensures ok { IfOk result (IsViewAnswer (F.view files.old) (F.view files.new) path.now (names_of_sources catalog.now)) }
{
    let bytes = match read_whole(alloc, files, path) {
        Ok(bytes) => bytes,
        Err(fault) => return Ok(Answer::Refused(unread(alloc, path, fault)?)),
    };
    match read_rule(alloc, &bytes, catalog) {
        Ok(rule) => Ok(Answer::Accepted(rule)),
        Err(fault) => {
            let words = view_words(alloc, &bytes, catalog, fault)?;
            let explained = refusal_with(alloc, path, FileFault::View(fault), &words)?;
            Ok(Answer::Refused(explained))
        }
    }
}
