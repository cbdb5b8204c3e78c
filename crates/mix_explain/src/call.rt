// The top call of `explain`.
ghost use Rattle.std.specs.Prelude.{◌≡◌, ◌≤◌, Some, None, IfSome, map, string_bytes};
ghost use Rattle.mix_io.specs.Views.{SinkView, KeepsFiles};
ghost use Rattle.mix_run.specs.Ends.{Ends};
ghost use Rattle.table_keep.specs.Views.{KeepsTables};
ghost use Rattle.source_checks.specs.Checks.{moment};
ghost use Rattle.mix_place.specs.Reading.{ReadsAmong};
ghost use Rattle.mix_explain.specs.Explained.{Explains};
ghost use Rattle.mix_explain.specs.Words.{ExplainMayRead, ExplainWordsEnd, ReportMayRead, explained_of};

use crate::explained::Explained;
use crate::view::{Explaining, explained};
use mix_io::{Files, Sink};
use mix_place::Stop;
use mix_run::write_lines;
use mix_top::refuse_words;
use page_reasons::PageReasons;
use std::alloc::Global;

// The view and the catalog that are to be explained, where words ask for that.
fn read_explain(words: &[String]) -> Option<Explaining<'_>>
    ensures none { result ≡ None → explained_of (map string_bytes words.now) ≡ None }
    ensures some { IfSome result (λ asked. explained_of (map string_bytes words.now) ≡ Some (asked.view.now, asked.catalog.now)) }
{
    match words {
        [word, view, catalog] if word.as_str() == "explain" => Some(Explaining {
            view: view.as_str(),
            catalog: catalog.as_str(),
        }),
        _ => None,
    }
}

// Writes the lines of an explanation, and answers its status: 5 where the sink failed, and 6 where memory ran out.
fn write_explained<K: Sink>(alloc: Global, explained: &Explained, out: &mut K) -> u8
    ensures ends { Ends (λ status lines. (status ≡ explained.now.status) × (lines ≡ explained.now.lines.items)) (K.view out.old) (K.view out.new) result }
    ensures count { (K.view out.old).faults ≤ (K.view out.new).faults }
{
    match write_lines(alloc, &explained.lines, out) {
        Ok(()) => explained.status,
        Err(Stop::SinkFailed) => 5,
        Err(Stop::OutOfMemory) | Err(Stop::Refused(_)) => 6,
    }
}

// Explains a view over a catalog.
fn explain<F: Files, T: PageReasons, K: Sink>(
    alloc: Global,
    asked: &Explaining<'_>,
    files: &mut F,
    tables: &mut T,
    out: &mut K,
) -> u8
    ensures ends { Ends (Explains (moment (F.view files.old) (T.view tables.old)) (moment (F.view files.new) (T.view tables.new))
        asked.now.view.now asked.now.catalog.now) (K.view out.old) (K.view out.new) result }
    ensures reads { let old = F.view files.old in ReadsAmong (ReportMayRead old asked.now.view.now asked.now.catalog.now) old (F.view files.new) }
    ensures keeps { KeepsFiles (F.view files.old) (F.view files.new) }
    ensures tables { KeepsTables (T.view tables.old) (T.view tables.new) }
    ensures count { (K.view out.old).faults ≤ (K.view out.new).faults }
{
    match explained(alloc, asked, files, tables) {
        Ok(explained) => write_explained(alloc, &explained, out),
        Err(_) => 6,
    }
}

/// Does what words ask for that begin with `explain`, and answers the exit status: `explain VIEW CATALOG` says in words why one of the two files is
/// refused, or what the view comes to, and after that what its sources are. All lines go to `out`, each by one write.
///
/// Status 0: both files are accepted. 2: the words are of no form. 3: a file is not accepted. 4: a file can't be read. 5: `out` failed. 6: memory ran out.
/// 7: a file is longer than 67,108,864 bytes. A call that ends with 5 or 6 has written a prefix of its lines (docs/FORMATS.md, "Explanations").
pub fn mixq_explain<F: Files, T: PageReasons, K: Sink>(
    alloc: Global,
    words: &[String],
    files: &mut F,
    tables: &mut T,
    out: &mut K,
) -> u8
    // What was written, and why the status is what it is.
    ensures ends { let asked = explained_of (map string_bytes words.now) in
        ExplainWordsEnd asked (moment (F.view files.old) (T.view tables.old)) (moment (F.view files.new) (T.view tables.new))
        (K.view out.old) (K.view out.new) result }

    // Which files it may have read: after a catalog or a view that is refused none.
    ensures reads { let old = F.view files.old in ReadsAmong (ExplainMayRead old (explained_of (map string_bytes words.now))) old (F.view files.new) }

    // The contents of all files and tables stay, and no count falls.
    ensures keeps { KeepsFiles (F.view files.old) (F.view files.new) }
    ensures tables { KeepsTables (T.view tables.old) (T.view tables.new) }
    ensures count { (K.view out.old).faults ≤ (K.view out.new).faults }
{
    match read_explain(words) {
        Some(asked) => explain(alloc, &asked, files, tables, out),
        None => refuse_words(alloc, out),
    }
}
