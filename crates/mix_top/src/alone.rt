// The top calls over tables alone, where there is no source of another machine.
ghost use Rattle.std.specs.Prelude.{◌≡◌, ◌≤◌, ℕ, None, false, map, string_bytes};
ghost use Rattle.mix_io.specs.Input.{InputView};
ghost use Rattle.mix_io.specs.Views.{FilesView, SinkView, KeepsFiles};
ghost use Rattle.table_keep.specs.Views.{KeepsTables, TablesView};
ghost use Rattle.mix_top.specs.Commands.{asks_stores, command_of};
ghost use Rattle.mix_place.specs.Reading.{ReadsAmong};
ghost use Rattle.mix_run.specs.Outside.{outside};
ghost use Rattle.mix_top.specs.Alone.{tables_alone};
ghost use Rattle.mix_top.specs.Call.{CommandEnds};
ghost use Rattle.mix_top.specs.FilesRead.{MayRead};
ghost use Rattle.mix_top.specs.Served.{ServeWordsEnd, ServeWordsMayRead, catalog_of};

use crate::serving::mixq_serve_over;
use crate::top::mixq_over;
use far_keep::NoFars;
use mix_io::{Files, Input, Sink, Streams};
use mix_reach::Stores;
use std::alloc::Global;
use table_keep::Tables;

/// Does what `mixq_over` does, over tables alone: each source of another machine fails whenever it is asked.
pub fn mixq<F: Files, T: Tables, I: Input, K: Sink>(
    alloc: Global,
    words: &[String],
    files: &mut F,
    tables: T,
    streams: &mut Streams<I, K>,
) -> (u8, T)
    // What was taken and written, and why the status is what it is.
    ensures ends { let words = map string_bytes words.now in let before = outside (F.view files.old) (tables_alone (T.view tables) 0) in
        (faults : ℕ) × CommandEnds (command_of words) before (outside (F.view files.new) (tables_alone (T.view result.1) faults))
        (I.view streams.old.input) (I.view streams.new.input) (K.view streams.old.out) (K.view streams.new.out) result.0 }

    // Which files it may have read: none after one that is refused.
    ensures reads { let old = F.view files.old in
        ReadsAmong (MayRead old (command_of (map string_bytes words.now))) old (F.view files.new) }

    // The contents of all files and the rows of all tables stay, and no count falls.
    ensures keeps { KeepsFiles (F.view files.old) (F.view files.new) }
    ensures keeps_tables { KeepsTables (T.view tables) (T.view result.1) }
    ensures untouched { asks_stores (command_of (map string_bytes words.now)) ≡ false → result.1 ≡ tables }
    ensures input { (I.view streams.old.input).faults ≤ (I.view streams.new.input).faults }
    ensures count { (K.view streams.old.out).faults ≤ (K.view streams.new.out).faults }
{
    let fars = NoFars::new();
    let (status, stores) = mixq_over(alloc, words, files, Stores { tables, fars }, streams);
    (status, stores.tables)
}

/// Does what `mixq_serve_over` does, over tables alone: each source of another machine fails whenever it is asked.
pub fn mixq_serve<F: Files, T: Tables, I: Input, K: Sink>(
    alloc: Global,
    words: &[String],
    files: &mut F,
    tables: T,
    streams: &mut Streams<I, K>,
) -> (u8, T)
    // What was taken and written, and why the status is what it is.
    ensures ends { let before = outside (F.view files.old) (tables_alone (T.view tables) 0) in let words = map string_bytes words.now in
        (faults : ℕ) × ServeWordsEnd (catalog_of words) before (outside (F.view files.new) (tables_alone (T.view result.1) faults))
        (I.view streams.old.input) (I.view streams.new.input) (K.view streams.old.out) (K.view streams.new.out) result.0 }

    // Which files it may have read: none after one that is refused.
    ensures reads { let old = F.view files.old in
        ReadsAmong (ServeWordsMayRead old (catalog_of (map string_bytes words.now))) old (F.view files.new) }

    // The contents of all files and the rows of all tables stay, and no count falls.
    ensures keeps { KeepsFiles (F.view files.old) (F.view files.new) }
    ensures keeps_tables { KeepsTables (T.view tables) (T.view result.1) }
    ensures input { (I.view streams.old.input).faults ≤ (I.view streams.new.input).faults }
    ensures count { (K.view streams.old.out).faults ≤ (K.view streams.new.out).faults }
{
    let fars = NoFars::new();
    let (status, stores) = mixq_serve_over(alloc, words, files, Stores { tables, fars }, streams);
    (status, stores.tables)
}
