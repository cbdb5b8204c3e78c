// The command `serve`: the requests of an input, answered by all sources of a catalog.
ghost use Rattle.std.specs.Prelude.{◌≡◌, ◌≤◌, Some, None, IfSome, IfOk, IfErr, length, map, string_bytes};
ghost use Rattle.mix_io.specs.Input.{InputView};
ghost use Rattle.mix_io.specs.Views.{FilesView, SinkView, KeepsFiles};
ghost use Rattle.mix_reach.specs.Stores.{KeepsStores, StoresView, stores_in};
ghost use Rattle.mix_place.specs.Reading.{ReadsAmong};
ghost use Rattle.mix_run.specs.Outside.{outside};
ghost use Rattle.mix_top.specs.Served.{AreAnswered, AreServed, IsServingStop, ServeEnds, ServeWordsEnd, ServeWordsMayRead, ServingMayRead, catalog_of, placed, serving_status};

use crate::top::refuse_words;
use far_keep::Fars;
use mix_io::{Files, Input, Sink, Streams};
use mix_mount::{Mount, Mounted};
use mix_place::{Stop, load_base, mount_all, read_all_sites};
use mix_reach::{Reached, Site, Stores};
use mix_run::refuse;
use mix_serve::{ServeFault, Served, serve_requests};
use std::alloc::Global;
use table_keep::Tables;

/// What serving needs: the documents of all sources of a catalog, and where each source is.
#[derive(Drop)]
pub struct Holding {
    pub docs: Vec<Mount>,
    pub sites: Vec<Site>,
}

// The catalog of serving, where command words are those of it.
fn read_serve(words: &[String]) -> Option<&str>
    ensures none { result ≡ None → catalog_of (map string_bytes words.now) ≡ None }
    ensures some { IfSome result (λ catalog. catalog_of (map string_bytes words.now) ≡ Some catalog.now) }
{
    match words {
        [word, catalog] if word.as_str() == "serve" => Some(catalog.as_str()),
        _ => None,
    }
}

// Reads the files of serving, each accepted before the next is read: the catalog, and then those of its sources, in the order of the catalog.
fn make_ready<F: Files>(alloc: Global, catalog: &str, files: &mut F) -> Result<Holding, Stop>
    ensures keeps { KeepsFiles (F.view files.old) (F.view files.new) }
    ensures reads { ReadsAmong (ServingMayRead (F.view files.old) catalog.now) (F.view files.old) (F.view files.new) }
    ensures ok { IfOk result (λ held. AreServed (F.view files.old) catalog.now (placed held)) }
    ensures few { IfOk result (λ held. length held.docs.items ≤ 32) }
    ensures err { IfErr result (IsServingStop (F.view files.old) (F.view files.new) catalog.now) }
{
    let sources = load_base(alloc, files, catalog)?;
    let docs = mount_all(alloc, files, &sources)?;
    let sites = read_all_sites(alloc, &sources)?;
    Ok(Holding { docs, sites })
}

// Answers the requests of an input by sources over stores, which are handed back.
fn serve_ready<T: Tables, R: Fars, I: Input, K: Sink>(
    alloc: Global,
    held: Holding,
    stores: Stores<T, R>,
    streams: &mut Streams<I, K>,
) -> (Result<Served, ServeFault>, Stores<T, R>)
    requires few { length held.docs.items ≤ 32 }
    ensures keeps { KeepsStores (stores_in T.view R.view stores) (stores_in T.view R.view result.1) }
    ensures answered { let old = stores_in T.view R.view stores in let new = stores_in T.view R.view result.1 in
        AreAnswered (placed held) old new (I.view streams.old.input) (I.view streams.new.input)
        (K.view streams.old.out) (K.view streams.new.out) result.0 }
    ensures input { (I.view streams.old.input).faults ≤ (I.view streams.new.input).faults }
    ensures count { (K.view streams.old.out).faults ≤ (K.view streams.new.out).faults }
{
    let Holding { docs, sites } = held;
    let Stores { tables, fars } = stores;
    let sources = Reached::new(Mounted::new(docs, tables), sites, fars);
    let (end, sources) = serve_requests(alloc, sources, streams);
    let (mounted, fars) = sources.into_parts();
    let tables = mounted.into_tables();
    (end, Stores { tables, fars })
}

// The exit status of serving, by how it ended.
fn status_of(end: Result<Served, ServeFault>) -> u8
    ensures { result ≡ serving_status end }
{
    match end {
        Ok(Served::Whole) => 0,
        Ok(Served::Broken) => 8,
        Ok(Served::TooLong) => 9,
        Err(ServeFault::SinkFailed) => 5,
        Err(ServeFault::OutOfMemory) => 6,
        Err(ServeFault::InputFailed) => 10,
    }
}

// Answers the requests of an input by all sources of a catalog.
fn serve<F: Files, T: Tables, R: Fars, I: Input, K: Sink>(
    alloc: Global,
    catalog: &str,
    files: &mut F,
    stores: Stores<T, R>,
    streams: &mut Streams<I, K>,
) -> (u8, Stores<T, R>)
    ensures ends { let old = stores_in T.view R.view stores in let new = stores_in T.view R.view result.1 in
        ServeEnds (outside (F.view files.old) old) (outside (F.view files.new) new) catalog.now
        (I.view streams.old.input) (I.view streams.new.input) (K.view streams.old.out) (K.view streams.new.out) result.0 }
    ensures reads { ReadsAmong (ServingMayRead (F.view files.old) catalog.now) (F.view files.old) (F.view files.new) }
    ensures keeps { KeepsFiles (F.view files.old) (F.view files.new) }
    ensures keeps_stores { KeepsStores (stores_in T.view R.view stores) (stores_in T.view R.view result.1) }
    ensures input { (I.view streams.old.input).faults ≤ (I.view streams.new.input).faults }
    ensures count { (K.view streams.old.out).faults ≤ (K.view streams.new.out).faults }
{
    match make_ready(alloc, catalog, files) {
        Ok(held) => {
            let (end, stores) = serve_ready(alloc, held, stores, streams);
            (status_of(end), stores)
        }
        Err(Stop::Refused(refusal)) => (refuse(alloc, refusal, &mut streams.out), stores),
        Err(Stop::SinkFailed) => (5, stores),
        Err(Stop::OutOfMemory) => (6, stores),
    }
}

/// Answers the requests of an input, as they come, by all sources of the catalog that the words `serve CATALOG` name, in its order, and
/// answers the exit status and the stores. The catalog is read first, then the bracket and CSV files of its sources, each accepted before the
/// next is read, and all before anything is taken of the input. Tables and sources of other machines are first asked by a request
/// (docs/FORMATS.md, "Serving").
///
/// Status 0: the input ended after whole requests, and all were answered. 2: the words are others than `serve CATALOG`. 3: a file is not
/// accepted. 4: a file can't be read. 5: `out` failed. 6: memory ran out. 7: a file is longer than 67,108,864 bytes. 8: a byte came that
/// begins no request, or the input ended inside a request. 9: more than 1,073,741,824 bytes came. 10: the input failed. With 8, 9 and 10 all
/// whole requests that were taken are answered, up to a byte that begins none, and no line is written; with 5 and 6 a prefix of the replies
/// was written, or of the line of a refusal. The stores are handed back whatever the status is.
pub fn mixq_serve_over<F: Files, T: Tables, R: Fars, I: Input, K: Sink>(
    alloc: Global,
    words: &[String],
    files: &mut F,
    stores: Stores<T, R>,
    streams: &mut Streams<I, K>,
) -> (u8, Stores<T, R>)
    // What was taken and written, and why the status is what it is.
    ensures ends { let before = outside (F.view files.old) (stores_in T.view R.view stores) in
        let after = outside (F.view files.new) (stores_in T.view R.view result.1) in
        ServeWordsEnd (catalog_of (map string_bytes words.now)) before after
        (I.view streams.old.input) (I.view streams.new.input) (K.view streams.old.out) (K.view streams.new.out) result.0 }

    // Which files it may have read: none after one that is refused.
    ensures reads { let old = F.view files.old in
        ReadsAmong (ServeWordsMayRead old (catalog_of (map string_bytes words.now))) old (F.view files.new) }

    // The contents of all files, the rows of all tables and the documents of other machines stay, and no count falls.
    ensures keeps { KeepsFiles (F.view files.old) (F.view files.new) }
    ensures keeps_stores { KeepsStores (stores_in T.view R.view stores) (stores_in T.view R.view result.1) }
    ensures input { (I.view streams.old.input).faults ≤ (I.view streams.new.input).faults }
    ensures count { (K.view streams.old.out).faults ≤ (K.view streams.new.out).faults }
{
    match read_serve(words) {
        Some(catalog) => serve(alloc, catalog, files, stores, streams),
        None => (refuse_words(alloc, &mut streams.out), stores),
    }
}
