// The documents of sources, those that a plan reads or all, read and mounted one after another.
ghost use Rattle.std.specs.Prelude.{◌≡◌, ◌<◌, ◌≤◌, List, ℕ, true, false, IsTrue, length, slice_get, Some, OnOk, IfOk, IfErr};
ghost use Rattle.mix_catalog.specs.Grammar.{is_view};
ghost use Rattle.mix_catalog.specs.Sources.{IsChunk};
ghost use Rattle.mix_io.specs.Views.{KeepsFiles};
ghost use Rattle.mix_mount.specs.declared.mount.Mount.TheVariants.{Absent};
ghost use Rattle.plan_core.specs.PlanMade.{plan_value};
ghost use Rattle.mix_place.specs.Chosen.{ChosenMayRead, every};
ghost use Rattle.mix_place.specs.Mounting.{AllAreMounted, AreMounted, IsBase, IsMountStop, IsMountedSpec, IsMountFor, IsSourceStop, IsSpecStop, AreMountedBeside, IsMountWhere, IsStopWhere, put_in};
ghost use Rattle.mix_place.specs.Reading.{ReadsAmong, IsFileBefore, IsFileFor, IsWholeFile};
ghost use Rattle.mix_place.specs.Added.{added_by};
ghost use Rattle.view_class.specs.Reads.{reads_source};

use crate::load::{mount_csv, mount_tree, mount_value};
use crate::readers::{Added, is_added};
use crate::refusal::Stop;
use mix_catalog::{Catalog, SourceKind, SourceSpec};
use mix_io::Files;
use mix_mount::Mount;
use mix_tree::Label;
use plan_core::Plan;
use std::alloc::Global;
use std::str;
use table_wrap::TableDoc;
use view_class::reads_source;

/// The path that a label is.
pub fn path_of(file: &Label) -> &str
    ensures { result.now ≡ file.now }
{
    match str::from_utf8(file.bytes()) {
        Ok(path) => path,
        Err(_) => unreachable!(),
    }
}

// The document of a source that is no view, given as the catalog says. That of a table asks for no page yet, and of a source of another machine
// nothing is mounted. An error is as with `mount_tree`.
fn mount_spec<F: Files>(alloc: Global, files: &mut F, spec: &SourceSpec) -> Result<Mount, Stop>
    requires chunk { IsChunk spec.now.chunk }
    requires other { is_view spec.now.kind ≡ false }
    ensures keeps { KeepsFiles (F.view files.old) (F.view files.new) }
    ensures reads { ReadsAmong (IsWholeFile spec.now) (F.view files.old) (F.view files.new) }
    ensures steady { OnOk result ((p : List ℕ) → (F.view files.new).faults p ≡ (F.view files.old).faults p) }
    ensures ok { IfOk result (IsMountedSpec (F.view files.old) spec.now) }
    ensures err { IfErr result (IsSpecStop (F.view files.old) (F.view files.new) spec.now) }
{
    match &spec.kind {
        SourceKind::Bracket { file, deep } => {
            mount_tree(alloc, files, path_of(file), spec.chunk, *deep)
        }
        SourceKind::Csv { file, columns } => {
            mount_csv(alloc, files, path_of(file), spec, columns.as_slice())
        }
        SourceKind::Table { .. } => Ok(Mount::Table(TableDoc::open(alloc, spec)?)),
        SourceKind::Json { file } => mount_value(alloc, files, path_of(file), spec),
        SourceKind::Remote { .. } => Ok(Mount::Absent),
        SourceKind::View { .. } => Ok(Mount::Absent),
    }
}

// The mount of a source's number for a plan: the source's document where the plan reads the source, else `Absent`.
fn mount_source<F: Files>(
    alloc: Global,
    files: &mut F,
    plan: &Plan,
    s: u32,
    spec: &SourceSpec,
) -> Result<Mount, Stop>
    requires chunk { IsChunk spec.now.chunk }
    requires other { is_view spec.now.kind ≡ false }
    ensures keeps { KeepsFiles (F.view files.old) (F.view files.new) }
    ensures reads { ReadsAmong (IsFileFor (reads_source (plan_value plan.now).ops) s spec.now) (F.view files.old) (F.view files.new) }
    ensures steady { OnOk result ((p : List ℕ) → (F.view files.new).faults p ≡ (F.view files.old).faults p) }
    ensures ok { IfOk result (IsMountFor (F.view files.old) (reads_source (plan_value plan.now).ops) s spec.now) }
    ensures err { IfErr result (IsSourceStop (F.view files.old) (F.view files.new) (reads_source (plan_value plan.now).ops) s spec.now) }
{
    if reads_source(plan, s) {
        mount_spec(alloc, files, spec)
    } else {
        Ok(Mount::Absent)
    }
}

/// The mounts of a catalog's sources, none of them a view, for a plan, by their numbers: the documents of those that the plan reads, read in the order of the
/// catalog, each accepted before the next is read, and `Absent` for all others. An error names the first file that is refused.
pub fn mount_sources<F: Files>(
    alloc: Global,
    files: &mut F,
    catalog: &Catalog,
    plan: &Plan,
) -> Result<Vec<Mount>, Stop>
    requires { IsBase catalog.now }
    ensures keeps { KeepsFiles (F.view files.old) (F.view files.new) }
    ensures reads { let old = F.view files.old in
        ReadsAmong (ChosenMayRead old (reads_source (plan_value plan.now).ops) catalog.now) old (F.view files.new) }
    ensures steady { OnOk result ((p : List ℕ) → (F.view files.new).faults p ≡ (F.view files.old).faults p) }
    ensures read { let chosen = reads_source (plan_value plan.now).ops in
        OnOk result (ReadsAmong (IsFileBefore chosen catalog.now (length catalog.now)) (F.view files.old) (F.view files.new)) }
    ensures ok { IfOk result (λ docs. AreMounted (F.view files.old) (plan_value plan.now).ops catalog.now docs.items) }
    ensures err { IfErr result (IsMountStop (F.view files.old) (F.view files.new) (reads_source (plan_value plan.now).ops) catalog.now) }
{
    let mut docs = Vec::new(alloc);
    for s in 0..catalog.len() {
        docs.push(mount_source(alloc, files, plan, s, catalog.spec(s))?)?;
    }
    Ok(docs)
}

// The mount of a source's number: the source's document where a view adds it, else what was mounted there.
fn mount_added<F: Files>(
    alloc: Global,
    files: &mut F,
    spec: &SourceSpec,
    chosen: bool,
) -> Result<Option<Mount>, Stop>
    requires chunk { IsChunk spec.now.chunk }
    requires other { is_view spec.now.kind ≡ false }
    ensures keeps { KeepsFiles (F.view files.old) (F.view files.new) }
    ensures reads { ReadsAmong (λ path. IsTrue chosen × IsWholeFile spec.now path) (F.view files.old) (F.view files.new) }
    ensures steady { OnOk result ((p : List ℕ) → (F.view files.new).faults p ≡ (F.view files.old).faults p) }
    ensures ok { IfOk result (IsMountWhere (F.view files.old) chosen spec.now) }
    ensures err { IfErr result (IsStopWhere (F.view files.old) (F.view files.new) chosen spec.now) }
{
    if chosen {
        Ok(Some(mount_spec(alloc, files, spec)?))
    } else {
        Ok(None)
    }
}

// Puts what is mounted, if anything is, in its place.
fn put(docs: &mut Vec<Mount>, s: u32, mount: Option<Mount>)
    requires { s < length docs.old.items }
    ensures { docs.new.items ≡ put_in docs.old.items s mount }
{
    if let Some(mount) = mount {
        docs[s as usize] = mount;
    }
}

/// Mounts the sources that a view adds, read in the order of the catalog, each accepted before the next is read. An error names the first file that is
/// refused.
pub fn mount_more<F: Files>(
    alloc: Global,
    files: &mut F,
    base: &Catalog,
    added: &Added<'_>,
    docs: &mut Vec<Mount>,
) -> Result<(), Stop>
    requires base { IsBase base.now }
    requires count { length docs.old.items ≡ length base.now }
    ensures keeps { KeepsFiles (F.view files.old) (F.view files.new) }
    ensures reads { ReadsAmong (ChosenMayRead (F.view files.old) (added_by added.now) base.now) (F.view files.old) (F.view files.new) }
    ensures steady { OnOk result ((p : List ℕ) → (F.view files.new).faults p ≡ (F.view files.old).faults p) }
    ensures read { OnOk result (ReadsAmong (IsFileBefore (added_by added.now) base.now (length base.now)) (F.view files.old) (F.view files.new)) }
    ensures ok { OnOk result (AreMountedBeside (F.view files.old) (added_by added.now) base.now docs.old.items docs.new.items) }
    ensures err { IfErr result (IsMountStop (F.view files.old) (F.view files.new) (added_by added.now) base.now) }
{
    for s in 0..base.len() {
        let mount = mount_added(alloc, files, base.spec(s), is_added(added, s))?;
        put(docs, s, mount);
    }
    Ok(())
}

/// The mounts of all sources of a catalog, none of them a view, by their numbers: their documents, read in the order of the catalog, each accepted before the
/// next is read. That of a table asks for no page yet. An error names the first file that is refused.
pub fn mount_all<F: Files>(
    alloc: Global,
    files: &mut F,
    catalog: &Catalog,
) -> Result<Vec<Mount>, Stop>
    requires { IsBase catalog.now }
    ensures keeps { KeepsFiles (F.view files.old) (F.view files.new) }
    ensures reads { ReadsAmong (ChosenMayRead (F.view files.old) every catalog.now) (F.view files.old) (F.view files.new) }
    ensures steady { OnOk result ((p : List ℕ) → (F.view files.new).faults p ≡ (F.view files.old).faults p) }
    ensures ok { IfOk result (λ docs. AllAreMounted (F.view files.old) catalog.now docs.items) }
    ensures few { IfOk result (λ docs. length docs.items ≤ 32) }
    ensures err { IfErr result (IsMountStop (F.view files.old) (F.view files.new) every catalog.now) }
{
    let mut docs = Vec::new(alloc);
    for s in 0..catalog.len() {
        docs.push(mount_spec(alloc, files, catalog.spec(s))?)?;
    }
    Ok(docs)
}
