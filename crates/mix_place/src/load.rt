// Files that a command reads whole and accepts, one after another.
ghost use Rattle.std.specs.Prelude.{◌≡◌, ◌≤◌, List, ℕ, true, false, length, Ok, Err, OnOk, IfOk, IfErr, IsErrOf};
ghost use Rattle.bracket_text.specs.Stands.{SpellsTree};
ghost use Rattle.csv_wrap.specs.Stands.{HoldsRows};
ghost use Rattle.json_text.specs.Stands.{HoldsValue};
ghost use Rattle.mix_catalog.specs.Sources.{IsChunk};
ghost use Rattle.mix_io.specs.Views.{KeepsFiles, ReadsOnly};
ghost use Rattle.mix_script.specs.Steps.{ArePlain, steps_of};
ghost use Rattle.mix_script.specs.declared.step.Forms.TheVariants.{Plain};
ghost use Rattle.xmas_rule.specs.RuleMade.{rule_of};
ghost use Rattle.xmas_rule.specs.Rules.{IsAccepted};
ghost use Rattle.xmas_read.specs.Results.{names_of_sources};
ghost use Rattle.mix_place.specs.Causes.{IsRead, IsNoBytes, IsNoCatalog, IsNoJson, IsNoPlan, IsNoRule, IsNoScript, IsNoCsv, IsNoTree};
ghost use Rattle.plan_core.specs.PlanMade.{plan_value};
ghost use Rattle.mix_place.specs.Files.{IsBaseFile, IsCatalogFile, IsPlanFile, IsRuleFile, IsScript};
ghost use Rattle.mix_place.specs.Stops.{IsLoadStop};
ghost use Rattle.mix_place.specs.Mounted.{IsMounted};
ghost use Rattle.mix_place.specs.Mounting.{IsMountedFile};
ghost use Rattle.mix_place.specs.Plans.{IsPlanOver};

use crate::refusal::{FileFault, Stop, refused};
use bracket_text::read_document;
use bracket_wrap::BracketDoc;
use csv_wrap::CsvDoc;
use json_text::read_json;
use mix_catalog::{Catalog, SourceSpec, read_catalog};
use mix_io::{Files, ReadWhole, read_whole};
use mix_mount::{Mount, Mounted};
use mix_script::{Forms, ScriptFault, Step, read_script, read_script_ids};
use mix_tree::Label;
use plan_core::Plan;
use plan_read::read_plan;
use std::alloc::Global;
use table_keep::NoTables;
use xmas_read::read_rule;
use xmas_rule::Rule;

// The bytes of a file that is read whole. An error names the file and why it is refused; only want of memory has no cause.
fn load<F: Files>(alloc: Global, files: &mut F, path: &str) -> Result<Vec<u8>, Stop>
    ensures keeps { KeepsFiles (F.view files.old) (F.view files.new) }
    ensures others { ReadsOnly path.now (F.view files.old) (F.view files.new) }
    ensures steady { OnOk result ((p : List ℕ) → (F.view files.new).faults p ≡ (F.view files.old).faults p) }
    ensures ok { IfOk result (λ bytes. IsRead (F.view files.old) path.now bytes.items) }
    ensures err { IfErr result (IsLoadStop IsNoBytes (F.view files.old) (F.view files.new) path.now) }
{
    match read_whole(alloc, files, path) {
        Ok(bytes) => Ok(bytes),
        Err(ReadWhole::Failed) => Err(refused(alloc, path, FileFault::Unread)),
        Err(ReadWhole::TooLong) => Err(refused(alloc, path, FileFault::TooLong)),
        Err(ReadWhole::OutOfMemory) => Err(Stop::OutOfMemory),
    }
}

/// The tree that a file spells, mounted, to be given `chunk` children at a time, `deep` or not. An error names the file and why it is
/// refused; only want of memory has no cause. The file's bytes are free again when it is mounted.
pub fn mount_tree<F: Files>(
    alloc: Global,
    files: &mut F,
    path: &str,
    chunk: u32,
    deep: bool,
) -> Result<Mount, Stop>
    requires { IsChunk chunk }
    ensures keeps { KeepsFiles (F.view files.old) (F.view files.new) }
    ensures others { ReadsOnly path.now (F.view files.old) (F.view files.new) }
    ensures steady { OnOk result ((p : List ℕ) → (F.view files.new).faults p ≡ (F.view files.old).faults p) }
    ensures ok { IfOk result (IsMountedFile SpellsTree (F.view files.old) path.now chunk deep) }
    ensures err { IfErr result (IsLoadStop IsNoTree (F.view files.old) (F.view files.new) path.now) }
{
    let bytes = load(alloc, files, path)?;
    match read_document(alloc, &bytes) {
        Ok(nodes) => Ok(Mount::Bracket(BracketDoc::open(nodes, chunk, deep))),
        Err(fault) => Err(refused(alloc, path, FileFault::Document(fault))),
    }
}

/// The rows of a CSV file with these columns, mounted as the document of a source. An error is as with `mount_tree`.
pub fn mount_csv<F: Files>(
    alloc: Global,
    files: &mut F,
    path: &str,
    source: &SourceSpec,
    columns: &[Label],
) -> Result<Mount, Stop>
    requires { IsChunk source.now.chunk }
    ensures keeps { KeepsFiles (F.view files.old) (F.view files.new) }
    ensures others { ReadsOnly path.now (F.view files.old) (F.view files.new) }
    ensures steady { OnOk result ((p : List ℕ) → (F.view files.new).faults p ≡ (F.view files.old).faults p) }
    ensures ok { IfOk result (IsMountedFile (HoldsRows source.now.name columns.now) (F.view files.old) path.now source.now.chunk true) }
    ensures err { IfErr result (IsLoadStop (IsNoCsv columns.now) (F.view files.old) (F.view files.new) path.now) }
{
    let bytes = load(alloc, files, path)?;
    match CsvDoc::open(alloc, &bytes, &source.name, columns, source.chunk) {
        Ok(doc) => Ok(Mount::Csv(doc)),
        Err(fault) => Err(refused(alloc, path, FileFault::Csv(fault))),
    }
}

/// The value of a JSON file, mounted as the document of a source. An error is as with `mount_tree`.
pub fn mount_value<F: Files>(
    alloc: Global,
    files: &mut F,
    path: &str,
    source: &SourceSpec,
) -> Result<Mount, Stop>
    requires { IsChunk source.now.chunk }
    ensures keeps { KeepsFiles (F.view files.old) (F.view files.new) }
    ensures others { ReadsOnly path.now (F.view files.old) (F.view files.new) }
    ensures steady { OnOk result ((p : List ℕ) → (F.view files.new).faults p ≡ (F.view files.old).faults p) }
    ensures ok { IfOk result (IsMountedFile (HoldsValue source.now.name) (F.view files.old) path.now source.now.chunk false) }
    ensures err { IfErr result (IsLoadStop IsNoJson (F.view files.old) (F.view files.new) path.now) }
{
    let bytes = load(alloc, files, path)?;
    match read_json(alloc, &source.name, &bytes) {
        Ok(nodes) => Ok(Mount::Bracket(BracketDoc::open(nodes, source.chunk, false))),
        Err(fault) => Err(refused(alloc, path, FileFault::Json(fault))),
    }
}

/// The tree that a file spells as the only source, given one child at a time. An error is as with `mount_tree`.
pub fn mount_alone<F: Files>(
    alloc: Global,
    files: &mut F,
    path: &str,
) -> Result<Mounted<NoTables>, Stop>
    ensures keeps { KeepsFiles (F.view files.old) (F.view files.new) }
    ensures others { ReadsOnly path.now (F.view files.old) (F.view files.new) }
    ensures steady { OnOk result ((p : List ℕ) → (F.view files.new).faults p ≡ (F.view files.old).faults p) }
    ensures ok { IfOk result (IsMounted (F.view files.old) path.now) }
    ensures err { IfErr result (IsLoadStop IsNoTree (F.view files.old) (F.view files.new) path.now) }
{
    let mount = mount_tree(alloc, files, path, 1, false)?;
    Ok(Mounted::new(vec![in alloc; mount]?, NoTables::new()))
}

// The steps of a script, by the forms that its lines may have.
fn read_steps(alloc: Global, text: &[u8], forms: Forms) -> Result<Vec<Step>, ScriptFault>
    ensures steps { IfOk result (λ steps. steps_of forms text.now ≡ Ok steps.items) }
    ensures plain { forms ≡ Plain → IfOk result (λ steps. ArePlain steps.items) }
    ensures line { (n : ℕ) → IsErrOf result (ScriptFault.Line n) → steps_of forms text.now ≡ Err n }
{
    match forms {
        Forms::Plain => read_script(alloc, text),
        Forms::WithIds => read_script_ids(alloc, text),
    }
}

/// The steps of a file that is a script, by the forms that its lines may have. An error is as with `mount_tree`.
pub fn load_script<F: Files>(
    alloc: Global,
    files: &mut F,
    path: &str,
    forms: Forms,
) -> Result<Vec<Step>, Stop>
    ensures keeps { KeepsFiles (F.view files.old) (F.view files.new) }
    ensures others { ReadsOnly path.now (F.view files.old) (F.view files.new) }
    ensures steady { OnOk result ((p : List ℕ) → (F.view files.new).faults p ≡ (F.view files.old).faults p) }
    ensures ok { IfOk result (λ steps. IsScript forms (F.view files.old) path.now steps.items) }
    ensures plain { forms ≡ Plain → IfOk result (λ steps. ArePlain steps.items) }
    ensures err { IfErr result (IsLoadStop (IsNoScript forms) (F.view files.old) (F.view files.new) path.now) }
{
    let bytes = load(alloc, files, path)?;
    match read_steps(alloc, &bytes, forms) {
        Ok(steps) => Ok(steps),
        Err(fault) => Err(refused(alloc, path, FileFault::Script(fault))),
    }
}

/// The sources of the catalog that a file spells. An error is as with `mount_tree`.
pub fn load_catalog<F: Files>(alloc: Global, files: &mut F, path: &str) -> Result<Catalog, Stop>
    ensures keeps { KeepsFiles (F.view files.old) (F.view files.new) }
    ensures others { ReadsOnly path.now (F.view files.old) (F.view files.new) }
    ensures steady { OnOk result ((p : List ℕ) → (F.view files.new).faults p ≡ (F.view files.old).faults p) }
    ensures ok { IfOk result (IsCatalogFile (F.view files.old) path.now) }
    ensures few { IfOk result (λ catalog. length catalog ≤ 32) }
    ensures err { IfErr result (IsLoadStop IsNoCatalog (F.view files.old) (F.view files.new) path.now) }
{
    let bytes = load(alloc, files, path)?;
    match read_catalog(alloc, &bytes) {
        Ok(catalog) => {
            let count = catalog.len();
            prove!(count <= 32);
            Ok(catalog)
        }
        Err(fault) => Err(refused(alloc, path, FileFault::Catalog(fault))),
    }
}

/// The sources of the catalog that a file spells that are no views. An error is as with `mount_tree`.
pub fn load_base<F: Files>(alloc: Global, files: &mut F, path: &str) -> Result<Catalog, Stop>
    ensures keeps { KeepsFiles (F.view files.old) (F.view files.new) }
    ensures others { ReadsOnly path.now (F.view files.old) (F.view files.new) }
    ensures steady { OnOk result ((p : List ℕ) → (F.view files.new).faults p ≡ (F.view files.old).faults p) }
    ensures ok { IfOk result (IsBaseFile (F.view files.old) path.now) }
    ensures err { IfErr result (IsLoadStop IsNoCatalog (F.view files.old) (F.view files.new) path.now) }
{
    let catalog = load_catalog(alloc, files, path)?;
    Ok(catalog.base(alloc)?)
}

/// The rule that a file spells over the sources of a catalog. An error is as with `mount_tree`.
pub fn load_rule<F: Files>(
    alloc: Global,
    files: &mut F,
    path: &str,
    catalog: &Catalog,
) -> Result<Rule, Stop>
    ensures keeps { KeepsFiles (F.view files.old) (F.view files.new) }
    ensures others { ReadsOnly path.now (F.view files.old) (F.view files.new) }
    ensures steady { OnOk result ((p : List ℕ) → (F.view files.new).faults p ≡ (F.view files.old).faults p) }
    ensures ok { IfOk result (λ rule. IsRuleFile (F.view files.old) path.now (names_of_sources catalog.now) (rule_of rule)) }
    ensures accepted { IfOk result (λ rule. IsAccepted (length (names_of_sources catalog.now)) (rule_of rule)) }
    ensures err { IfErr result (IsLoadStop (IsNoRule (names_of_sources catalog.now)) (F.view files.old) (F.view files.new) path.now) }
{
    let bytes = load(alloc, files, path)?;
    match read_rule(alloc, &bytes, catalog) {
        Ok(rule) => Ok(rule),
        Err(fault) => Err(refused(alloc, path, FileFault::View(fault))),
    }
}

/// The plan that a file spells over the sources of a catalog, as it stands. An error is as with `mount_tree`.
pub fn load_plan<F: Files>(
    alloc: Global,
    files: &mut F,
    path: &str,
    catalog: &Catalog,
) -> Result<Plan, Stop>
    ensures keeps { KeepsFiles (F.view files.old) (F.view files.new) }
    ensures others { ReadsOnly path.now (F.view files.old) (F.view files.new) }
    ensures steady { OnOk result ((p : List ℕ) → (F.view files.new).faults p ≡ (F.view files.old).faults p) }
    ensures ok { IfOk result (λ plan. IsPlanFile (F.view files.old) path.now catalog.now (plan_value plan)) }
    ensures over { IfOk result (λ plan. IsPlanOver catalog.now (plan_value plan)) }
    ensures err { IfErr result (IsLoadStop (IsNoPlan catalog.now) (F.view files.old) (F.view files.new) path.now) }
{
    let bytes = load(alloc, files, path)?;
    match read_plan(alloc, &bytes, catalog) {
        Ok(plan) => Ok(plan),
        Err(fault) => Err(refused(alloc, path, FileFault::Plan(fault))),
    }
}
