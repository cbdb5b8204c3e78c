// What the definitions promise of runs, of plans and of classes.
ghost use Rattle.mix_run.specs.Answered.{RunsWithoutTablesAreUnmarked};
ghost use Rattle.mix_run.specs.Bounded.{BoundedPlans, BoundedViews};
ghost use Rattle.mix_run.specs.Finishing.{PlansAreFinished};

use browse_class::tolls_are_bounded;
use lazy_walk::valid_plans_have_documents;
use plan_evidence::{each_node_is_named, names_are_nodes};
use plan_make::plan_is_valid;
use plan_rewrite::rewriting_keeps_validity;
use text_senses::texts_have_senses;
use view_class::{sources_are_laid, unread_sources_dont_matter};

/// Over any source documents, a valid plan has a finished document: its tree, each node of which is named by a text, and the place of the node that each text
/// names that steps follow, where each operator uses no more of its inputs than they hold or no step follows one.
pub fn plans_are_finished()
    ensures { PlansAreFinished }
{
    valid_plans_have_documents();
    texts_have_senses();
    each_node_is_named();
    names_are_nodes();
}

/// Where a plan reads no table and no source of another machine, the status of a run is 0, and the lines of a script that writes no identifier down and follows
/// none are the transcript without notes.
pub fn runs_without_tables_are_unmarked()
    ensures { RunsWithoutTablesAreUnmarked }
{}

/// Where the class of a valid plan is bounded, a step down or right from any node of its document costs at most that many fills, whatever rows the
/// files and the tables of its sources have.
pub fn bounded_plans_have_that_bound()
    ensures { BoundedPlans }
{
    tolls_are_bounded();
    sources_are_laid();
    unread_sources_dont_matter();
}

/// Where `plan` writes that the class of a view is bounded, a step down or right from any node of the view's document costs at most that many
/// fills, whatever rows the files and the tables of its sources have.
pub fn bounded_views_have_that_bound()
    ensures { BoundedViews }
{
    plan_is_valid();
    rewriting_keeps_validity();
    bounded_plans_have_that_bound();
}
