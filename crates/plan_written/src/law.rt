// What holds of the plans of views.
ghost use Rattle.plan_written.specs.Again.{ViewsAreReadAgain};
ghost use Rattle.plan_written.specs.Law.{CatalogsAreNumbered, ViewsAreWritable};

use plan_read::written_plans_are_read;
use plan_rewrite::rewriting_keeps_validity;

/// The plan of each rule that a text spells over the sources of a catalog has what its text needs to be read as that plan, and so has
/// its rewritten plan.
pub fn plans_of_views_are_writable()
    ensures { ViewsAreWritable }
{
    rewriting_keeps_validity();
}

/// The plan of each rule that a text spells over the sources of a catalog, of at most 10,000 operators, is read again from its text,
/// and so is its rewritten plan.
pub fn plans_of_views_are_read_again()
    ensures { ViewsAreReadAgain }
{
    written_plans_are_read();
    plans_of_views_are_writable();
    rewriting_keeps_validity();
}

/// Each source of a catalog that a text spells has a name, and is found by it at its own place.
pub fn catalogs_are_numbered()
    ensures { CatalogsAreNumbered }
{}
