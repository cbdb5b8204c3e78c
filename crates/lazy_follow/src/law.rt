// What holds of marks from call to call, and what the definitions promise.
ghost use Rattle.lazy_follow.specs.Following.{FollowedAreNamed};
ghost use Rattle.lazy_follow.specs.Marks.{MarksShow, MarksStay};

use plan_core::tolled_is_document;

/// What every call of a bench keeps, marks keep: they stand for the same text, and their spots stay spots of the bench.
pub fn marks_stay()
    ensures { MarksStay }
{}

/// Over sources that tell their documents, where each operator of a valid plan uses no more of its inputs than they hold, what a mark shows has the label of
/// the node that its text names.
pub fn marks_show()
    ensures { MarksShow }
{
    tolled_is_document();
}

/// Over any source documents, where each operator of a valid plan uses no more of its inputs than they hold, the text of an identifier names a node of the
/// plan's document exactly where it can be followed to the end.
pub fn followed_are_named()
    ensures { FollowedAreNamed }
{
    tolled_is_document();
}
