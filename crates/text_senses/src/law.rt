// What the definitions promise of texts.
ghost use Rattle.text_senses.specs.Senses.{TextsHaveSenses};

use lazy_follow::followed_are_named;
use plan_core::visited_are_matches;

/// Over any source documents, where each operator of a valid plan uses no more of its inputs than they hold, there is a function that tells of each text
/// the place of the node that it names, or that it names none.
pub fn texts_have_senses()
    ensures { TextsHaveSenses }
{
    followed_are_named();
    visited_are_matches();
}
