// Tags: an element is closed under the name that it is opened with.
ghost use Rattle.std.specs.Prelude.{◌≡◌};
ghost use Rattle.xmas_text.specs.Elements.{contents_of};
ghost use Rattle.xmas_read.specs.Refusals.{first_in, differing_tags, differing_in};

use xmas_text::{ElementText, ItemText};

// The first closing tag among items that has another name than its opening tag.
#[cycle(tags)]
fn tag_in_items(items: &[ItemText]) -> Option<usize>
    ensures { result ≡ first_in (differing_tags (contents_of items.now)) }
{
    for item in items {
        if let ItemText::Element(element) = item {
            if let Some(at) = differing_tag(element) {
                return Some(at);
            }
        }
    }
    None
}

/// The first closing tag of an element, its own included, that has another name than its opening tag.
#[cycle(tags)]
pub fn differing_tag(element: &ElementText) -> Option<usize>
    ensures { result ≡ first_in (differing_in element.now) }
{
    if let Some(at) = tag_in_items(&element.items) {
        return Some(at);
    }
    if element.name == element.close_name {
        None
    } else {
        Some(element.close_at)
    }
}
