// Which trees are small enough for a wire.
ghost use Rattle.std.specs.Prelude.{◌≡◌};
ghost use Rattle.std.specs.List.{list_all};
ghost use Rattle.mix_tree.specs.Forest.{forest_of};
ghost use Rattle.lxp_memory.specs.Small.{fits_wire, fits_within, is_short};

use mix_tree::Tree;

// The least length that a wire doesn't bear.
const TOO_LONG: usize = 1 << 32;

// Whether a tree's label and the list below it are shorter than 2^32.
fn is_short(tree: &Tree) -> bool
    ensures { result ≡ is_short tree.now.label tree.now.kids }
{
    tree.label().bytes().len() < TOO_LONG && tree.kids().len() < TOO_LONG
}

// Whether trees have at most so many levels, and each label and each list below one is shorter than 2^32.
fn fits_within(levels: u32, trees: &[Tree]) -> bool
    ensures { result ≡ fits_within levels (forest_of trees.now) }
{
    'trees: for tree in trees {
        if levels == 0 {
            return false;
        }
        if !is_short(tree) {
            return false;
        }
        if !fits_within(levels - 1, tree.kids()) {
            return false;
        }
    }
    true
}

// Whether a tree has at most 200 levels, and each label and each list in it is shorter than 2^32.
fn fits_wire(tree: &Tree) -> bool
    ensures { result ≡ fits_wire tree.now }
{
    is_short(tree) && fits_within(199, tree.kids())
}

/// Whether each of some trees has at most 200 levels, and each label and each list in it is shorter than 2^32, as the documents of
/// `MemSources` have to be.
pub fn fit_wire(trees: &[Tree]) -> bool
    ensures { result ≡ list_all fits_wire trees.now }
{
    trees.iter().all(|tree| fits_wire(tree))
}
