// What the contracts leave to tests of places in trees, and of keys in force.
use mix_tree::{Key, Label, Place, Tree, Var, item_collects, key_stands, keys_in_force};
use std::alloc::{AllocError, Global};

// A tree of these kids.
fn tree(alloc: Global, text: &str, kids: Vec<Tree>) -> Result<Tree, AllocError> {
    Ok(Tree::new(Label::of_text(alloc, text.as_bytes())?, kids))
}

// The tree `a[b[c],d]`.
fn small_tree(alloc: Global) -> Result<Tree, AllocError> {
    let leaf = tree(alloc, "c", Vec::new(alloc))?;
    let left = tree(alloc, "b", vec![in alloc; leaf]?)?;
    let right = tree(alloc, "d", Vec::new(alloc))?;
    tree(alloc, "a", vec![in alloc; left, right]?)
}

// Whether the steps lead to a leaf with this label, or nowhere.
fn leads_to(tree: &Tree, place: &Place, leaf: Option<&str>) -> bool {
    match (tree.at(place), leaf) {
        (Some(found), Some(leaf)) => found.label().bytes() == leaf.as_bytes()
            && found.kids().is_empty(),
        (None, None) => true,
        _ => false,
    }
}

// Whether these steps in the small tree lead to a leaf with this label, or nowhere.
fn steps_lead_to(alloc: Global, steps: &[u64], leaf: Option<&str>) -> Result<bool, AllocError> {
    let place = Place::new(Vec::from_slice(alloc, steps)?);
    let tree = small_tree(alloc)?;
    Ok(tree.kid(2).is_none() && leads_to(&tree, &place, leaf))
}

// Steps, each with the leaf that they lead to, if they do.
const STEPS: &[(&[u64], Option<&str>)] = &[
    (&[0, 0], Some("c")),
    (&[1], Some("d")),
    (&[1, 0], None),
];

#[test]
fn a_place_leads_to_a_subtree(rt: HostRuntime) {
    for (steps, leaf) in STEPS {
        assert!(rt; steps_lead_to(rt.alloc(), steps, *leaf) == Ok(true));
    }
}

// Whether a node in force gives its label too.
fn node_gives_its_label(alloc: Global) -> Result<bool, AllocError> {
    let (x, y) = (Var::new(0), Var::new(1));
    let own = [Key::LabelOf(x), Key::Node(y), Key::Node(x)];
    let force = keys_in_force(alloc, &[Key::Node(x)], &own)?;
    Ok(
        force.len() == 3
            && key_stands(&force, &Key::LabelOf(y))
            && !key_stands(&[Key::LabelOf(x)], &Key::Node(x))
            && item_collects(&[Key::Node(x)], &own)
            && !item_collects(&force, &own)
            && x.number() == 0,
    )
}

#[test]
fn a_node_in_force_gives_its_label(rt: HostRuntime) {
    assert!(rt; node_gives_its_label(rt.alloc()) == Ok(true));
}
