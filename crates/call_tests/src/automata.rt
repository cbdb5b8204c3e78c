// What the contracts leave to tests: that calls succeed, and values worked out by hand.
use lazy_descend::{cursors_stay, finds_next_matches, numbers_are_small};
use mix_tree::Label;
use path_auto::{Auto, bindings_are_matches, visits_are_matches};
use path_expr::{Node, Path, PathFault, read_path};
use std::alloc::Global;
use std::test::Fail;

// What the automaton of a path tells after labels of one byte each: whether the path describes them, and whether it
// describes some longer list.
fn told(alloc: Global, path: &[u8], labels: &[u8]) -> Result<(bool, bool), PathFault> {
    let path = read_path(alloc, path)?;
    let auto = Auto::new(alloc, &path)?;
    let mut states = auto.start();
    for label in labels {
        if let Some(label) = Label::new(alloc, &[*label])? {
            states = auto.step(states, &label);
        }
    }
    Ok((auto.accepts(states), auto.alive(states)))
}

#[test]
fn an_automaton_tells_what_its_path_describes(rt: HostRuntime) -> Result<(), Fail> {
    let alloc = rt.alloc();
    let path = "(a|c)*.(c|a.c)";
    let rows = [
        (path, "", (false, true)),
        (path, "a", (false, true)),
        (path, "c", (true, true)),
        (path, "ac", (true, true)),
        (path, "acaac", (true, true)),
        (path, "acb", (false, false)),
        ("a?", "", (true, true)),
        ("a?", "a", (true, false)),
        ("_+", "", (false, true)),
        ("_+", "xyz", (true, true)),
        ("(a.b?)*", "aab", (true, true)),
        ("(a.b?)*", "abb", (false, false)),
        ("a.b.c", "ab", (false, true)),
        ("a.b.c", "abc", (true, false)),
    ];
    for (path, labels, wanted) in rows {
        let found = told(alloc, path.as_bytes(), labels.as_bytes())
            .ok()
            .ok_or(path)?;
        assert!(rt; found == wanted);
    }
    // A choice of no paths describes nothing, so a sequence with it doesn't either.
    let nothing = Path::new(Node::Alt(Vec::new(alloc)));
    let a = Path::new(Node::Name(Label::of_text(alloc, b"a")?));
    let path = Path::new(Node::Seq(vec![in alloc; a, nothing]?));
    let auto = Auto::new(alloc, &path)?;
    let found = (auto.accepts(auto.start()), auto.alive(auto.start()));
    assert!(rt; found == (false, false));
    bindings_are_matches();
    visits_are_matches();
    finds_next_matches();
    cursors_stay();
    numbers_are_small();
    Ok(())
}
