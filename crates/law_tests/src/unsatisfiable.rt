// Paths of plans that match nothing, over a table, a CSV file and a source of which nothing is known; and their law.
use crate::labels::label;
use browse_visit::{Shape, Sort, TableColumn};
use mix_catalog::read_catalog;
use plan_read::read_plan;
use std::alloc::{AllocError, Global};
use unsatisfiable_paths::{UnsatisfiablePath, unsatisfiable_in, unsatisfiable_paths_have_no_match};

#[test]
fn no_match_is_proved(_rt: HostRuntime) {
    unsatisfiable_paths_have_no_match();
}

const CATALOG: &[u8] = b"source homes table f homes key id columns zip!,name chunk 1
source zones csv f columns zip chunk 1
source notes bracket f chunk 1";

// A column that is not there, one that is, a key that is not listed, a wildcard, a path below a value, choices of which one branch or none leads
// somewhere, a path below nowhere; in a CSV file a value that may have any label, and no such column; and a source of which nothing is known.
const PLAN: &[u8] = b"0 source homes -> $Homes
1 getDescendants 0 $Homes homes.row -> $Home
2 getDescendants 1 $Home city -> $City
3 getDescendants 2 $Home zip -> $Zip
4 getDescendants 3 $Home id -> $Id
5 getDescendants 4 $Zip _ -> $Value
6 getDescendants 5 $Value _ -> $Below
7 getDescendants 6 $Home (city|name) -> $Name
8 getDescendants 7 $Home (city|id)._ -> $Neither
9 getDescendants 8 $City _ -> $Nowhere
10 source zones -> $Zones
11 getDescendants 10 $Zones _*.name -> $Named
12 getDescendants 11 $Zones zones.name -> $Unnamed
13 join 9 12
14 source notes -> $Notes
15 getDescendants 14 $Notes home.city -> $Note
16 join 13 15
17 groupBy 16 {} $Note -> $List
18 createElement 17 out $List -> $Out
19 tupleDestroy 18 $Out";

// The operators of those that match nothing, with the one sort of the nodes where each starts, if there is any.
const WANTED: &[(usize, u32, Option<Sort>)] = &[
    (2, 0, Some(Sort::Row)),
    (4, 0, Some(Sort::Row)),
    (6, 0, Some(Sort::Leaf)),
    (8, 0, Some(Sort::Row)),
    (9, 0, None),
    (12, 1, Some(Sort::Document)),
];

// A root of this name, and rows with these columns.
fn rows(alloc: Global, name: &str, columns: &[(&str, bool)]) -> Result<Shape, AllocError> {
    let mut found = Vec::new(alloc);
    for (column, has_value) in columns {
        found.push(TableColumn {
            label: label(alloc, column)?,
            has_value: *has_value,
        })?;
    }
    Ok(Shape::Rows {
        name: label(alloc, name)?,
        columns: found,
    })
}

// The shapes of the catalog's sources.
fn shapes(alloc: Global) -> Result<Vec<Shape>, AllocError> {
    let mut shapes = Vec::new(alloc);
    shapes.push(rows(alloc, "homes", &[("zip", true), ("name", false)])?)?;
    shapes.push(rows(alloc, "zones", &[("zip", true)])?)?;
    shapes.push(Shape::Any)?;
    Ok(shapes)
}

// Whether a path is told as is wanted.
fn is_told(path: &UnsatisfiablePath, wanted: &(usize, u32, Option<Sort>)) -> bool {
    const ALL: [Sort; 7] = [
        Sort::Document,
        Sort::Root,
        Sort::Row,
        Sort::Value,
        Sort::MaybeValue,
        Sort::Leaf,
        Sort::Anything,
    ];
    let (op, source, from) = *wanted;
    path.op == op
        && path.source == source
        && ALL
            .iter()
            .all(|sort| path.from.has(*sort) == (from == Some(*sort)))
}

// Whether the paths of the plan are told as is wanted; `None` where a text is refused or memory runs out.
fn are_told(alloc: Global) -> Option<bool> {
    let Ok(catalog) = read_catalog(alloc, CATALOG) else {
        return None;
    };
    let Ok(plan) = read_plan(alloc, PLAN, &catalog) else {
        return None;
    };
    let Ok(shapes) = shapes(alloc) else {
        return None;
    };
    let Ok(paths) = unsatisfiable_in(alloc, &plan, &shapes) else {
        return None;
    };
    if paths.len() != WANTED.len() {
        return Some(false);
    }
    for (path, wanted) in paths.iter().zip(WANTED) {
        if !is_told(path, wanted) {
            return Some(false);
        }
    }
    Some(true)
}

#[test]
fn paths_without_matches_are_told(rt: HostRuntime) {
    assert!(rt; are_told(rt.alloc()) == Some(true));
}
