// Shapes of sources, and what can stand below their nodes.
ghost use Rattle.std.specs.Prelude.{◌≡◌, true};
ghost use Rattle.browse_visit.specs.Shapes.{has_sort, no_sorts, only, both, shape_at, first_sort};

use crate::visit::TableColumn;
use mix_tree::Label;

/// How the document of a source is laid out.
#[derive(Drop)]
pub enum Shape {
    /// Nothing is known of the document.
    Any,
    /// A root of this name with any number of rows, each with these columns in order.
    Rows {
        name: Label,
        columns: Vec<TableColumn>,
    },
}

/// What can stand below a node of a source.
#[derive(Clone, Copy, PartialEq, Eq)]
pub enum Sort {
    /// Below a document node: the root.
    Document,
    /// Below a root: rows.
    Root,
    /// Below a row: its columns.
    Row,
    /// Below a column that always has a value: the value.
    Value,
    /// Below any other column: a value or nothing.
    MaybeValue,
    /// Below a value: nothing.
    Leaf,
    /// Below a node of which nothing is known: any trees.
    Anything,
}

/// A set of sorts.
#[derive(Clone, Copy)]
pub struct Sorts {
    pub document: bool,
    pub root: bool,
    pub row: bool,
    pub value: bool,
    pub maybe_value: bool,
    pub leaf: bool,
    pub anything: bool,
}

impl Sorts {
    /// The set of no sorts.
    pub fn none() -> Sorts
        ensures { result ≡ no_sorts }
    {
        Sorts {
            document: false,
            root: false,
            row: false,
            value: false,
            maybe_value: false,
            leaf: false,
            anything: false,
        }
    }

    /// The set of one sort alone.
    pub fn only(sort: Sort) -> Sorts
        ensures { result ≡ only sort }
    {
        match sort {
            Sort::Document => Sorts {
                document: true,
                ..Sorts::none()
            },
            Sort::Root => Sorts {
                root: true,
                ..Sorts::none()
            },
            Sort::Row => Sorts {
                row: true,
                ..Sorts::none()
            },
            Sort::Value => Sorts {
                value: true,
                ..Sorts::none()
            },
            Sort::MaybeValue => Sorts {
                maybe_value: true,
                ..Sorts::none()
            },
            Sort::Leaf => Sorts {
                leaf: true,
                ..Sorts::none()
            },
            Sort::Anything => Sorts {
                anything: true,
                ..Sorts::none()
            },
        }
    }

    /// Whether a sort is in the set.
    pub fn has(self, sort: Sort) -> bool
        ensures { result ≡ has_sort self sort }
    {
        match sort {
            Sort::Document => self.document,
            Sort::Root => self.root,
            Sort::Row => self.row,
            Sort::Value => self.value,
            Sort::MaybeValue => self.maybe_value,
            Sort::Leaf => self.leaf,
            Sort::Anything => self.anything,
        }
    }

    /// The sorts of either set.
    pub fn both(self, other: Sorts) -> Sorts
        ensures { result ≡ both self other }
    {
        Sorts {
            document: self.document || other.document,
            root: self.root || other.root,
            row: self.row || other.row,
            value: self.value || other.value,
            maybe_value: self.maybe_value || other.maybe_value,
            leaf: self.leaf || other.leaf,
            anything: self.anything || other.anything,
        }
    }
}

/// What stands below the document node of a source.
pub fn first_sort(shapes: &[Shape], source: usize) -> Sort
    ensures { result ≡ first_sort (shape_at shapes.now source) }
{
    match shapes.get(source) {
        Some(Shape::Rows { .. }) => Sort::Document,
        Some(Shape::Any) => Sort::Anything,
        None => Sort::Anything,
    }
}
