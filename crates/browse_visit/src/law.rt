// The laws of visits and of the shapes of documents.
ghost use Rattle.browse_visit.specs.Laid.{VisitsAreAsLaid};
ghost use Rattle.browse_visit.specs.Tables.{ShapesAreLaid, FilesAreLaid};

/// Below a node whose trees are laid out by one of some layouts, the events of the visit along a path are as the profile that follows from the
/// layouts says, and the trees below each of its bindings are laid out by one of those that were found.
pub fn visits_are_as_laid()
    ensures { VisitsAreAsLaid }
{}

/// A document of rows with the columns of a shape, in each of which a column that always has a value has one, is laid out as the shape says
/// (`tables`); so is one of records that have a field for each column (`files`).
pub fn tables_are_laid()
    ensures tables { ShapesAreLaid }
    ensures files { FilesAreLaid }
{}
