// What is promised of the sources that plans read, and that documents are laid out as a catalog says.
ghost use Rattle.view_class.specs.Laid.{FilesAreLaid, TablesAreLaid};
ghost use Rattle.view_class.specs.Reads.{ReadsNamed, UnreadDontMatter};

/// The document of a CSV file is laid out as its columns say; so is that of a table whose rows have a value for each column, and none that is
/// NULL in a column that is never NULL.
pub fn sources_are_laid()
    ensures files { FilesAreLaid }
    ensures tables { TablesAreLaid }
{}

/// The plan of an accepted rule reads the sources that the rule names, and no others.
pub fn plans_read_named_sources()
    ensures { ReadsNamed }
{}

/// How a source is laid out that no operator of a valid plan reads doesn't matter to the plan's class.
pub fn unread_sources_dont_matter()
    ensures { UnreadDontMatter }
{}
