// What holds of the texts that are written.
ghost use Rattle.catalog_draft.specs.Law.{HeadersAreRead, TablesAreRead};

/// The line for the header of a CSV file is read as a catalog of one source, which has these columns, unless it says why there is none.
pub fn headers_are_read()
    ensures { HeadersAreRead }
{}

/// The text for the tables of a file is read as a catalog of the sources that these are to be.
pub fn tables_are_read()
    ensures { TablesAreRead }
{}
