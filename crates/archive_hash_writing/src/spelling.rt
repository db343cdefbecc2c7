//! Laws. Each function below has no body: it states a law in its contract.
ghost use Rattle.archive_hash_writing.specs.Laws.{EachIsFilled, SamplesAreSpelled, TablesAreWritten};
ghost use Rattle.archive_hash_writing.specs.Many.{ManyAreHeld};

/// States that tables of zero, one and three items are spelled as the sample bytes.
pub fn samples_are_spelled()
    ensures { SamplesAreSpelled }
{}

/// States that a table of numbers is written as its one archive for all hashes of its items, where a fit fills the
/// table as it is written.
pub fn tables_are_written()
    ensures { TablesAreWritten }
{}

/// States that for each table of numbers some fit fills the table as it is written.
pub fn each_is_filled()
    ensures { EachIsFilled }
{}

/// States that what is written of a list of tables is held by the layout, however each table is filled.
pub fn many_are_held()
    ensures { ManyAreHeld }
{}
