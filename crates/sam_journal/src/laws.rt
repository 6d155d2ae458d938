//! Laws of a journal's bytes, as functions that do nothing, for whoever reasons about what was read.
ghost use Rattle.sam_journal.specs.Laws.{DamageIsTold, DurableIsKept, FrontsAreRead, OneList, OneReading, RecordsAreRead};

/// States that `read` has one answer to any bytes, and that one list of records is the whole ones from the front on.
pub fn one_reading()
    ensures answer { OneReading }
    ensures records { OneList }
{}

/// States that what was appended is read: of the bytes of a head and of records that `append` wrote, each saying no more durable than stood
/// before it, `read` answers just these records.
pub fn records_are_read()
    ensures { RecordsAreRead }
{}

/// States that of any front of such a file that has all that was durable the whole records are read, and no others: they are the first so
/// many, and all whose bytes are there. The rest is a torn end, and no damage, if no bytes in the front look like a record that says more.
pub fn fronts_are_read()
    ensures { FrontsAreRead }
{}

/// States that records which were durable are read, whatever stands behind them: a disk may have got the blocks behind them in any order,
/// or not. What is read begins with them, and it is no damage, if no record in the file says that more was durable.
pub fn durable_is_kept()
    ensures { DurableIsKept }
{}

/// States that a file is refused as damaged if a whole record, anywhere in it, says that so many bytes were durable, and its first so many
/// bytes are no front of a head and records.
pub fn damage_is_told()
    ensures { DamageIsTold }
{}
