//! The laws of records, as functions that do nothing.
ghost use Rattle.sam_server.specs.Laws.{OneRecord};
ghost use Rattle.sam_server.specs.Servers.{OneIsMade};

/// States that no bytes are those of two records. So what `write_record` wrote is read by `read_record` as what was written.
pub fn one_record()
    ensures { OneRecord }
{}

/// States that the records alone decide what is made of them: the end of the link with its stream, byte by byte, the texts, and the effect
/// that waits to be done.
pub fn one_is_made()
    ensures { OneIsMade }
{}
