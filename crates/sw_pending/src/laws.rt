//! Laws of records. Each function does nothing: its clause is the law.

ghost use Rattle.sw_pending.specs.Laws.{DecodedIsOutcome, DecodedReadsBack, OneOutcome, OneSpelling, ReadsBack, SomeOutcome};
ghost use Rattle.sw_pending.specs.Laws.{MarksAdd, MarksAreOnce, NamedIs, NamesDiffer};

/// A text names a record's file exactly where it is the name of the file of that key.
pub fn named_is()
    ensures { NamedIs }
{}

/// Two keys have two names.
pub fn names_differ()
    ensures { NamesDiffer }
{}

/// A mark adds its device to those that are done, and no other.
pub fn marks_add()
    ensures { MarksAdd }
{}

/// A mark of a device that is done changes nothing.
pub fn marks_are_once()
    ensures { MarksAreOnce }
{}

/// Two records have two texts.
pub fn one_spelling()
    ensures { OneSpelling }
{}

/// The text of a record is read as that record. `encode` ensures that the text of each record whose name is a good one, with
/// its hash, is such a one.
pub fn reads_back()
    ensures { ReadsBack }
{}

/// Any bytes are a record or have a fault.
pub fn some_outcome()
    ensures { SomeOutcome }
{}

/// Bytes are one record or have one fault, and not both.
pub fn one_outcome()
    ensures { OneOutcome }
{}

/// What the function says that bytes are read as is the record whose text they are, or the fault that they have.
pub fn decoded_is_outcome()
    ensures { DecodedIsOutcome }
{}

/// The text of a record is decoded as that record.
pub fn decoded_reads_back()
    ensures { DecodedReadsBack }
{}
