//! Laws of the definitions on reading. Each function does nothing: its clause is the law.

ghost use Rattle.sw_hashdir.specs.Laws.{OneReading, ReadAsItStands};

/// The bytes of a file are read as one write, or have one fault, and not both.
pub fn one_reading()
    ensures { OneReading }
{}

/// What is read of a file is the write by which it counts in what its hash stands for.
pub fn read_as_it_stands()
    ensures { ReadAsItStands }
{}
