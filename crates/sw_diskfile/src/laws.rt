//! Laws of file names. Each function does nothing: its clause is the law.

ghost use Rattle.sw_diskfile.specs.Laws.{NamedIs, NamesDiffer, OnePick};

/// Two files have two names.
pub fn names_differ()
    ensures { NamesDiffer }
{}

/// A text names a write's file exactly where it is the name of that file.
pub fn named_is()
    ensures { NamedIs }
{}

/// The names of a directory leave no choice of what is picked.
pub fn one_pick()
    ensures { OnePick }
{}
