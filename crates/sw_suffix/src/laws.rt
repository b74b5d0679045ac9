//! Laws of the text of a suffix. Each function does nothing: its clause is the law.

ghost use Rattle.sw_suffix.specs.Laws.{LinesFromText};

/// Two lists of lines of hash directories, each in order, that have one text are one list.
pub fn lines_from_text()
    ensures { LinesFromText }
{}
