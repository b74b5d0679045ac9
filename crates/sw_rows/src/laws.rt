//! Laws of rows. Each function does nothing: its clause is the law.

ghost use Rattle.sw_rows.specs.Laws.{KeepsTheGreatest, NumbersRise};

/// After a merge each name has the row that counts most of the one that it had and the merged one.
pub fn keeps_the_greatest()
    ensures { KeepsTheGreatest }
{}

/// Whatever rows are merged, a row that didn't stand before has a number above all that were given out before, and none
/// above the greatest that was given out since.
pub fn numbers_rise()
    ensures { NumbersRise }
{}
