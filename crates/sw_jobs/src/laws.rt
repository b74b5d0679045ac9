//! Laws of generated lists. Each function does nothing: its clause is the law.

ghost use Rattle.sw_jobs.specs.Laws.{DevicesStand, NamesAreGood, NoneIsFound, NothingDisagrees, NumbersRise, TimesRise};

/// The numbers of a generated list are those from 0, in the order of the list.
pub fn numbers_rise()
    ensures { NumbersRise }
{}

/// Each write of a generated list is later than the writes before it, so no two have one time.
pub fn times_rise()
    ensures { TimesRise }
{}

/// No two jobs of a generated list disagree.
pub fn nothing_disagrees()
    ensures { NothingDisagrees }
{}

/// So [`crate::disagreement`] of a generated list finds none.
pub fn none_is_found()
    ensures { NoneIsFound }
{}

/// Each job of a generated list is a device's of the ring.
pub fn devices_stand()
    ensures { DevicesStand }
{}

/// Nothing is wrong with the names of a generated list, and each has the hash of its path.
pub fn names_are_good()
    ensures { NamesAreGood }
{}
