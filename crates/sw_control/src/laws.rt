//! Laws of what is asked for, and of what is told. Each function does nothing: its clause is the law.

ghost use Rattle.sw_control.specs.Laws.{AsksForOne, TellsDone};

/// A control request asks for one thing.
pub fn asks_for_one()
    ensures { AsksForOne }
{}

/// The text of an outcome tells whether the pass is done.
pub fn tells_done()
    ensures { TellsDone }
{}
