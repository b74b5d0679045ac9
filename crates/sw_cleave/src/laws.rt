//! Laws of passes that split a container. Each function does nothing: its clause is the law.

ghost use Rattle.sw_cleave.specs.Laws.{CutsAreTiled, DonePassesGoOn};

/// Where a pass is done, and nobody else changed the nodes meanwhile, the container at its device has more closed ranges than before, or its rows are
/// taken away.
pub fn done_passes_go_on()
    ensures { DonePassesGoOn }
{}

/// Ranges that are cut at bounds that rise, none of which is empty, are all names, each once.
pub fn cuts_are_tiled()
    ensures { CutsAreTiled }
{}
