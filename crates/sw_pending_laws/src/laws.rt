//! Laws of ledgers. Each function does nothing: its clause is the law.

ghost use Rattle.sw_pending_laws.specs.Laws.{BegunIsSound, ChangesKeepSteady, PlainChangesComeFromClients, RowsRise, SettledShowsExactly};

/// Where nothing has happened, all that was asked for was told, and all rows come from what was asked for.
pub fn begun_is_sound()
    ensures { BegunIsSound }
{}

/// After any change, of each write that was asked for at a device and each device of its container: a record of it stands there in which that device isn't
/// marked, or that device has a row that counts at least as much.
pub fn changes_keep_steady()
    ensures { ChangesKeepSteady }
{}

/// After a plain change, all rows and writes come from what clients asked for.
pub fn plain_changes_come_from_clients()
    ensures { PlainChangesComeFromClients }
{}

/// What a device has of a name it keeps, or has what counts more.
pub fn rows_rise()
    ensures { RowsRise }
{}

/// Where no record of a container is pending, each of its devices shows exactly what is live.
pub fn settled_shows_exactly()
    ensures { SettledShowsExactly }
{}
