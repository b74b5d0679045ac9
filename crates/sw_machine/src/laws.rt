//! Laws of runs. Each function does nothing: its clause is the law.

ghost use Rattle.sw_machine.specs.Doors.{BaseReadsGoOn, ContainerChangesGoOn, DeviceListingsGoOn, FilesReadsGoOn, GoingOnJoins, HashesReadsGoOn, InfosGoOn};
ghost use Rattle.sw_machine.specs.Doors.{ListingsGoOn, ObjectChangesGoOn, ObjectReadsGoOn, ParcelsGoOn, RangeRowsGoOn, RecordsReadsGoOn, RestartsGoOn};
ghost use Rattle.sw_machine.specs.Doors.{RunsOnJoin, SameGoesOn, SendingGoesOn, ShardingsGoOn, TimesGoOn, WriteReadsGoOn};
ghost use Rattle.sw_machine.specs.Entering.{HashesCalm, JournalsGrow, LinesTellHashes, LinesTellPlaces, PlacesCalm};
ghost use Rattle.sw_machine.specs.Laws.{HashesAreTold, HashesMayStand, HashesStand, MessagesWereSent, PlacesAreTold, PlacesMayStand, RowsAreMerged};
ghost use Rattle.sw_machine.specs.Laws.{RunKeepsTheGreatest, RunSends, RunsJoin};

/// After a run each device stands, under each hash whose lock told its contents, for what it stood for and the writes that reached it, whatever failed.
pub fn hashes_stand()
    ensures { HashesStand }
{}

/// And the rows of each container that weren't taken away are those that it had, with those merged that reached it in the run, and no others.
pub fn rows_are_merged()
    ensures { RowsAreMerged }
{}

/// So where they weren't taken away each name has the greatest of the row that it had and those that reached the container in the run.
pub fn run_keeps_the_greatest()
    ensures { RunKeepsTheGreatest }
{}

/// What a device may hold by its journals, before a run, it may hold after it: of objects, and of containers.
pub fn locks_may_stand()
    ensures objects { HashesMayStand }
    ensures containers { PlacesMayStand }
{}

/// Where no doubt of it is left, it holds what its entries tell.
pub fn without_doubts_told()
    ensures objects { HashesAreTold }
    ensures containers { PlacesAreTold }
{}

/// Where a device isn't restarted, its journals grow by the entries that the lines added to them, failed steps or not: so a front is the number of those.
pub fn journals_grow()
    ensures { JournalsGrow }
{}

/// So where no doubt of it is left at the end, a device holds what it held and what the entries of the lines leave: of objects, and of containers.
pub fn lines_tell()
    ensures objects { LinesTellHashes }
    ensures containers { LinesTellPlaces }
{}

/// A lock that had no doubts, and has counted no fault at the end, has none.
pub fn no_faults_no_doubts()
    ensures objects { HashesCalm }
    ensures containers { PlacesCalm }
{}

/// What came in a message had been sent.
pub fn messages_were_sent()
    ensures { MessagesWereSent }
{}

/// What was sent after a run is what had been sent, and what was sent in it.
pub fn run_sends()
    ensures { RunSends }
{}

/// Two runs, one after the other, are one.
pub fn runs_join()
    ensures { RunsJoin }
{}

/// A door that goes on with a run, and then with another, goes on with both.
pub fn going_on_joins()
    ensures one { GoingOnJoins }
    ensures every { RunsOnJoin }
{}

/// Where only counts of a door changed, nothing came.
pub fn same_goes_on()
    ensures { SameGoesOn }
{}

/// And by what a device may send as things are.
pub fn sending_goes_on()
    ensures { SendingGoesOn }
{}

/// A door that is alone goes on with a run by each step and each call at an object: one that may change it, a read of it, and reads of a partition, of what
/// is compared, of the files of a suffix, and of a file.
pub fn objects_go_on()
    ensures changes { ObjectChangesGoOn }
    ensures reads { ObjectReadsGoOn }
    ensures hashes { HashesReadsGoOn }
    ensures files { FilesReadsGoOn }
    ensures write { WriteReadsGoOn }
{}

/// By each read that records of updates ask for: of all those of a stripe, and of the row to tell for one.
pub fn records_go_on()
    ensures records { RecordsReadsGoOn }
    ensures base { BaseReadsGoOn }
{}

/// By each at a container: one that may change it, a read of its times or of what is told of it, a listing, a read of rows above a sync point, and those that
/// tell how far it is split and which rows a range has.
pub fn containers_go_on()
    ensures changes { ContainerChangesGoOn }
    ensures times { TimesGoOn }
    ensures infos { InfosGoOn }
    ensures listings { ListingsGoOn }
    ensures parcels { ParcelsGoOn }
    ensures shardings { ShardingsGoOn }
    ensures range_rows { RangeRowsGoOn }
{}

/// By each listing of all files of a device, and by each restart of it.
pub fn devices_go_on()
    ensures listings { DeviceListingsGoOn }
    ensures restarts { RestartsGoOn }
{}
