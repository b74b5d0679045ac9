//! A step at one lock, with its line.

ghost use Rattle.std.specs.Prelude.{◌≡◌, []};
ghost use Rattle.sw_container_locks.specs.Making.{IsChangedIn, IsReadIn, line_of, taken};
ghost use Rattle.sw_container_steps.specs.Reads.{info_of, listing_of, parcel_of, range_parcel_of, sharding_of, times_of};
ghost use Rattle.sw_peer.specs.declared.cont_event.ContEvent.TheVariants.{Changed, Cleft, Informed, Listed, Parceled, Sharded, Timed};

use std::alloc::Global;
use sw_container_db::ContDir;
use sw_container_steps::{ContAnswer, ContChange, Info, Parcel, Sharding};
use sw_hashpath::Place;
use sw_keeper::Keeper;
use sw_listing::{Entries, Query};
use sw_object_steps::Added;
use sw_peer::{ContEvent, Event, KeptLine, Line, Link, Seen};
use sw_timestamp::Timestamp;

/// The put time and the delete time of a container.
pub(crate) type Times = Option<(Timestamp, Option<Timestamp>)>;

/// Makes a step that may change the container, and its line. What it entered is moved out of the lock.
pub(crate) fn change_in<K: Keeper + Drop>(
    alloc: Global,
    dir: &mut ContDir<K>,
    link: Link,
    device: u8,
    place: &Place,
    change: &ContChange,
) -> (ContAnswer, KeptLine)
    requires fresh { dir.old.fresh ≡ [] }
    ensures { IsChangedIn K.tells K.holds K.faults K.calls dir.old link device place.now change.now result.0 dir.new result.1 }
{
    let answer = dir.change(alloc, place, change);
    let event = changed(place, change, &answer);
    let line = line_of(alloc, dir, link, device, event);
    (answer, line)
}

/// Reads the times of the container, and makes the line of that.
pub(crate) fn times_in<K: Keeper + Drop>(
    alloc: Global,
    dir: &mut ContDir<K>,
    link: Link,
    device: u8,
    place: &Place,
) -> (Result<Times, ContAnswer>, KeptLine)
    requires fresh { dir.old.fresh ≡ [] }
    ensures { IsReadIn K.tells K.holds K.faults K.calls dir.old link device place.now times_of (λ got. Timed place.now got) result.0 dir.new result.1 }
{
    let got = dir.times(alloc, place);
    let event = ContEvent::Timed(Seen::of(place), Seen::of(&got));
    let line = line_of(alloc, dir, link, device, event);
    (got, line)
}

/// Reads what is told of the container, and makes the line of that.
pub(crate) fn info_in<K: Keeper + Drop>(
    alloc: Global,
    dir: &mut ContDir<K>,
    link: Link,
    device: u8,
    place: &Place,
) -> (Result<Info, ContAnswer>, KeptLine)
    requires fresh { dir.old.fresh ≡ [] }
    ensures { IsReadIn K.tells K.holds K.faults K.calls dir.old link device place.now info_of (λ got. Informed place.now got) result.0 dir.new result.1 }
{
    let got = dir.info(alloc, place);
    let event = ContEvent::Informed(Seen::of(place), Seen::of(&got));
    let line = line_of(alloc, dir, link, device, event);
    (got, line)
}

/// Reads the listing that answers a query, and makes the line of that.
pub(crate) fn list_in<K: Keeper + Drop>(
    alloc: Global,
    dir: &mut ContDir<K>,
    link: Link,
    device: u8,
    place: &Place,
    query: &Query,
) -> (Result<Entries, ContAnswer>, KeptLine)
    requires fresh { dir.old.fresh ≡ [] }
    ensures { IsReadIn K.tells K.holds K.faults K.calls dir.old link device place.now (listing_of query.now) (λ got. Listed place.now query.now got) result.0
        dir.new result.1 }
{
    let got = dir.list(alloc, place, query);
    let event = ContEvent::Listed(Seen::of(place), Seen::of(query), Seen::of(&got));
    let line = line_of(alloc, dir, link, device, event);
    (got, line)
}

/// Reads the rows above the sync point that the container keeps for a device, and makes the line of that.
pub(crate) fn sync_rows_in<K: Keeper + Drop>(
    alloc: Global,
    dir: &mut ContDir<K>,
    link: Link,
    device: u8,
    place: &Place,
    to: u8,
) -> (Result<Parcel, ContAnswer>, KeptLine)
    requires fresh { dir.old.fresh ≡ [] }
    ensures { IsReadIn K.tells K.holds K.faults K.calls dir.old link device place.now (parcel_of to) (λ got. Parceled place.now to got) result.0 dir.new
        result.1 }
{
    let got = dir.sync_rows(alloc, place, to);
    let event = ContEvent::Parceled(Seen::of(place), to, Seen::of(&got));
    let line = line_of(alloc, dir, link, device, event);
    (got, line)
}

/// Reads how far the container is split into shards, and makes the line of that.
pub(crate) fn sharding_in<K: Keeper + Drop>(
    alloc: Global,
    dir: &mut ContDir<K>,
    link: Link,
    device: u8,
    place: &Place,
) -> (Result<Sharding, ContAnswer>, KeptLine)
    requires fresh { dir.old.fresh ≡ [] }
    ensures { IsReadIn K.tells K.holds K.faults K.calls dir.old link device place.now sharding_of (λ got. Sharded place.now got) result.0 dir.new result.1 }
{
    let got = dir.sharding(alloc, place);
    let event = ContEvent::Sharded(Seen::of(place), Seen::of(&got));
    let line = line_of(alloc, dir, link, device, event);
    (got, line)
}

/// Reads the rows of a range that are above a number, and makes the line of that.
pub(crate) fn rows_above_in<K: Keeper + Drop>(
    alloc: Global,
    dir: &mut ContDir<K>,
    link: Link,
    device: u8,
    place: &Place,
    range: u32,
    above: u64,
) -> (Result<Parcel, ContAnswer>, KeptLine)
    requires fresh { dir.old.fresh ≡ [] }
    ensures { IsReadIn K.tells K.holds K.faults K.calls dir.old link device place.now (range_parcel_of range above) (λ got. Cleft place.now range above got)
        result.0 dir.new result.1 }
{
    let got = dir.rows_above(alloc, place, range, above);
    let event = ContEvent::Cleft(Seen::of(place), range, above, Seen::of(&got));
    let line = line_of(alloc, dir, link, device, event);
    (got, line)
}

/// What a line tells of a step that may change the container.
fn changed(place: &Place, change: &ContChange, answer: &ContAnswer) -> ContEvent
    ensures { result ≡ Changed place.now change.now answer.now }
{
    ContEvent::Changed(Seen::of(place), Seen::of(change), Seen::of(answer))
}

/// Takes what the step entered out of the lock, and makes the line of it. No memory is taken.
fn line_of<K: Keeper + Drop>(
    alloc: Global,
    dir: &mut ContDir<K>,
    link: Link,
    device: u8,
    event: ContEvent,
) -> KeptLine
    ensures line { result ≡ line_of link device event dir.old.fresh }
    ensures after { dir.new ≡ taken dir.old }
{
    let none = Vec::new(alloc);
    let entered = dir.take_fresh(alloc);
    let line = Line {
        device,
        link,
        event: Event::AtContainer(event, Seen::of(&entered)),
        added: Added::since(&none, 0),
    };
    KeptLine::of_container(alloc, line, entered)
}
