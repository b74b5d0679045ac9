//! Laws of the expirer's queue. Each function does nothing: its clause is the law.

ghost use Rattle.std.specs.Prelude.{◌≡◌};
ghost use Rattle.sw_expiry.specs.Laws.{ContainersAreInOrder, ContainersAreNear, EntriesAreInOrder, LongPathsAreRefused, TellsOfOne, WrittenTells};
ghost use Rattle.sw_expiry.specs.Queue.{queue_account};

use crate::naming::QUEUE_ACCOUNT;

/// The account of the queue is OpenStack Swift's.
pub fn account_is_swifts()
    ensures { QUEUE_ACCOUNT.now ≡ queue_account }
{}

/// What is written for an object tells of its deletion, so that it is read as that.
pub fn written_tells()
    ensures { WrittenTells }
{}

/// An entry tells of one deletion at most.
pub fn tells_of_one()
    ensures { TellsOfOne }
{}

/// The entry of a good name is refused exactly where the names of its path have more than 2,035 bytes together, as too long.
pub fn long_paths_are_refused()
    ensures { LongPathsAreRefused }
{}

/// Entries are ordered as their times: that of an earlier one comes first in byte order.
pub fn entries_are_in_order()
    ensures { EntriesAreInOrder }
{}

/// Containers are ordered as the times that they are named by.
pub fn containers_are_in_order()
    ensures { ContainersAreInOrder }
{}

/// A container is named by a time that is not behind the beginning of the day of any of its deletions, and each of these is due less than a day and 99 seconds
/// after it.
pub fn containers_are_near()
    ensures { ContainersAreNear }
{}
