ghost use Rattle.std.specs.Prelude.{◌≡◌, ◌↔◌, ◌+◌, ◌<◌, ◌≤◌, ◌++◌, ◌∷◌, Err, None, Some, IfOk, MatchOption, length};
ghost use Rattle.sw_hashpath.specs.Paths.{hash_of};
ghost use Rattle.sw_hashpath.specs.declared.bad_name.BadName.{BadName};
ghost use Rattle.sw_expiry.specs.Queue.{entry_of, queue_container, queue_fault, queue_name as queue_name_of, queue_time};

use crate::digits::ten_digits;
use arrayvec::ArrayVec;
use std::alloc::Global;
use sw_hashpath::{BadName, Name, NameError, Secrets};

/// The account that has the expirer's queue.
pub const QUEUE_ACCOUNT: &[u8] = b".expiring_objects";

const SECONDS_PER_DAY: u64 = 86_400;

/// The entries of one day are spread over so many containers.
const CONTAINERS_PER_DAY: u128 = 100;

/// The text of an entry, which has at most 2,048 bytes, as any object in an account that begins with `.`.
type EntryText = ArrayVec<u8, 2048>;

/// The name of the queue's entry for an object that is to be deleted at this time, in seconds since the epoch, which has ten digits at most, as any time at
/// which an object expires. The container is named by the beginning of that day, less the object's hash as a number modulo 100, and never below 0; the hash is
/// the MD5 of the object's path, where the name has that of the same secrets.
///
/// The error is [`NameError::Bad`] with the first thing that is wrong with the name of the entry, and [`NameError::NoMemory`] only over a good one. For a good
/// name of an object nothing is wrong but that the names of its path have more than 2,035 bytes together ([`crate::laws::long_paths_are_refused`]).
pub fn queue_name(
    alloc: Global,
    secrets: &Secrets,
    name: &Name,
    delete_at: u64,
) -> Result<Name, NameError>
    requires { delete_at ≤ 9999999999 }
    ensures name { IfOk result (λ queue. queue ≡ queue_name_of secrets.now name.now delete_at) }
    ensures good { IfOk result (λ _. queue_fault name.now delete_at ≡ None) }
    ensures bad { (bad : BadName) → (result ≡ Err (NameError.Bad bad)) ↔ (queue_fault name.now delete_at ≡ Some bad) }
    ensures hashed { let hash = hash_of secrets.now name.now.account (Some name.now.container) (Some name.now.object) in
        name.now.hash ≡ hash → IfOk result (λ queue. queue.container ≡ queue_container hash delete_at) }
{
    let container = ten_digits(container_time(&name.hash, delete_at));
    let Some(entry) = entry_text(name, delete_at) else {
        return Err(NameError::Bad(BadName::TooLong));
    };
    Name::new(alloc, secrets, QUEUE_ACCOUNT, &container, entry.as_slice())
}

/// The time that the container of an entry is named by.
#[tactic(auto, unfolding(crate::specs::Queue::queue_time))]
fn container_time(hash: &[u8; 16], delete_at: u64) -> u64
    ensures value { result ≡ queue_time hash.now delete_at }
    ensures bound { result ≤ delete_at }
{
    let part = (u128::from_be_bytes(*hash) % CONTAINERS_PER_DAY) as u64;
    (delete_at / SECONDS_PER_DAY * SECONDS_PER_DAY).saturating_sub(part)
}

/// The text of an object's entry, where it has at most 2,048 bytes.
#[tactic(auto, unfolding(crate::specs::Queue::queue_entry))]
fn entry_text(name: &Name, delete_at: u64) -> Option<EntryText>
    requires { delete_at ≤ 9999999999 }
    ensures { MatchOption result (2048 < length (entry_of name.now delete_at)) (λ text. text.items ≡ entry_of name.now delete_at) }
{
    let mut text = EntryText::new();
    text.try_extend_from_slice(&ten_digits(delete_at)).ok()?;
    push_part(&mut text, b'-', name.account.as_slice())?;
    push_part(&mut text, b'/', name.container.as_slice())?;
    push_part(&mut text, b'/', name.object.as_slice())?;
    Some(text)
}

/// Adds a byte and a part, where there is room for both.
fn push_part(text: &mut EntryText, byte: u8, part: &[u8]) -> Option<()>
    ensures { MatchOption result (2048 < length text.old.items + 1 + length part.now) (λ _. text.new.items ≡ text.old.items ++ byte ∷ part.now) }
{
    text.try_push(byte).ok()?;
    text.try_extend_from_slice(part).ok()
}
