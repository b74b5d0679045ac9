//! Writers of a diary, in one thread and in two.
ghost use Rattle.std.specs.Prelude.{◌≡◌, ◌≢◌, ◌+◌, cond, [], ◌∷◌, length, IfOk};
ghost use Rattle.sw_turn.specs.Known.{first_of};
ghost use Rattle.sw_turn.specs.Rule.{idle, IsIdle};
ghost use Rattle.std.specs.Thread.{IsSync};
ghost use Rattle.sw_turn_tests.specs.Made.{made};

use crate::diary::Diary;
use std::alloc::Global;
use std::sync::Wait;
use std::thread::{Threads, join};
use sw_turn::{Pass, Turn};

/// The diary at the end, and how many entries each thread wrote.
#[derive(Drop)]
pub struct Ended {
    pub diary: Diary,
    pub left: u64,
    pub right: u64,
}

// Writes the item, if there is memory. Answers whether it did.
fn write_once<R: Wait>(rt: &R, lock: &Turn<Diary>, pass: &mut Pass<Diary>, item: u64) -> bool
    requires lock { pass.old.table_id ≡ lock.now.board.shared.table_id }
    requires idle { pass.old.me ≡ (idle pass.old.me.0.known pass.old.me.0.seats (first_of pass.old.me.0.numbers ∷ []), []) }
    ensures lock { pass.new.table_id ≡ pass.old.table_id }
    ensures idle { pass.new.me ≡ (idle pass.new.me.0.known pass.old.me.0.seats (first_of pass.old.me.0.numbers ∷ []), []) }
    ensures made { made pass.new.me.0 ≡ made pass.old.me.0 + cond result 1 0 }
{
    let mut guard = lock.enter(rt, pass);
    let wrote = guard.value.write(item);
    lock.leave(guard, pass);
    wrote
}

// Writes the item so many times, or until memory runs out. Answers how often it did.
fn write_all<R: Wait>(
    rt: &R,
    lock: &Turn<Diary>,
    mut pass: Pass<Diary>,
    item: u64,
    count: u64,
) -> (Pass<Diary>, u64)
    requires lock { pass.table_id ≡ lock.now.board.shared.table_id }
    requires idle { pass.me ≡ (idle pass.me.0.known pass.me.0.seats (first_of pass.me.0.numbers ∷ []), []) }
    ensures lock { result.0.table_id ≡ lock.now.board.shared.table_id }
    ensures idle { result.0.me ≡ (idle result.0.me.0.known pass.me.0.seats (first_of pass.me.0.numbers ∷ []), []) }
    ensures made { made result.0.me.0 ≡ made pass.me.0 + result.1 }
{
    let mut wrote = 0;
    for turn in 0..count {
        if !write_once(rt, lock, &mut pass, item) {
            break;
        }
        wrote += 1;
    }
    (pass, wrote)
}

// Writes the item, if there is memory, with a pass of any numbers.
fn write_with<R: Wait>(rt: &R, lock: &Turn<Diary>, pass: &mut Pass<Diary>, item: u64)
    requires lock { pass.old.table_id ≡ lock.now.board.shared.table_id }
    requires idle { IsIdle pass.old.me }
    requires live { pass.old.me.0.numbers ≢ [] }
    ensures lock { pass.new.table_id ≡ pass.old.table_id }
    ensures idle { pass.new.me ≡ (idle pass.new.me.0.known pass.old.me.0.seats pass.old.me.0.numbers, []) }
{
    let mut guard = lock.enter(rt, pass);
    guard.value.write(item);
    lock.leave(guard, pass);
}

/// One thread with a lock of three numbers, two of which stay with the first pass while a second one has the third. It writes 1, 2, 3 with these by turns,
/// and 4 once they are joined.
pub fn by_parts<R: Wait>(rt: &R, alloc: Global, diary: Diary) -> Result<Diary, Diary> {
    let (lock, mut one) = Turn::new(alloc, diary, 3)?;
    let mut two = lock.split(&mut one);
    write_with(rt, &lock, &mut one, 1);
    write_with(rt, &lock, &mut two, 2);
    write_with(rt, &lock, &mut one, 3);
    lock.join(&mut two, one);
    write_with(rt, &lock, &mut two, 4);
    Ok(lock.close(two))
}

/// One thread with a lock of one number. It writes the item.
pub fn by_one<R: Wait>(rt: &R, alloc: Global, diary: Diary, item: u64) -> Result<Diary, Diary> {
    let (lock, mut pass) = Turn::new(alloc, diary, 1)?;
    write_with(rt, &lock, &mut pass, item);
    Ok(lock.close(pass))
}

/// Two threads write so many items each. At the end each entry that they wrote is in the diary once, and no other.
pub fn by_two<R: Threads + Wait + Sync>(rt: &R, alloc: Global, count: u64) -> Result<Ended, Diary>
    ensures { IfOk result (λ e. length e.diary.items.items ≡ e.left + e.right) }
{
    let (lock, mut one) = Turn::new(alloc, Diary::new(alloc), 2)?;
    let two = lock.split(&mut one);
    let shared = &lock;
    let (left, right) = join(
        rt,
        || -> (Pass<Diary>, u64)
            requires sync { IsSync R.row }
            requires lock { one.table_id ≡ shared.now.board.shared.table_id }
            requires idle { one.me ≡ (idle one.me.0.known 2 (0 ∷ []), []) }
            requires none { made one.me.0 ≡ 0 }
            ensures lock { result.0.table_id ≡ shared.entry.now.board.shared.table_id }
            ensures idle { result.0.me ≡ (idle result.0.me.0.known 2 (0 ∷ []), []) }
            ensures made { made result.0.me.0 ≡ result.1 }
        { write_all(rt, shared, one, 1, count) },
        || -> (Pass<Diary>, u64)
            requires sync { IsSync R.row }
            requires lock { two.table_id ≡ shared.now.board.shared.table_id }
            requires idle { two.me ≡ (idle two.me.0.known 2 (1 ∷ []), []) }
            requires none { made two.me.0 ≡ 0 }
            ensures lock { result.0.table_id ≡ shared.entry.now.board.shared.table_id }
            ensures idle { result.0.me ≡ (idle result.0.me.0.known 2 (1 ∷ []), []) }
            ensures made { made result.0.me.0 ≡ result.1 }
        { write_all(rt, shared, two, 2, count) },
    );
    let (mut one, left) = left;
    let (two, right) = right;
    lock.join(&mut one, two);
    let diary = lock.close(one);
    Ok(Ended { diary, left, right })
}
