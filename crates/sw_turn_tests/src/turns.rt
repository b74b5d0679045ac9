use crate::diary::Diary;
use crate::writers::{Ended, by_one, by_parts, by_two};
use std::alloc::Global;
use std::test::Fail;

const EACH: u64 = 20_000;

/// A diary with one item.
fn begun(alloc: Global, item: u64) -> Diary {
    let mut diary = Diary::new(alloc);
    diary.write(item);
    diary
}

/// Whether the value came back as it went in, if there was no lock for it.
fn gives_back(given: &Result<Diary, Diary>, was: &[u64]) -> bool {
    match given {
        Ok(_) => true,
        Err(diary) => diary.items.as_slice() == was,
    }
}

fn leaves(given: &Result<Diary, Diary>, wanted: &[u64]) -> bool {
    match given {
        Ok(diary) => diary.items.as_slice() == wanted,
        Err(_) => false,
    }
}

fn times(item: u64, items: &[u64]) -> u64 {
    let mut count: u64 = 0;
    for it in items {
        if *it == item {
            count = count.saturating_add(1);
        }
    }
    count
}

fn is_whole(given: &Result<Ended, Diary>) -> bool {
    match given {
        Ok(ended) => {
            let items = ended.diary.items.as_slice();
            ended.left == EACH
                && ended.right == EACH
                && items.len() as u64 == 2 * EACH
                && times(1, items) == EACH
                && times(2, items) == EACH
        }
        Err(_) => false,
    }
}

#[test]
fn two_threads_write_each_entry_once(rt: HostRuntime) -> Result<(), Fail> {
    assert!(rt; is_whole(&by_two(&rt, rt.alloc(), EACH)));
    Ok(())
}

#[test]
fn a_pass_is_split_used_joined_and_closed(rt: HostRuntime) -> Result<(), Fail> {
    let given = by_parts(&rt, rt.alloc(), begun(rt.alloc(), 9));
    assert!(rt;
        gives_back(&given, &[9]),
        "the value comes back for want of memory"
    );
    assert!(rt; leaves(&given, &[9, 1, 2, 3, 4]));
    Ok(())
}

#[test]
fn a_lock_may_have_one_seat(rt: HostRuntime) -> Result<(), Fail> {
    let given = by_one(&rt, rt.alloc(), Diary::new(rt.alloc()), 7);
    assert!(rt;
        gives_back(&given, &[]),
        "the value comes back for want of memory"
    );
    assert!(rt; leaves(&given, &[7]));
    Ok(())
}
