ghost use Rattle.std.specs.Prelude.{◌≡◌, IfOk};

use std::alloc::Global;
use sw_outside::{Bytes, NoMemory, is_utf8};
use sw_state::{
    Base, Content, Head, HeadList, Heads, Kind, LATEST_DELETE_AT, NotHeads, State, Write, laws,
};
use sw_timestamp::{Tag, Timestamp};

/// A write, by its time in seconds and its kind, and by the body that a put gives or the color that a meta gives.
struct Given {
    seconds: u64,
    tag: Tag,
    text: &'static [u8],
}

const DATA_AT_5: Given = Given {
    seconds: 5,
    tag: Tag::Put,
    text: b"old",
};

const TOMBSTONE_AT_7: Given = Given {
    seconds: 7,
    tag: Tag::Del,
    text: b"",
};

const DATA_AT_8: Given = Given {
    seconds: 8,
    tag: Tag::Put,
    text: b"new",
};

const TOMBSTONE_AT_8: Given = Given {
    seconds: 8,
    tag: Tag::Del,
    text: b"",
};

const META_AT_8: Given = Given {
    seconds: 8,
    tag: Tag::Meta,
    text: b"green",
};

const META_AT_9: Given = Given {
    seconds: 9,
    tag: Tag::Meta,
    text: b"red",
};

/// The writes of the worked example.
static WORKED: [Given; 4] = [DATA_AT_5, META_AT_9, TOMBSTONE_AT_7, DATA_AT_8];

/// Every order in which the four can arrive.
const ORDERS: [[usize; 4]; 24] = [
    [0, 1, 2, 3],
    [0, 1, 3, 2],
    [0, 2, 1, 3],
    [0, 2, 3, 1],
    [0, 3, 1, 2],
    [0, 3, 2, 1],
    [1, 0, 2, 3],
    [1, 0, 3, 2],
    [1, 2, 0, 3],
    [1, 2, 3, 0],
    [1, 3, 0, 2],
    [1, 3, 2, 0],
    [2, 0, 1, 3],
    [2, 0, 3, 1],
    [2, 1, 0, 3],
    [2, 1, 3, 0],
    [2, 3, 0, 1],
    [2, 3, 1, 0],
    [3, 0, 1, 2],
    [3, 0, 2, 1],
    [3, 1, 0, 2],
    [3, 1, 2, 0],
    [3, 2, 0, 1],
    [3, 2, 1, 0],
];

/// Writes that come to one state in this order, and whether each changes it.
static ARRIVALS: [(Given, bool); 9] = [
    (DATA_AT_8, true),
    (DATA_AT_8, false),
    (DATA_AT_5, false),
    (META_AT_8, false),
    (META_AT_9, true),
    (META_AT_9, false),
    (TOMBSTONE_AT_8, true),
    (DATA_AT_8, false),
    (TOMBSTONE_AT_7, false),
];

/// Whether a write comes to the first of two states, the write, and whether each state is then at least the other.
type Exchange = (bool, Given, bool, bool);

/// Such writes in their order.
static EXCHANGES: [Exchange; 5] = [
    (true, DATA_AT_5, true, false),
    (true, META_AT_9, true, false),
    (false, TOMBSTONE_AT_7, false, false),
    (false, META_AT_9, false, true),
    (true, TOMBSTONE_AT_7, true, true),
];

fn head(alloc: Global, name: &[u8], value: &[u8]) -> Result<Head, NoMemory>
    ensures { IfOk result (λ head. head.name ≡ name.now) }
{
    Ok(Head {
        name: Bytes::copy(alloc, name)?,
        value: Bytes::copy(alloc, value)?,
    })
}

/// The list of the items that the names and values are, in whatever order they come.
fn list_of(alloc: Global, items: &[(&[u8], &[u8])]) -> Result<HeadList, NoMemory> {
    let mut list = HeadList::new(alloc);
    for (name, value) in items {
        if HeadList::is_name(name) {
            list.put(head(alloc, name, value)?)?;
        }
    }
    Ok(list)
}

fn heads(alloc: Global, color: &[u8]) -> Result<Heads, NoMemory> {
    Ok(Heads {
        delete_at: None,
        items: list_of(alloc, &[(b"x-object-meta-color", color)])?,
    })
}

/// A text of this body. Its ETag is that of no body: nobody looks at it. A type that is no text is told as want of memory.
pub(crate) fn content(alloc: Global, body: &[u8]) -> Result<Content, NoMemory> {
    let content_type = b"text/plain";
    if !is_utf8(content_type) {
        return Err(NoMemory);
    }
    Ok(Content {
        body: Bytes::copy(alloc, body)?,
        content_type: Bytes::copy(alloc, content_type)?,
        etag: [7; 16],
        heads: heads(alloc, b"blue")?,
    })
}

/// None where there is no memory.
fn write_of(alloc: Global, given: &Given) -> Option<Write> {
    let time = Timestamp::from_units(given.seconds.saturating_mul(100_000))?;
    let kind = match given.tag {
        Tag::Put => Kind::Put(content(alloc, given.text).ok()?),
        Tag::Del => Kind::Del,
        Tag::Meta => Kind::Meta(heads(alloc, given.text).ok()?),
    };
    Some(Write { time, kind })
}

/// Whether a state has the data of 8 seconds, with the color and the time of the meta of 9.
fn is_new_data_with_meta(state: &State) -> bool {
    let Some(Base::Put(put, content)) = &state.base else {
        return false;
    };
    let Some(heads) = state.effective_heads() else {
        return false;
    };
    put.units() == 800_000
        && content.body.as_slice() == b"new".as_slice()
        && content.content_type.as_slice() == b"text/plain".as_slice()
        && content.etag == [7; 16]
        && heads.items.get(b"x-object-meta-color") == Some(b"red".as_slice())
        && state.object_time().map(|time| time.units()) == Some(900_000)
}

/// Whether a state is the deletion at 8 seconds, and so has no object.
fn is_deleted(state: &State) -> bool {
    let Some(base) = &state.base else {
        return false;
    };
    base.tag() == Tag::Del
        && base.time().units() == 800_000
        && base.is_deletion()
        && state.effective_heads().is_none()
        && state.object_time().is_none()
}

/// Whether the writes that stand at these places leave the new data and the meta.
fn leave_new_data_with_meta(alloc: Global, places: &[usize; 4]) -> Option<bool> {
    let mut state = State::empty();
    for at in places {
        let _changed = state.join(write_of(alloc, &WORKED[at % 4])?);
    }
    Some(is_new_data_with_meta(&state))
}

#[test]
fn every_order_of_arrival_leaves_the_new_data_and_the_meta(rt: HostRuntime) {
    for order in &ORDERS {
        assert!(rt;
            leave_new_data_with_meta(rt.alloc(), order) == Some(true),
            "{order:?}"
        );
    }
}

/// Whether the write changes the state, and would by its time and tag, as it is said to.
fn arrives(alloc: Global, state: &mut State, given: &Given, changes: bool) -> Option<bool> {
    let write = write_of(alloc, given)?;
    let told = state.adds(write.time, given.tag);
    let changed = state.join(write);
    Some(told == changes && changed == changes)
}

/// Whether each write arrives as it is said to, and the state is deleted then.
fn all_arrive(alloc: Global) -> Option<bool> {
    let mut state = State::empty();
    for (given, changes) in &ARRIVALS {
        if !arrives(alloc, &mut state, given, *changes)? {
            return Some(false);
        }
    }
    Some(is_deleted(&state))
}

#[test]
fn a_deletion_wins_at_the_time_of_a_put_and_repeats_change_nothing(rt: HostRuntime) {
    assert!(rt; all_arrive(rt.alloc()) == Some(true));
}

/// Whether each state is at least the other as it is said to be, once the write came to one of them.
fn is_exchanged(
    alloc: Global,
    one: &mut State,
    other: &mut State,
    (to_one, given, one_has_all, other_has_all): &Exchange,
) -> Option<bool> {
    let write = write_of(alloc, given)?;
    let _changed = if *to_one {
        one.join(write)
    } else {
        other.join(write)
    };
    Some(one.at_least(other) == *one_has_all && other.at_least(one) == *other_has_all)
}

fn all_are_exchanged(alloc: Global) -> Option<bool> {
    let mut one = State::empty();
    let mut other = State::empty();
    for exchange in &EXCHANGES {
        if !is_exchanged(alloc, &mut one, &mut other, exchange)? {
            return Some(false);
        }
    }
    Some(true)
}

#[test]
fn two_replicas_are_at_least_each_other_once_each_has_the_other_s_writes(rt: HostRuntime) {
    assert!(rt; all_are_exchanged(rt.alloc()) == Some(true));
}

/// The copy of a write.
fn copy_of(alloc: Global, given: &Given) -> Option<Write> {
    write_of(alloc, given)?.copy(alloc).ok()
}

/// Whether the copy of a state of copies of writes is the state of the writes.
fn is_copied(alloc: Global) -> Option<bool> {
    let mut state = State::empty();
    for given in &WORKED {
        let _changed = state.join(copy_of(alloc, given)?);
    }
    Some(is_new_data_with_meta(&state.copy(alloc).ok()?))
}

#[test]
fn a_copy_of_a_state_is_equal(rt: HostRuntime) {
    assert!(rt; is_copied(rt.alloc()) == Some(true));
}

/// Whether the list has the last value of each name.
fn keeps_the_last(list: &HeadList) -> bool {
    list.as_slice().len() == 3
        && list.get(b"a") == Some(b"3".as_slice())
        && list.get(b"b") == Some(b"1".as_slice())
        && list.get(b"c") == Some(b"4".as_slice())
        && list.get(b"d").is_none()
}

/// Whether the items of the list make no list the other way round.
fn is_no_list_turned(alloc: Global, list: &HeadList) -> Result<bool, NoMemory> {
    let mut turned: Vec<Head> = list.copy(alloc)?.into();
    turned.reverse();
    Ok(matches!(HeadList::from_heads(turned), Err(NotHeads)))
}

/// Whether the items of the list make the same list.
fn is_made_again(list: HeadList) -> bool {
    let items: Vec<Head> = list.into();
    match HeadList::from_heads(items) {
        Ok(list) => keeps_the_last(&list),
        Err(NotHeads) => false,
    }
}

fn is_list(alloc: Global) -> Result<bool, NoMemory> {
    let list = list_of(
        alloc,
        &[(b"b", b"1"), (b"c", b"2"), (b"a", b"3"), (b"c", b"4")],
    )?;
    let keeps = keeps_the_last(&list);
    let turned = is_no_list_turned(alloc, &list)?;
    let again = is_made_again(list);
    Ok(keeps && turned && again)
}

#[test]
fn a_list_keeps_the_last_item_of_a_name_in_order(rt: HostRuntime) {
    assert!(rt; is_list(rt.alloc()) == Ok(true));
}

#[test]
fn names_of_items_and_times_of_expiry_have_their_grammar(rt: HostRuntime) {
    for (name, good) in [
        (b"a-b".as_slice(), true),
        (b"a b", false),
        (b"", false),
        (b"a\x7f", false),
    ] {
        assert!(rt; HeadList::is_name(name) == good);
    }
    for (seconds, good) in [(0, true), (9_999_999_999, true), (10_000_000_000, false)] {
        assert!(rt; Heads::is_delete_time(seconds) == good);
    }
    assert_eq!(rt; LATEST_DELETE_AT, 9_999_999_999);
}

#[test]
fn laws_are_called() {
    laws::state_is_state();
    laws::one_state();
    laws::state_of_set();
    laws::state_of_its_writes();
    laws::joins_one_more();
    laws::joins_lists();
    laws::join_associates();
    laws::join_commutes();
    laws::join_is_idempotent();
    laws::either_order();
    laws::comes_again();
    laws::at_least_itself();
    laws::at_least_transitive();
    laws::at_least_antisymmetric();
    laws::join_is_at_least();
    laws::at_least_one_write();
    laws::new_changes();
}
