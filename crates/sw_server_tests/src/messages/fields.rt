use std::alloc::Global;
use std::test::Fail;
use sw_fields::laws::keeps_the_last;
use sw_fields::{
    agrees_with, asks_for_none, expiry_of, has_value, heads_of, is_expired, is_replicated,
    items_of, time_of, type_of,
};
use sw_hashpath::Name;
use sw_message::{Field, FieldList};
use sw_outside::Bytes;
use sw_state::Heads;
use sw_timestamp::Timestamp;

/// How many fields of user metadata there are, whether all have one name, the sizes of a name and of a value, and whether they are taken.
///
/// 16 items of 256 bytes are as many bytes as there may be, and a name that comes again counts once.
const METADATA: [(usize, bool, usize, usize, bool); 10] = [
    (0, false, 0, 0, true),
    (90, false, 2, 0, true),
    (91, false, 2, 0, false),
    (1, false, 128, 256, true),
    (1, false, 129, 0, false),
    (1, false, 2, 257, false),
    (1, false, 0, 0, false),
    (16, false, 128, 128, true),
    (17, false, 41, 200, false),
    (100, true, 128, 256, true),
];

/// The sizes of objects' names, and whether the queue can name the object, which is the account `.a`'s and the container `c`'s.
const EXPIRING: [(usize, bool); 2] = [(2032, true), (2033, false)];

/// What an object that is put at second 5 is given.
const GIVEN: [(&[u8], &[u8]); 4] = [
    (b"X-Delete-At", b"7"),
    (b"Expires", b"0"),
    (b"x-delete-at", b"6"),
    (b"X-Object-Meta-Color", b"red"),
];

/// A field, and whether it says that another node sends what it has, that nothing may stand, what the ETag of the empty text is, and a
/// content type.
const SINGLE: [(&[u8], &[u8], bool, bool, bool, bool); 9] = [
    (b"X-Backend-Replication", b"True", true, false, true, false),
    (b"x-backend-replication", b"true", true, false, true, false),
    (b"X-Backend-Replication", b"TRUE", false, false, true, false),
    (b"If-None-Match", b"*", false, true, true, false),
    (b"If-None-Match", b"\"*\"", false, false, true, false),
    (
        b"ETag",
        b"\"D41D8CD98F00B204E9800998ECF8427E\"",
        false,
        false,
        true,
        false,
    ),
    (
        b"ETag",
        b"d41d8cd98f00b204e9800998ecf8427f",
        false,
        false,
        false,
        false,
    ),
    (b"Content-Type", b"text/plain", false, false, true, true),
    (b"Content-Type", b"", false, false, true, false),
];

/// The MD5 of the empty text.
const EMPTY: [u8; 16] = [
    0xd4, 0x1d, 0x8c, 0xd9, 0x8f, 0x00, 0xb2, 0x04, 0xe9, 0x80, 0x09, 0x98, 0xec, 0xf8, 0x42, 0x7e,
];

/// The fields of these names and values.
fn fields(alloc: Global, pairs: &[(&[u8], &[u8])]) -> Result<FieldList, Fail> {
    let mut fields = Vec::new(alloc);
    for (name, value) in pairs {
        fields.push(Field {
            name: Bytes::copy(alloc, name)?,
            value: Bytes::copy(alloc, value)?,
        })?;
    }
    Ok(FieldList::from(fields))
}

/// A letter of the name with this number: the first two tell names apart.
fn letter(number: usize, place: usize) -> u8 {
    match place {
        0 => b'a' + (number / 26 % 26) as u8,
        1 => b'a' + (number % 26) as u8,
        _ => b'a',
    }
}

/// A field of user metadata whose name and value have these sizes.
fn item(alloc: Global, number: usize, name_size: usize, value_size: usize) -> Result<Field, Fail> {
    let mut name = Vec::from_slice(alloc, b"X-Object-Meta-")?;
    for place in 0..name_size {
        name.push(letter(number, place))?;
    }
    Ok(Field {
        name: Bytes::from(name),
        value: Bytes::from(vec![in alloc; b'v'; value_size]?),
    })
}

/// Whether so many fields of user metadata are taken.
fn is_taken(
    alloc: Global,
    count: usize,
    alike: bool,
    name_size: usize,
    value_size: usize,
) -> Result<bool, Fail> {
    let mut fields = Vec::new(alloc);
    for number in 0..count {
        let number = if alike { 0 } else { number };
        fields.push(item(alloc, number, name_size, value_size)?)?;
    }
    Ok(items_of(alloc, &FieldList::from(fields))?.is_some())
}

#[test]
fn user_metadata_is_limited(rt: HostRuntime) -> Result<(), Fail> {
    for (count, alike, name_size, value_size, want) in METADATA {
        let taken = is_taken(rt.alloc(), count, alike, name_size, value_size)?;
        assert!(rt; taken == want);
    }
    keeps_the_last();
    Ok(())
}

/// The name of an object of this many bytes.
fn name(alloc: Global, size: usize) -> Result<Name, Fail> {
    Ok(Name {
        account: Bytes::copy(alloc, b".a")?,
        container: Bytes::copy(alloc, b"c")?,
        object: Bytes::from(vec![in alloc; b'o'; size]?),
        hash: [0; 16],
    })
}

/// The metadata that these fields give the object of this size at second 5, where both the second of expiry and all of it are taken.
fn heads_at_five(
    alloc: Global,
    size: usize,
    pairs: &[(&[u8], &[u8])],
) -> Result<Option<Heads>, Fail> {
    let fields = fields(alloc, pairs)?;
    let name = name(alloc, size)?;
    let time = Timestamp::parse(b"5")?;
    if expiry_of(time, &name, &fields).is_err() {
        return Ok(None);
    }
    Ok(heads_of(alloc, time, &name, &fields)?)
}

#[test]
fn an_object_expires_only_where_the_queue_can_name_it(rt: HostRuntime) -> Result<(), Fail> {
    for (size, want) in EXPIRING {
        let heads = heads_at_five(rt.alloc(), size, &[(b"X-Delete-At", b"6")])?;
        assert!(rt; heads.is_some() == want);
    }
    Ok(())
}

/// Whether these are the second 6 and two items, of which one is the color red.
fn is_given(heads: Option<&Heads>) -> bool {
    match heads {
        Some(heads) => {
            heads.delete_at == Some(6)
                && heads.items.as_slice().len() == 2
                && heads.items.get(b"x-object-meta-color") == Some(b"red".as_slice())
                && !is_expired(heads, 5)
                && is_expired(heads, 6)
        }
        None => false,
    }
}

#[test]
fn metadata_is_the_second_of_expiry_and_the_items(rt: HostRuntime) -> Result<(), Fail> {
    let heads = heads_at_five(rt.alloc(), 1, &GIVEN)?;
    assert!(rt; is_given(heads.as_ref()));
    Ok(())
}

#[test]
fn single_fields_say_what_their_names_promise(rt: HostRuntime) -> Result<(), Fail> {
    for (name, value, replicated, none, agrees, typed) in SINGLE {
        let fields = fields(rt.alloc(), &[(name, value)])?;
        assert!(rt; has_value(&fields, name, value) && time_of(&fields).is_none());
        assert!(rt; is_replicated(&fields) == replicated && asks_for_none(&fields) == none);
        assert!(rt; agrees_with(&EMPTY, &fields) == agrees && type_of(&fields).is_some() == typed);
    }
    Ok(())
}
