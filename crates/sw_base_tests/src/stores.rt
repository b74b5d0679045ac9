ghost use Rattle.std.specs.Prelude.{◌≡◌, ℕ, false};

use crate::fixtures::is_some_of;
use std::alloc::Global;
use sw_outside::{Bytes, NoMemory, StoreError};
use sw_stores::{MemStores, PartShelf, RingText, Stores};
use sw_volume::{Volume, VolumeError};

/// A call of stores, with what it tells.
enum Call<'a> {
    /// The ring of a name, with its text.
    Ring(&'a str, &'a [u8]),
    /// The start at a stripe, with what the volume's one file holds, and what it holds as the volume is given back.
    Visit(u8, Option<&'a [u8]>, &'a [u8]),
}

use Call::{Ring, Visit};

/// Calls in their order, and whether each of them fails.
static CALLS: [(Call, bool); 11] = [
    (Ring("another.ring", b"text"), true),
    (Visit(3, None, b"one"), true),
    (Visit(3, None, b"one"), false),
    (Visit(2, None, b"other"), false),
    (Ring("a.ring", b"text"), false),
    (Visit(3, Some(b"one"), b"two"), true),
    (Visit(3, Some(b"one"), b"two"), false),
    (Visit(3, Some(b"two"), b"three"), false),
    (Ring("", b""), false),
    (Ring("a.ring", b"text"), true),
    (Ring("a.ring", b"text"), false),
];

/// The numbers of those among them that are to fail.
const FAILING: [u64; 3] = [1, 5, 9];

/// Whether the file holds this; then it holds that.
fn replaces<V: Volume>(
    alloc: Global,
    volume: &mut V,
    was: Option<&[u8]>,
    put: &[u8],
) -> Result<bool, VolumeError> {
    let found = volume.read(alloc, b"d", b"f")?;
    volume.put(alloc, b"d", b"f", put)?;
    Ok(is_some_of(&found, was))
}

/// Whether the call tells what it is to tell, where it doesn't fail.
fn is_as_told<S: Stores>(alloc: Global, stores: &mut S, call: &Call) -> Result<bool, StoreError>
    requires home { (d s : ℕ) → S.out stores.old d s ≡ false }
    ensures home { (d s : ℕ) → S.out stores.new d s ≡ false }
{
    match call {
        Ring(name, text) => Ok(stores.ring(alloc, name)?.as_slice() == *text),
        Visit(stripe, was, put) => {
            let (mut volume, keeper) = stores.start(alloc, 0, *stripe)?;
            let told = replaces(alloc, &mut volume, *was, put);
            stores.give_back(0, *stripe, volume, keeper);
            Ok(told == Ok(true))
        }
    }
}

fn ring_text(alloc: Global, name: &[u8], text: &[u8]) -> Result<RingText, NoMemory> {
    Ok(RingText {
        name: Bytes::copy(alloc, name)?,
        text: Bytes::copy(alloc, text)?,
    })
}

/// The rings that the stores have.
fn rings(alloc: Global) -> Result<Vec<RingText>, NoMemory> {
    let mut rings = Vec::new(alloc);
    let texts: [(&[u8], &[u8]); 2] = [(b"a.ring", b"text"), (b"", b"")];
    for (name, text) in texts {
        rings.push(ring_text(alloc, name, text)?)?;
    }
    Ok(rings)
}

/// Whether each call tells what it is to tell, or fails where it is to.
fn are_as_told(alloc: Global) -> Result<bool, NoMemory> {
    let rings = rings(alloc)?;
    let failing = Vec::from_slice(alloc, &FAILING)?;
    let mut stores = MemStores::new(rings, failing, PartShelf::new(alloc));
    for (call, fails) in &CALLS {
        let wanted = if *fails {
            Err(StoreError::Failed)
        } else {
            Ok(true)
        };
        if is_as_told(alloc, &mut stores, call) != wanted {
            return Ok(false);
        }
    }
    Ok(true)
}

#[test]
fn volumes_start_as_they_were_given_back(rt: HostRuntime) {
    assert!(rt; are_as_told(rt.alloc()) == Ok(true));
}
