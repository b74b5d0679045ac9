ghost use Rattle.std.specs.Prelude.{◌≡◌, ℕ, false};

use crate::folders::{end_folder, fresh_folder};
use crate::volume::{CALLS, CALLS_LATER, Call, OWNER, first_other};
use std::alloc::Global;
use std::test::Fail;
use std::{fs, io};
use sw_outside::StoreError;
use sw_store::{HostStores, NoNotes};
use sw_stores::Stores;

/// A ring, and others that put files elsewhere: another order of the devices, other locks, another part power, another secret at either end, a device less, one
/// more.
const RING: &str =
    r#"{"devices":["sda","sdb"],"part_power":2,"lock_bits":2,"replicas":1,"hash_prefix":"","hash_suffix":"endcap",
    "object":[[0],[0],[1],[1]],"container":[[0],[0],[1],[1]]}"#;

const OTHER_RINGS: [&str; 7] = [
    r#"{"devices":["sdb","sda"],"part_power":2,"lock_bits":2,"replicas":1,"hash_prefix":"","hash_suffix":"endcap",
        "object":[[0],[0],[1],[1]],"container":[[0],[0],[1],[1]]}"#,
    r#"{"devices":["sda","sdb"],"part_power":2,"lock_bits":1,"replicas":1,"hash_prefix":"","hash_suffix":"endcap",
        "object":[[0],[0],[1],[1]],"container":[[0],[0],[1],[1]]}"#,
    r#"{"devices":["sda","sdb"],"part_power":3,"lock_bits":2,"replicas":1,"hash_prefix":"","hash_suffix":"endcap",
        "object":[[0],[0],[1],[1],[0],[0],[1],[1]],"container":[[0],[0],[1],[1],[0],[0],[1],[1]]}"#,
    r#"{"devices":["sda","sdb"],"part_power":2,"lock_bits":2,"replicas":1,"hash_prefix":"","hash_suffix":"other",
        "object":[[0],[0],[1],[1]],"container":[[0],[0],[1],[1]]}"#,
    r#"{"devices":["sda","sdb"],"part_power":2,"lock_bits":2,"replicas":1,"hash_prefix":"endcap","hash_suffix":"",
        "object":[[0],[0],[1],[1]],"container":[[0],[0],[1],[1]]}"#,
    r#"{"devices":["sda"],"part_power":2,"lock_bits":2,"replicas":1,"hash_prefix":"","hash_suffix":"endcap",
        "object":[[0],[0],[0],[0]],"container":[[0],[0],[0],[0]]}"#,
    r#"{"devices":["sda","sdb","sdc"],"part_power":2,"lock_bits":2,"replicas":1,"hash_prefix":"","hash_suffix":"endcap",
        "object":[[0],[0],[1],[1]],"container":[[0],[0],[1],[1]]}"#,
];

/// The same places, for other partitions.
const REBALANCED: &str =
    r#"{"devices":["sda","sdb"],"part_power":2,"lock_bits":2,"replicas":2,"hash_prefix":"","hash_suffix":"endcap",
    "object":[[1,0],[0,1],[1,0],[1,0]],"container":[[0,1],[0,1],[1,0],[1,0]]}"#;

/// Starts the volume and the keeper of a lock, makes these calls at the volume, and gives both back: the number of the first call that answers otherwise.
pub(crate) fn visit<S: Stores>(
    alloc: Global,
    stores: &mut S,
    device: u8,
    stripe: u8,
    calls: &[Call],
) -> Result<Option<usize>, StoreError>
    requires { (d s : ℕ) → S.out stores.old d s ≡ false }
    ensures { (d s : ℕ) → S.out stores.new d s ≡ false }
{
    let (mut volume, keeper) = stores.start(alloc, device, stripe)?;
    let other = first_other(alloc, &mut volume, calls, Ok(true));
    stores.give_back(device, stripe, volume, keeper);
    Ok(other)
}

/// A folder of a test: in it stand a ring, and the folder of a node.
#[derive(Drop)]
pub(crate) struct Place<'a> {
    pub rt: &'a HostRuntime,
    folder: String,
    pub base: String,
    ring: String,
}

impl<'a> Place<'a> {
    /// A place with this ring, and without a node's folder.
    pub(crate) fn new(rt: &'a HostRuntime, test: &str) -> Result<Place<'a>, Fail> {
        let folder = fresh_folder(rt, test)?;
        let base = format!(in rt.alloc(); "{folder}/data")?;
        let ring = format!(in rt.alloc(); "{folder}/ring")?;
        fs::create_dir(rt, folder.as_str())?;
        fs::write(rt, ring.as_str(), RING)?;
        Ok(Place {
            rt,
            folder,
            base,
            ring,
        })
    }

    pub(crate) fn alloc(&self) -> Global {
        self.rt.alloc()
    }

    pub(crate) fn ring(&self) -> &str {
        self.ring.as_str()
    }

    fn path(&self, name: &str) -> io::Result<String> {
        let folder = self.folder.as_str();
        Ok(format!(in self.rt.alloc(); "{folder}/{name}")?)
    }

    /// Whether it has this ring from now on.
    fn has_ring(&self, ring: &str) -> bool {
        fs::write(self.rt, self.ring(), ring).is_ok()
    }

    /// How it goes to make these calls at a lock of the second device, in stores that read the ring first.
    fn visited(&self, stripe: u8, calls: &[Call]) -> Result<Option<usize>, StoreError> {
        visit_below(self.rt, &self.base, self.ring(), stripe, calls)
    }

    /// Whether these calls go well, after a start by this process.
    pub(crate) fn goes(&self, stripe: u8, calls: &[Call]) -> bool {
        self.visited(stripe, calls) == Ok(None)
    }

    /// Whether a start fails.
    fn fails(&self) -> bool {
        self.visited(3, &CALLS_LATER) == Err(StoreError::Failed)
    }

    fn move_to(&self, from: &str, to: &str) -> io::Result<()> {
        let from = self.path(from)?;
        fs::rename(self.rt, from, self.path(to)?)
    }

    fn moves(&self, from: &str, to: &str) -> bool {
        self.move_to(from, to).is_ok()
    }

    fn look(&self, name: &str) -> io::Result<bool> {
        fs::exists(self.rt, self.path(name)?)
    }

    pub(crate) fn has(&self, name: &str) -> bool {
        matches!(self.look(name), Ok(true))
    }

    /// Whether nothing stands there.
    fn lacks(&self, name: &str) -> bool {
        matches!(self.look(name), Ok(false))
    }

    fn read(&self, name: &str) -> io::Result<String> {
        fs::read_to_string(self.rt, self.path(name)?)
    }

    fn holds(&self, name: &str, text: &str) -> bool {
        match self.read(name) {
            Ok(found) => found.as_str() == text,
            Err(_) => false,
        }
    }

    fn write(&self, name: &str, text: &str) -> io::Result<()> {
        fs::write(self.rt, self.path(name)?, text)
    }

    pub(crate) fn end(&self) -> Result<(), Fail> {
        end_folder(self.rt, &self.folder)
    }
}

/// Whether stores answer so where they are asked for the ring of this name.
pub(crate) fn tells<S: Stores>(
    alloc: Global,
    stores: &mut S,
    name: &str,
    wanted: Result<&str, StoreError>,
) -> bool
    requires { (d s : ℕ) → S.out stores.old d s ≡ false }
    ensures { (d s : ℕ) → S.out stores.new d s ≡ false }
{
    match (stores.ring(alloc, name), wanted) {
        (Ok(text), Ok(wanted)) => text.as_slice() == wanted.as_bytes(),
        (Err(error), Err(wanted)) => error == wanted,
        _ => false,
    }
}

#[test]
fn a_ring_is_the_bytes_of_its_file(rt: HostRuntime) -> Result<(), Fail> {
    let alloc = rt.alloc();
    let place = Place::new(&rt, "ring")?;
    let ring = place.ring();
    let missing = place.path("another")?;
    let mut stores = HostStores::below(&rt, &NoNotes, OWNER, &place.base);
    assert!(rt; tells(alloc, &mut stores, &missing, Err(StoreError::Failed)));
    assert!(rt; tells(alloc, &mut stores, ring, Ok(RING)));
    assert!(rt; visit(alloc, &mut stores, 1, 3, &CALLS) == Ok(None));
    assert!(rt; tells(alloc, &mut stores, ring, Ok(RING)));
    assert!(rt; tells(alloc, &mut stores, &missing, Err(StoreError::Failed)));
    assert!(rt; visit(alloc, &mut stores, 1, 3, &CALLS_LATER) == Ok(None));
    place.end()
}

fn visit_below(
    rt: &HostRuntime,
    base: &str,
    ring: &str,
    stripe: u8,
    calls: &[Call],
) -> Result<Option<usize>, StoreError> {
    let alloc = rt.alloc();
    let mut stores = HostStores::below(rt, &NoNotes, OWNER, base);
    stores.ring(alloc, ring)?;
    visit(alloc, &mut stores, 1, stripe, calls)
}

#[test]
fn each_lock_has_a_folder_of_its_own(rt: HostRuntime) -> Result<(), Fail> {
    let place = Place::new(&rt, "locks")?;
    assert!(rt; place.goes(3, &CALLS));
    assert!(rt; place.goes(2, &CALLS));
    assert!(rt; place.goes(3, &CALLS_LATER));
    assert!(rt; place.has("data/1/03/objects/0/power"));
    assert!(rt; place.has("data/0/03"));
    assert!(rt; place.lacks("data/0/03/objects"));
    place.end()
}

/// Whether stores that have the folder keep others out, which touch nothing of it.
fn keeps_others_out(place: &Place<'_>) -> Result<bool, StoreError> {
    let alloc = place.alloc();
    let mut first = HostStores::below(place.rt, &NoNotes, 1, &place.base);
    first.ring(alloc, place.ring())?;
    let (volume, keeper) = first.start(alloc, 1, 3)?;
    let written = place.write("data/1/03/tmp/put-1-1", "what the first one writes");
    let out = written.is_ok() && place.fails();
    first.give_back(1, 3, volume, keeper);
    Ok(out)
}

#[test]
fn a_folder_has_one_owner(rt: HostRuntime) -> Result<(), Fail> {
    let place = Place::new(&rt, "owner")?;
    assert!(rt; keeps_others_out(&place) == Ok(true));
    assert!(rt; place.has("data/1/03/tmp/put-1-1"));
    assert!(rt; place.holds("data/lock", "1\n"));
    assert!(rt; place.goes(3, &CALLS));
    assert!(rt; place.lacks("data/1/03/tmp/put-1-1"));
    assert!(rt; place.holds("data/lock", "4711\n"));
    assert!(rt; keeps_others_out(&place) == Ok(true));
    assert!(rt; place.holds("data/lock", "1\n"));
    place.end()
}

#[test]
fn a_folder_is_for_the_ring_that_it_was_made_for(rt: HostRuntime) -> Result<(), Fail> {
    let place = Place::new(&rt, "rings")?;
    assert!(rt; place.goes(3, &CALLS));
    for other in OTHER_RINGS {
        assert!(rt; place.has_ring(other));
        assert!(rt; place.fails());
    }
    assert!(rt; place.has_ring(REBALANCED));
    assert!(rt; place.goes(3, &CALLS_LATER));
    place.end()
}

/// What the folder of the ring tells: no secret.
const LAYOUT: &str =
    "swc-data 1\npart_power 2\nlock_bits 2\nhash_prefix_md5 d41d8cd98f00b204e9800998ecf8427e\n\
    hash_suffix_md5 2ef66e1d5414417ef5fb754e80fa7e12\ndevice 0 sda\ndevice 1 sdb\n";

#[test]
fn a_folder_tells_what_it_was_made_for_and_no_secret(rt: HostRuntime) -> Result<(), Fail> {
    let place = Place::new(&rt, "layout")?;
    assert!(rt; place.goes(0, &[]));
    assert!(rt; place.holds("data/layout", LAYOUT));
    place.end()
}

#[test]
fn a_device_whose_folder_is_missing_is_not_made(rt: HostRuntime) -> Result<(), Fail> {
    let place = Place::new(&rt, "missing")?;
    assert!(rt; place.goes(3, &CALLS));
    assert!(rt; place.moves("data/1", "away"));
    assert!(rt; place.fails());
    assert!(rt; place.lacks("data/1"));
    assert!(rt; place.moves("away", "data/1"));
    assert!(rt; place.goes(3, &CALLS_LATER));
    place.end()
}

#[test]
fn only_a_folder_in_which_nothing_was_kept_is_made(rt: HostRuntime) -> Result<(), Fail> {
    let place = Place::new(&rt, "made")?;
    assert!(rt; place.goes(3, &CALLS));
    assert!(rt; place.moves("data/layout", "away"));
    assert!(rt; place.fails());
    assert!(rt; place.lacks("data/layout"));
    // As a kill leaves it that came while the folder was made.
    assert!(rt; place.moves("away", "data/layout.new"));
    assert!(rt; place.goes(3, &CALLS_LATER));
    assert!(rt; place.has("data/layout"));
    place.end()
}
