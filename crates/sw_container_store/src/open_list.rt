ghost use Rattle.std.specs.Prelude.{◌≡◌, ◌<◌, ◌++◌, ◌∷◌, [], length, position, IfNone, IfOk, OnSome};
ghost use Rattle.std.specs.Str.{bytes_eq};
ghost use Rattle.sw_container_store.specs.OpenList.{after_room, found_at, found_hashed, is_hashed, is_of, is_same, without, without_hashed};

use crate::database::Database;
use std::alloc::Global;
use std::marker::Model;
use sw_hashpath::Place;
use sw_outside::NoMemory;

/// At most so many databases are open.
const MOST: usize = 16;

/// A database that is open, and the place whose it is.
#[derive(Drop)]
pub(crate) struct OpenDatabase<D> {
    pub(crate) place: Place,
    pub(crate) database: D,
}

/// At most 16 databases that are open, each at a place. Contracts see the list of them, the one that was used longest ago first.
#[derive(Drop)]
pub(crate) struct OpenList<D> {
    databases: Vec<OpenDatabase<D>>,
}

impl<D> Model for OpenList<D> {
    ghost use Rattle.std.specs.Prelude.{List, ◌≤◌, length, vec_capacity};
    ghost use Rattle.sw_container_store.specs.declared.open_list.OpenDatabase.{OpenDatabase};

    ghost Value = { List (OpenDatabase D) };

    ghost view = { λ o. o.databases.items };

    ghost invariant = { λ o. (length o.databases.items ≤ 16) × (16 ≤ vec_capacity o.databases) };
}

impl<D: Database> OpenList<D> {
    /// None are open. The room for all of them is taken.
    pub(crate) fn new(alloc: Global) -> Result<OpenList<D>, NoMemory>
        ensures { IfOk result (λ list. list ≡ []) }
    {
        Ok(OpenList {
            databases: Vec::with_capacity(alloc, MOST)?,
        })
    }

    /// Takes the database of a place out, where it is open.
    pub(crate) fn take(&mut self, place: &Place) -> Option<OpenDatabase<D>>
        ensures found { result ≡ found_at self.old place.now }
        ensures rest { self.new ≡ without self.old place.now }
        ensures same { IfNone result (self.new ≡ self.old) }
        ensures room { OnSome result (length self.new < 16) }
    {
        let at = find(&self.databases, place)?;
        Some(self.databases.remove(at))
    }

    /// Takes the database of the place of this hash out, where it is open.
    pub(crate) fn take_by_hash(&mut self, hash: &[u8; 16]) -> Option<OpenDatabase<D>>
        ensures found { result ≡ found_hashed self.old hash.now }
        ensures rest { self.new ≡ without_hashed self.old hash.now }
        ensures same { IfNone result (self.new ≡ self.old) }
        ensures room { OnSome result (length self.new < 16) }
    {
        let at = find_by_hash(&self.databases, hash)?;
        Some(self.databases.remove(at))
    }

    /// Makes room for one more: where 16 are open the one that was used longest ago is closed.
    pub(crate) fn make_room(&mut self)
        ensures rest { self.new ≡ after_room self.old }
        ensures room { length self.new < 16 }
    {
        if self.databases.len() >= MOST {
            let oldest = self.databases.remove(0);
            oldest.database.close();
        }
    }

    /// Puts a database back, as the one that was used last. There is room for it.
    pub(crate) fn put(&mut self, entry: OpenDatabase<D>)
        requires { length self.old < 16 }
        ensures { self.new ≡ self.old ++ entry ∷ [] }
    {
        match self.databases.push(entry) {
            Ok(()) => {}
            Err(_) => unreachable!(),
        }
    }
}

/// Where the database of a place stands.
fn find<D>(entries: &[OpenDatabase<D>], place: &Place) -> Option<usize>
    ensures { result ≡ position (is_of place.now) entries.now }
{
    entries
        .iter()
        .position(|entry| is_same(&entry.place, place))
}

/// Where the database of the place of this hash stands.
fn find_by_hash<D>(entries: &[OpenDatabase<D>], hash: &[u8; 16]) -> Option<usize>
    ensures { result ≡ position (is_hashed hash.now) entries.now }
{
    entries
        .iter()
        .position(|entry| has_hash(&entry.place, hash))
}

/// Whether this is the hash of a place.
pub(crate) fn has_hash(place: &Place, hash: &[u8; 16]) -> bool
    ensures { result ≡ bytes_eq place.now.hash hash.now }
{
    place.hash == *hash
}

/// Whether two places are one.
pub(crate) fn is_same(one: &Place, other: &Place) -> bool
    ensures { result ≡ is_same one.now other.now }
{
    one.account.as_slice() == other.account.as_slice()
        && one.container.as_slice() == other.container.as_slice()
        && one.hash == other.hash
}
