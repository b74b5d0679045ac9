ghost use Rattle.std.specs.Prelude.{◌≡◌, ◌<◌, ◌≤◌, ◌^◌, ◌++◌, ◌∷◌, List, [], None, position, vec_capacity, vec_len, OnOk, OnErr};
ghost use Rattle.sw_container_db.specs.LoadedList.{has_room, is_loaded, is_of, rows_held, tables_at, touched, trimmed, IsBounded, IsLast, Lacks};
ghost use Rattle.sw_container_steps.specs.Entries.{is_same_place};
ghost use Rattle.sw_container_db.specs.declared.loaded_list.Loaded.{Loaded};
ghost use Rattle.sw_hashpath.specs.declared.place.Place.{Place};
ghost use Rattle.sw_keeper.specs.declared.tables.Tables.{Tables};

use std::alloc::Global;
use std::marker::Model;
use sw_hashpath::Place;
use sw_keeper::Tables;
use sw_outside::NoMemory;

/// The tables of at most so many containers stay loaded.
const MOST_CONTAINERS: usize = 64;

/// They have at most so many rows together, but for those of one container alone.
const MOST_ROWS: u64 = 262_144;

/// The tables of a place, as the keeper holds them.
#[derive(Debug, Drop)]
pub(crate) struct Loaded {
    pub(crate) place: Place,
    pub(crate) tables: Option<Tables>,
}

/// The tables that stay loaded, each of another place: at most 64, with at most 262,144 rows, or those of one container alone. Contracts see the list
/// of them, those that were used longest ago first.
///
/// A call goes through the list, and never through rows. Tables are moved, and never copied.
#[derive(Debug, Drop)]
pub(crate) struct LoadedList {
    entries: Vec<Loaded>,
}

impl Model for LoadedList {
    ghost use Rattle.std.specs.Prelude.{List};
    ghost use Rattle.sw_container_db.specs.LoadedList.{IsLoadedList};
    ghost use Rattle.sw_container_db.specs.declared.loaded_list.Loaded.{Loaded};

    ghost Value = { List Loaded };

    ghost view = { λ n. n.entries.items };

    ghost invariant = { λ n. IsLoadedList n.entries.items };
}

impl LoadedList {
    /// None are loaded. It takes no memory.
    pub(crate) fn new(alloc: Global) -> LoadedList
        ensures { result ≡ [] }
    {
        LoadedList {
            entries: Vec::new(alloc),
        }
    }

    /// They are as many as there may be at most. It does nothing: its clause tells it.
    pub(crate) fn stay_bounded(&self)
        ensures { IsBounded self.now }
    {
        let _ = &self.entries;
    }

    /// Whether the tables of a place are loaded. These are the last then.
    pub(crate) fn touch(&mut self, place: &Place) -> bool
        ensures found { result ≡ is_loaded place.now self.old }
        ensures moved { self.new ≡ touched place.now self.old }
    {
        let Some(at) = find(&self.entries, place) else {
            return false;
        };
        let loaded = self.entries.remove(at);
        self.entries.push_reserved(loaded);
        true
    }

    /// Leaves room for tables that are to be loaded: those used longest ago go.
    pub(crate) fn leave_room(&mut self)
        ensures { self.new ≡ trimmed 0 self.old }
    {
        trim(&mut self.entries, 0);
    }

    /// Puts tables behind all others, of which those used longest ago go until there is room. For want of memory all stay as they are.
    pub(crate) fn push(
        &mut self,
        alloc: Global,
        place: &Place,
        tables: Option<Tables>,
    ) -> Result<(), NoMemory>
        requires { Lacks place.now self.old }
        ensures pushed { OnOk result (self.new ≡ trimmed (rows_held tables) self.old ++ tables_at place.now tables ∷ []) }
        ensures err { OnErr result (self.new ≡ self.old) }
    {
        let place = place.copy(alloc)?;
        self.entries.reserve(1)?;
        trim(&mut self.entries, rows_in(&tables));
        self.entries.push_reserved(Loaded { place, tables });
        Ok(())
    }

    /// The tables that were used last.
    pub(crate) fn last(&self) -> &Option<Tables>
        requires { (place : Place) × IsLast place self.now }
        ensures { (others : List Loaded) → (l : Loaded) → self.now ≡ others ++ l ∷ [] → result.now ≡ l.tables }
    {
        match self.entries.last() {
            Some(loaded) => &loaded.tables,
            None => unreachable!(),
        }
    }

    /// Takes the tables that were used last out. Their place stays without them until others are put there, or it goes.
    pub(crate) fn take_last(&mut self) -> Option<Tables>
        requires { (place : Place) × IsLast place self.old }
        ensures taken { (others : List Loaded) → (l : Loaded) → self.old ≡ others ++ l ∷ [] → result ≡ l.tables }
        ensures alone { (others : List Loaded) → (l : Loaded) → self.old ≡ others ++ l ∷ [] → Lacks l.place others }
        ensures rest { (others : List Loaded) → (l : Loaded) → self.old ≡ others ++ l ∷ [] → self.new ≡ others ++ tables_at l.place None ∷ [] }
    {
        match self.entries.pop() {
            Some(Loaded { place, tables }) => {
                self.entries.push_reserved(Loaded {
                    place,
                    tables: None,
                });
                tables
            }
            None => unreachable!(),
        }
    }

    /// Puts tables in at the place that was used last. Of the others those used longest ago go until there is room.
    pub(crate) fn put_last(&mut self, tables: Option<Tables>)
        requires { (place : Place) × IsLast place self.old }
        ensures { (others : List Loaded) → (l : Loaded) → self.old ≡ others ++ l ∷ []
            → self.new ≡ trimmed (rows_held tables) others ++ tables_at l.place tables ∷ [] }
    {
        match self.entries.pop() {
            Some(Loaded { place, .. }) => {
                trim(&mut self.entries, rows_in(&tables));
                self.entries.push_reserved(Loaded { place, tables });
            }
            None => unreachable!(),
        }
    }

    /// Lets the tables go that were used last, and gives their place.
    pub(crate) fn let_go(&mut self) -> Place
        requires { (place : Place) × IsLast place self.old }
        ensures place { (others : List Loaded) → (l : Loaded) → self.old ≡ others ++ l ∷ [] → result ≡ l.place }
        ensures rest { (others : List Loaded) → (l : Loaded) → self.old ≡ others ++ l ∷ [] → self.new ≡ others }
    {
        match self.entries.pop() {
            Some(Loaded { place, .. }) => place,
            None => unreachable!(),
        }
    }
}

/// How many rows tables have.
fn rows_in(tables: &Option<Tables>) -> u64
    ensures rows { result ≡ rows_held tables.now }
    ensures small { result < 2 ^ 63 }
{
    match tables {
        Some(tables) => tables.rows.len() as u64,
        None => 0,
    }
}

/// Where the tables of a place stand.
fn find(entries: &[Loaded], place: &Place) -> Option<usize>
    ensures { result ≡ position (is_of place.now) entries.now }
{
    entries
        .iter()
        .position(|loaded| is_same_place(&loaded.place, place))
}

/// Whether there is room for tables of so many rows.
fn has_room(entries: &[Loaded], more: u64) -> bool
    ensures { result ≡ has_room more entries.now }
{
    let mut rows = more;
    for loaded in entries {
        rows = rows.saturating_add(rows_in(&loaded.tables));
    }
    entries.len() < MOST_CONTAINERS && rows <= MOST_ROWS
}

/// Lets those go that were used longest ago, until there is room for tables of so many rows.
fn trim(entries: &mut Vec<Loaded>, more: u64)
    ensures items { entries.new.items ≡ trimmed more entries.old.items }
    ensures len { vec_len entries.new ≤ vec_len entries.old }
    ensures capacity { vec_capacity entries.new ≡ vec_capacity entries.old }
{
    while !entries.is_empty() && !has_room(entries, more) {
        let _ = entries.remove(0);
    }
}

/// Whether two places are one, in all that they have.
fn is_same_place(a: &Place, b: &Place) -> bool
    ensures { result ≡ is_same_place a.now b.now }
{
    a.hash == b.hash
        && a.account.as_slice() == b.account.as_slice()
        && a.container.as_slice() == b.container.as_slice()
}
