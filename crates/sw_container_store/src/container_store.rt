ghost use Rattle.std.specs.Prelude.{◌≡◌, ◌<◌, ◌++◌, [], if◌then◌else◌, length, is_some, true, false, None, Ok, IfNone, IfOk, IsErr, MatchOption, Option, OnErr};
ghost use Rattle.std.specs.Prelude.{Err, OnOk, OnSome};
ghost use Rattle.sw_container_store.specs.Loading.{IsLeft, IsLoaded};
ghost use Rattle.sw_container_store.specs.Making.{IsMade};
ghost use Rattle.sw_container_store.specs.Naming.{IsNamed, IsPlaceOf, listed};
ghost use Rattle.sw_container_store.specs.OpenList.{after_room, beside, found_at, without};
ghost use Rattle.sw_container_store.specs.Opening.{IsAbsent, IsFound, IsOpened, IsReached, IsTaken};
ghost use Rattle.sw_container_store.specs.Telling.{TellsFormat, TellsPlace};
ghost use Rattle.sw_hashpath.specs.declared.place.Place.{Place as NamedPlace};
ghost use Rattle.sw_keeper.specs.Changes.{IsBatch};
ghost use Rattle.sw_keeper.specs.Keeping.{Changes, HasCause, IsSame, ListsPlaces, MayChange, OnFailed, OnNoMemory};
ghost use Rattle.sw_keeper.specs.Places.{place_cmp};
ghost use Rattle.sw_outside.specs.Counts.{raised};
ghost use Rattle.sw_outside.specs.declared.store_error.StoreError.{StoreError};

use crate::database::{Damage, Database, Databases};
use crate::open_list::{OpenDatabase, OpenList};
use crate::reading::{check, check_format, place_in, tables_in};
use crate::writing::make;
use std::alloc::Global;
use std::cmp::Ordering;
use sw_hashpath::Place;
use sw_keeper::{Batch, Keeper, KeeperError, Tables};
use sw_outside::{NoMemory, StoreError};

/// A keeper over databases, one for each container, which tells nothing of what it holds. A batch is one transaction; a place at which no times were ever put
/// holds nothing.
///
/// At most 16 databases are open, and the one that was used longest ago is closed for another. One that is open is used only while its file is there: a call
/// fails where it is gone. One whose call has failed is open no more, so that the next call opens it anew. The time of `names` grows with the number of
/// containers and with what is in them, since an open looks at the whole of a database.
#[derive(Drop)]
pub struct ContainerStore<H: Databases> {
    databases: H,
    opened: OpenList<H::Open>,
    calls: u64,
    faults: u64,
}

impl<H: Databases> ContainerStore<H> {
    /// The keeper over these databases, none of which is open.
    pub fn new(alloc: Global, databases: H) -> Result<ContainerStore<H>, NoMemory>
        ensures untouched { IfOk result (λ store. (store.calls ≡ 0) × (store.faults ≡ 0) × (store.opened ≡ [])) }
        ensures databases { IfOk result (λ store. store.databases ≡ databases) }
    {
        Ok(ContainerStore {
            databases,
            opened: OpenList::new(alloc)?,
            calls: 0,
            faults: 0,
        })
    }

    /// Counts what has failed, and has it told.
    fn told<T>(&mut self, answer: Result<T, StoreError>) -> Result<T, KeeperError>
        ensures ok { IfOk result (λ value. answer ≡ Ok value) }
        ensures cause { HasCause self.old.faults self.new.faults result }
        ensures err { OnErr result (IsErr answer) }
        ensures failed { OnFailed result (answer ≡ Err StoreError.Failed) }
        ensures memory { OnNoMemory result (answer ≡ Err StoreError.NoMemory) }
        ensures calls { self.new.calls ≡ self.old.calls }
        ensures opened { self.new.opened ≡ self.old.opened }
        ensures databases { self.new.databases ≡ self.old.databases }
    {
        match answer {
            Ok(value) => Ok(value),
            Err(StoreError::NoMemory) => Err(KeeperError::NoMemory),
            Err(StoreError::Failed) => {
                self.faults = self.faults.saturating_add(1);
                self.databases.tell();
                Err(KeeperError::Failed)
            }
        }
    }

    /// The database of a place, taken out of those that are open. Where its file is gone it isn't used, since nobody would find what is put into it.
    fn take(&mut self, place: &Place) -> Result<Option<OpenDatabase<H::Open>>, StoreError>
        ensures found { IfOk result (λ entry. entry ≡ found_at self.old.opened place.now) }
        ensures taken { IfOk result (λ entry. IsTaken H.finds self.old.databases self.new.databases place.now entry) }
        ensures rest { self.new.opened ≡ without self.old.opened place.now }
        ensures same { IfOk result (λ entry. IfNone entry (self.new.opened ≡ self.old.opened)) }
        ensures failed { OnErr result (is_some (found_at self.old.opened place.now) ≡ true) }
        ensures room { IfOk result (λ entry. OnSome entry (length self.new.opened < 16)) }
        ensures counts { (self.new.calls ≡ self.old.calls) × (self.new.faults ≡ self.old.faults) }
    {
        let Some(entry) = self.opened.take(place) else {
            return Ok(None);
        };
        let is_there = self.databases.is_there(&place.hash)?;
        if is_there {
            Ok(Some(entry))
        } else {
            Err(entry.database.refuse(Damage::Gone))
        }
    }

    /// The database of a place, opened. Where 16 are open the one that was used longest ago is closed.
    fn open(&mut self, alloc: Global, place: &Place) -> Result<OpenDatabase<H::Open>, StoreError>
        ensures opened { IfOk result (λ entry. IsOpened H.opens H.Open.shows self.old.databases self.new.databases place.now entry) }
        ensures rest { self.new.opened ≡ after_room self.old.opened }
        ensures room { length self.new.opened < 16 }
        ensures counts { (self.new.calls ≡ self.old.calls) × (self.new.faults ≡ self.old.faults) }
    {
        self.opened.make_room();
        let copy = place.copy(alloc)?;
        let mut database = self.databases.open(alloc, &place.hash)?;
        check(alloc, &mut database, place)?;
        Ok(OpenDatabase {
            place: copy,
            database,
        })
    }

    /// The database of a place, taken out of those that are open, or opened.
    fn reach(&mut self, alloc: Global, place: &Place) -> Result<OpenDatabase<H::Open>, StoreError>
        ensures reached { IfOk result (λ entry. IsReached H.finds H.opens H.Open.shows self.old.databases self.new.databases self.old.opened place.now entry) }
        ensures rest { self.new.opened ≡ beside self.old.opened place.now }
        ensures room { OnOk result (length self.new.opened < 16) }
        ensures counts { (self.new.calls ≡ self.old.calls) × (self.new.faults ≡ self.old.faults) }
    {
        match self.take(place)? {
            Some(entry) => Ok(entry),
            None => self.open(alloc, place),
        }
    }

    /// The database of a place, taken out of those that are open, or opened; none where there is none.
    fn find(
        &mut self,
        alloc: Global,
        place: &Place,
    ) -> Result<Option<OpenDatabase<H::Open>>, StoreError>
        ensures found { IfOk result (λ entry. MatchOption entry
            (IsAbsent H.finds self.old.databases self.new.databases self.old.opened place.now)
            (IsFound H.finds H.opens H.Open.shows self.old.databases self.new.databases self.old.opened place.now)) }
        ensures rest { IfOk result (λ entry. self.new.opened ≡ (if is_some entry then beside self.old.opened place.now else self.old.opened)) }
        ensures failed { OnErr result (IsLeft self.old.opened self.new.opened place.now) }
        ensures room { IfOk result (λ entry. OnSome entry (length self.new.opened < 16)) }
        ensures counts { (self.new.calls ≡ self.old.calls) × (self.new.faults ≡ self.old.faults) }
    {
        if let Some(entry) = self.take(place)? {
            return Ok(Some(entry));
        }
        if !self.databases.is_there(&place.hash)? {
            return Ok(None);
        }
        let entry = self.open(alloc, place)?;
        Ok(Some(entry))
    }

    /// The tables that are in the database of a place, where there is one.
    fn read(&mut self, alloc: Global, place: &Place) -> Result<Option<Tables>, StoreError>
        ensures loaded { IfOk result (λ tables. IsLoaded H.finds H.opens H.Open.shows self.old.databases self.new.databases self.old.opened self.new.opened
            place.now tables) }
        ensures failed { OnErr result (IsLeft self.old.opened self.new.opened place.now) }
        ensures counts { (self.new.calls ≡ self.old.calls) × (self.new.faults ≡ self.old.faults) }
    {
        let Some(mut entry) = self.find(alloc, place)? else {
            return Ok(None);
        };
        let tables = tables_in(alloc, &mut entry.database, place)?;
        self.opened.put(entry);
        Ok(tables)
    }

    /// Makes a batch in the database of a place.
    fn write(&mut self, alloc: Global, place: &Place, batch: &Batch) -> Result<(), StoreError>
        ensures made { OnOk result (IsMade H.finds H.opens H.Open.shows H.Open.runs self.old.databases self.new.databases self.old.opened self.new.opened
            place.now batch.now) }
        ensures failed { OnErr result (self.new.opened ≡ beside self.old.opened place.now) }
        ensures counts { (self.new.calls ≡ self.old.calls) × (self.new.faults ≡ self.old.faults) }
    {
        let mut entry = self.reach(alloc, place)?;
        make(&mut entry.database, place, batch)?;
        self.opened.put(entry);
        Ok(())
    }

    /// The places of all containers in whose databases something is, in byte order of account, container and hash.
    fn places(&mut self, alloc: Global) -> Result<Vec<Place>, StoreError>
        ensures named { IfOk result (λ places. IsNamed H.lists H.finds H.opens H.Open.shows self.old.databases self.new.databases
            self.old.opened self.new.opened places.items) }
        ensures counts { (self.new.calls ≡ self.old.calls) × (self.new.faults ≡ self.old.faults) }
    {
        let hashes = self.databases.hashes(alloc)?;
        let mut places = Vec::new(alloc);
        for hash in &hashes {
            self.add_place(alloc, &mut places, hash)?;
        }
        places.sort_unstable_by(compare);
        Ok(places)
    }

    /// Adds the place of the container whose hash this is, unless nothing is in its database.
    fn add_place(
        &mut self,
        alloc: Global,
        places: &mut Vec<Place>,
        hash: &[u8; 16],
    ) -> Result<(), StoreError>
        ensures added { OnOk result ((place : Option NamedPlace) × IsPlaceOf H.finds H.opens H.Open.shows self.old.databases self.new.databases
            self.old.opened self.new.opened hash.now place × (places.new.items ≡ places.old.items ++ listed place)) }
        ensures counts { (self.new.calls ≡ self.old.calls) × (self.new.faults ≡ self.old.faults) }
    {
        if let Some(place) = self.place_of(alloc, hash)? {
            places.push(place).map_err(NoMemory::from)?;
        }
        Ok(())
    }

    /// The place of the container whose hash this is, unless nothing is in its database.
    fn place_of(&mut self, alloc: Global, hash: &[u8; 16]) -> Result<Option<Place>, StoreError>
        ensures told { IfOk result (λ place. IsPlaceOf H.finds H.opens H.Open.shows self.old.databases self.new.databases
            self.old.opened self.new.opened hash.now place) }
        ensures counts { (self.new.calls ≡ self.old.calls) × (self.new.faults ≡ self.old.faults) }
    {
        let taken = self.opened.take_by_hash(hash);
        let is_there = self.databases.is_there(hash)?;
        match taken {
            Some(entry) if !is_there => Err(entry.database.refuse(Damage::Gone)),
            Some(mut entry) => {
                let place = place_in(alloc, &mut entry.database, hash)?;
                self.opened.put(entry);
                Ok(place)
            }
            None if !is_there => Ok(None),
            None => self.place_of_closed(alloc, hash),
        }
    }

    /// The same, where its database isn't open, and is there.
    fn place_of_closed(
        &mut self,
        alloc: Global,
        hash: &[u8; 16],
    ) -> Result<Option<Place>, StoreError>
        ensures told { IfOk result (λ place. (opened : H.Open) × (checked : H.Open) × (asked : H.Open)
            × H.opens self.old.databases hash.now self.new.databases opened × TellsFormat H.Open.shows opened checked
            × TellsPlace H.Open.shows hash.now checked asked place) }
        ensures rest { self.new.opened ≡ after_room self.old.opened }
        ensures counts { (self.new.calls ≡ self.old.calls) × (self.new.faults ≡ self.old.faults) }
    {
        self.opened.make_room();
        let mut database = self.databases.open(alloc, hash)?;
        check_format(&mut database)?;
        let place = place_in(alloc, &mut database, hash)?;
        database.close();
        Ok(place)
    }
}

/// Places in byte order of account, container and hash.
fn compare(one: &Place, other: &Place) -> Ordering
    ensures { result ≡ place_cmp one.now other.now }
{
    one.account
        .as_slice()
        .cmp(other.account.as_slice())
        .then(one.container.as_slice().cmp(other.container.as_slice()))
        .then(one.hash.as_slice().cmp(other.hash.as_slice()))
}

impl<H: Databases> Keeper for ContainerStore<H> {
    ghost tells = { λ _. false };

    ghost holds = { λ _ _. None };

    ghost faults = { λ s. s.faults };

    ghost calls = { λ s. s.calls };

    fn names(&mut self, alloc: Global) -> Result<Vec<Place>, KeeperError>
        ensures places { IfOk result (λ places. false ≡ true → ListsPlaces places.items (λ _. ⊥)) }
        ensures same { false ≡ true → IsSame (λ _. None) (λ _. None) }
        ensures told { false ≡ false }
        ensures cause { HasCause self.old.faults self.new.faults result }
        ensures calls { self.new.calls ≡ raised self.old.calls }
        ensures named { IfOk result (λ places. IsNamed H.lists H.finds H.opens H.Open.shows self.old.databases self.new.databases
            self.old.opened self.new.opened places.items) }
    {
        self.calls = self.calls.saturating_add(1);
        let names = self.places(alloc);
        self.told(names)
    }

    fn load(&mut self, alloc: Global, place: &Place) -> Result<Option<Tables>, KeeperError>
        ensures tables { IfOk result (λ tables. false ≡ true → tables ≡ None) }
        ensures same { false ≡ true → IsSame (λ _. None) (λ _. None) }
        ensures told { false ≡ false }
        ensures cause { HasCause self.old.faults self.new.faults result }
        ensures calls { self.new.calls ≡ raised self.old.calls }
        ensures loaded { IfOk result (λ tables. IsLoaded H.finds H.opens H.Open.shows self.old.databases self.new.databases self.old.opened self.new.opened
            place.now tables) }
        ensures left { OnErr result (IsLeft self.old.opened self.new.opened place.now) }
    {
        self.calls = self.calls.saturating_add(1);
        let loaded = self.read(alloc, place);
        self.told(loaded)
    }

    fn commit(&mut self, alloc: Global, place: &Place, batch: &Batch) -> Result<(), KeeperError>
        requires fits { false ≡ true → IsBatch None batch.now }
        ensures ok { OnOk result (false ≡ true → Changes (λ _. None) (λ _. None) place.now batch.now) }
        ensures failed { OnFailed result (false ≡ true → MayChange (λ _. None) (λ _. None) place.now batch.now) }
        ensures no_memory { OnNoMemory result (false ≡ true → IsSame (λ _. None) (λ _. None)) }
        ensures told { false ≡ false }
        ensures cause { HasCause self.old.faults self.new.faults result }
        ensures calls { self.new.calls ≡ raised self.old.calls }
        ensures made { OnOk result (IsMade H.finds H.opens H.Open.shows H.Open.runs self.old.databases self.new.databases self.old.opened self.new.opened
            place.now batch.now) }
        ensures gone { OnErr result (self.new.opened ≡ beside self.old.opened place.now) }
    {
        self.calls = self.calls.saturating_add(1);
        let made = self.write(alloc, place, batch);
        self.told(made)
    }
}
