ghost use Rattle.std.specs.Prelude.{◌≡◌, ◌<◌, ◌≤◌, ◌^◌, true, ◌⊎◌};
ghost use Rattle.sw_outside.specs.Faults.{HasRisen};
ghost use Rattle.sw_outside.specs.Counts.{raised};
ghost use Rattle.sw_object_steps.specs.Parts.{IsOfPart};
ghost use Rattle.sw_peer.specs.Sights.{Calls, IsFilesRead, IsHashesRead, IsMade, IsRead, IsWriteRead, MayStand, asked};
ghost use Rattle.sw_lossy.specs.Losses.{Happens, IsUncopied, around, asked_inside, fate_of, faults_after, is_loss, messages_after};

mod containers;
mod pending;

use crate::acts::{Acts, Fate};
use std::alloc::Global;
use sw_diskfile::FileName;
use sw_hashpath::Name;
use sw_object_steps::{Answer, Change, DirFault, Got, Stored};
use sw_outside::NoMemory;
use sw_peer::{Door, FaithfulDoor, Link, Lost, ObjectDoor, ReplicaDoor};
use sw_suffix::{DirLine, SuffixHash};

/// A door around another, which loses and repeats messages. A step that is said at the device itself goes through.
///
/// It is each kind of door that the one inside is. Messages to objects and to containers, and those that read records, are numbered together, in the order
/// in which they are sent.
#[derive(Drop)]
pub struct Lossy<D: Drop> {
    /// The door inside.
    pub door: D,
    pub acts: Acts,
    /// How many messages were sent through it.
    pub messages: u64,
    /// How many of them it lost, or their answers.
    pub faults: u64,
    /// How many of them asked for hashes or files. One that is lost counts, and one that comes twice counts once.
    pub asks: u64,
}

impl<D: Drop> Lossy<D> {
    /// A door around this one, through which no message was sent yet.
    pub fn new(door: D, acts: Acts) -> Lossy<D>
        ensures door { result.door ≡ door }
        ensures acts { result.acts ≡ acts }
        ensures messages { result.messages ≡ 0 }
        ensures faults { result.faults ≡ 0 }
        ensures asks { result.asks ≡ 0 }
    {
        Lossy {
            door,
            acts,
            messages: 0,
            faults: 0,
            asks: 0,
        }
    }

    /// Begins anew with these acts, as if no message had been sent yet. The door inside stays as it is.
    pub fn begin(&mut self, acts: Acts)
        ensures door { self.new.door ≡ self.old.door }
        ensures acts { self.new.acts ≡ acts }
        ensures messages { self.new.messages ≡ 0 }
        ensures faults { self.new.faults ≡ 0 }
        ensures asks { self.new.asks ≡ 0 }
    {
        self.acts = acts;
        self.messages = 0;
        self.faults = 0;
        self.asks = 0;
    }

    /// The door inside.
    pub fn into_door(self) -> D
        ensures { result ≡ self.door }
    {
        let Lossy { door, .. } = self;
        door
    }

    /// What becomes of a step that is said so. It is counted where it is a message, and where it is to be lost.
    fn next(&mut self, link: Link) -> Fate
        ensures fate { result ≡ fate_of self.old.acts link self.old.messages }
        ensures door { self.new.door ≡ self.old.door }
        ensures acts { self.new.acts ≡ self.old.acts }
        ensures messages { self.new.messages ≡ messages_after link self.old.messages }
        ensures faults { self.new.faults ≡ faults_after (fate_of self.old.acts link self.old.messages) self.old.faults }
        ensures later { self.old.faults ≤ self.new.faults }
        ensures risen { is_loss (fate_of self.old.acts link self.old.messages) ≡ true → HasRisen self.old.faults self.new.faults }
        ensures asks { self.new.asks ≡ self.old.asks }
    {
        let fate = self.acts.fate_of(link, self.messages);
        self.messages = messages_with(link, self.messages);
        self.faults = faults_with(fate, self.faults);
        fate
    }

    /// The same of a step that asks for hashes or files.
    fn next_asking(&mut self, link: Link) -> Fate
        ensures fate { result ≡ fate_of self.old.acts link self.old.messages }
        ensures door { self.new.door ≡ self.old.door }
        ensures acts { self.new.acts ≡ self.old.acts }
        ensures messages { self.new.messages ≡ messages_after link self.old.messages }
        ensures faults { self.new.faults ≡ faults_after (fate_of self.old.acts link self.old.messages) self.old.faults }
        ensures later { self.old.faults ≤ self.new.faults }
        ensures risen { is_loss (fate_of self.old.acts link self.old.messages) ≡ true → HasRisen self.old.faults self.new.faults }
        ensures asks { self.new.asks ≡ asked self.old.asks link }
    {
        self.asks = asks_with(link, self.asks);
        self.next(link)
    }
}

/// The count of messages after a step that is said so.
fn messages_with(link: Link, messages: u64) -> u64
    ensures { result ≡ messages_after link messages }
{
    match link {
        Link::Local => messages,
        Link::Sent => messages.saturating_add(1),
    }
}

/// The count of messages that ask, after a step that asks and is said so.
fn asks_with(link: Link, asks: u64) -> u64
    ensures { result ≡ asked asks link }
{
    match link {
        Link::Local => asks,
        Link::Sent => asks.saturating_add(1),
    }
}

/// The count of losses after a step of this fate.
fn faults_with(fate: Fate, faults: u64) -> u64
    ensures count { result ≡ faults_after fate faults }
    ensures later { faults ≤ result }
    ensures risen { is_loss fate ≡ true → HasRisen faults result }
{
    match fate {
        Fate::Goes | Fate::ComesTwice => faults,
        Fate::IsLost | Fate::LosesReply => faults.saturating_add(1),
    }
}

impl<D: Door + Drop> Door for Lossy<D> {
    ghost sight = { λ w. around (D.sight w.door) w.acts w.messages w.faults w.asks };
}

impl<D: ObjectDoor + FaithfulDoor + Drop> ObjectDoor for Lossy<D> {
    fn may_stand(&self, device: u8, hash: &[u8; 16])
        requires device { device < (D.sight self.now.door).nodes.devices }
        ensures { MayStand device hash.now (around (D.sight self.now.door) self.now.acts self.now.messages self.now.faults self.now.asks) }
    {
        self.door.may_stand(device, hash)
    }

    /// A message that is to come twice is copied first. Where the copy finds no memory the answer is [`Answer::NoMemory`], and none is sent.
    fn change(
        &mut self,
        alloc: Global,
        link: Link,
        device: u8,
        name: &Name,
        change: Change,
    ) -> Result<Answer, Lost>
        requires device { device < (D.sight self.old.door).nodes.devices }
        requires fits { (D.sight self.old.door).nodes.fits name.now ≡ true }
        ensures made { Calls (IsMade link device name.now change) (around (D.sight self.old.door) self.old.acts self.old.messages self.old.faults self.old.asks)
            link result (around (D.sight self.new.door) self.new.acts self.new.messages self.new.faults self.new.asks) }
        ensures asks { self.new.asks ≡ self.old.asks }
        ensures inside { (D.sight self.new.door).asks ≡ (D.sight self.old.door).asks }
        ensures happens { let fate = fate_of self.old.acts link self.old.messages in
            Happens D.sight (IsMade link device name.now change) link fate self.old.door result self.new.door
            ⊎ IsUncopied fate self.old.door result self.new.door }
        ensures acts { self.new.acts ≡ self.old.acts }
        ensures messages { self.new.messages ≡ messages_after link self.old.messages }
        ensures faults { self.new.faults ≡ faults_after (fate_of self.old.acts link self.old.messages) self.old.faults }
    {
        match self.next(link) {
            Fate::Goes => self.door.change(alloc, link, device, name, change),
            Fate::IsLost => Err(Lost),
            Fate::LosesReply => {
                let _ = self.door.change(alloc, link, device, name, change);
                Err(Lost)
            }
            Fate::ComesTwice => match change.copy(alloc) {
                Ok(copy) => {
                    let _ = self.door.change(alloc, link, device, name, copy);
                    self.door.change(alloc, link, device, name, change)
                }
                Err(NoMemory) => {
                    self.door.may_stand(device, &name.hash);
                    Ok(Answer::NoMemory)
                }
            },
        }
    }

    fn get(&mut self, alloc: Global, link: Link, device: u8, name: &Name) -> Result<Got, Lost>
        requires device { device < (D.sight self.old.door).nodes.devices }
        requires fits { (D.sight self.old.door).nodes.fits name.now ≡ true }
        ensures read { Calls (IsRead link device name.now) (around (D.sight self.old.door) self.old.acts self.old.messages self.old.faults self.old.asks) link
            result (around (D.sight self.new.door) self.new.acts self.new.messages self.new.faults self.new.asks) }
        ensures asks { self.new.asks ≡ self.old.asks }
        ensures inside { (D.sight self.new.door).asks ≡ (D.sight self.old.door).asks }
        ensures happens { Happens D.sight (IsRead link device name.now) link (fate_of self.old.acts link self.old.messages) self.old.door result self.new.door }
        ensures acts { self.new.acts ≡ self.old.acts }
        ensures messages { self.new.messages ≡ messages_after link self.old.messages }
        ensures faults { self.new.faults ≡ faults_after (fate_of self.old.acts link self.old.messages) self.old.faults }
    {
        match self.next(link) {
            Fate::Goes => self.door.get(alloc, link, device, name),
            Fate::IsLost => Err(Lost),
            Fate::LosesReply => {
                let _ = self.door.get(alloc, link, device, name);
                Err(Lost)
            }
            Fate::ComesTwice => {
                let _ = self.door.get(alloc, link, device, name);
                self.door.get(alloc, link, device, name)
            }
        }
    }
}

impl<D: ReplicaDoor + FaithfulDoor + Drop> ReplicaDoor for Lossy<D> {
    fn hashes(
        &mut self,
        alloc: Global,
        link: Link,
        device: u8,
        part: u32,
    ) -> Result<Result<Vec<SuffixHash>, DirFault>, Lost>
        requires device { device < (D.sight self.old.door).nodes.devices }
        requires part { part < 2 ^ (D.sight self.old.door).nodes.power }
        ensures read { Calls (IsHashesRead link device part) (around (D.sight self.old.door) self.old.acts self.old.messages self.old.faults self.old.asks) link
            result (around (D.sight self.new.door) self.new.acts self.new.messages self.new.faults self.new.asks) }
        ensures asks { self.new.asks ≡ asked self.old.asks link }
        ensures inside { (D.sight self.new.door).asks ≡ asked_inside link (fate_of self.old.acts link self.old.messages) (D.sight self.old.door).asks }
        ensures happens { let fate = fate_of self.old.acts link self.old.messages in
            Happens D.sight (IsHashesRead link device part) link fate self.old.door result self.new.door }
        ensures acts { self.new.acts ≡ self.old.acts }
        ensures messages { self.new.messages ≡ messages_after link self.old.messages }
        ensures faults { self.new.faults ≡ faults_after (fate_of self.old.acts link self.old.messages) self.old.faults }
    {
        match self.next_asking(link) {
            Fate::Goes => self.door.hashes(alloc, link, device, part),
            Fate::IsLost => Err(Lost),
            Fate::LosesReply => {
                let _ = self.door.hashes(alloc, link, device, part);
                Err(Lost)
            }
            Fate::ComesTwice => {
                let _ = self.door.hashes(alloc, link, device, part);
                self.door.hashes(alloc, link, device, part)
            }
        }
    }

    fn files_of(
        &mut self,
        alloc: Global,
        link: Link,
        device: u8,
        part: u32,
        suffix: u16,
    ) -> Result<Result<Vec<DirLine>, DirFault>, Lost>
        requires device { device < (D.sight self.old.door).nodes.devices }
        requires part { part < 2 ^ (D.sight self.old.door).nodes.power }
        requires suffix { suffix < 4096 }
        ensures read { Calls (IsFilesRead link device part suffix) (around (D.sight self.old.door) self.old.acts self.old.messages self.old.faults
            self.old.asks) link result (around (D.sight self.new.door) self.new.acts self.new.messages self.new.faults self.new.asks) }
        ensures asks { self.new.asks ≡ asked self.old.asks link }
        ensures inside { (D.sight self.new.door).asks ≡ asked_inside link (fate_of self.old.acts link self.old.messages) (D.sight self.old.door).asks }
        ensures happens { Happens D.sight (IsFilesRead link device part suffix) link (fate_of self.old.acts link self.old.messages) self.old.door result
            self.new.door }
        ensures acts { self.new.acts ≡ self.old.acts }
        ensures messages { self.new.messages ≡ messages_after link self.old.messages }
        ensures faults { self.new.faults ≡ faults_after (fate_of self.old.acts link self.old.messages) self.old.faults }
    {
        match self.next_asking(link) {
            Fate::Goes => self.door.files_of(alloc, link, device, part, suffix),
            Fate::IsLost => Err(Lost),
            Fate::LosesReply => {
                let _ = self.door.files_of(alloc, link, device, part, suffix);
                Err(Lost)
            }
            Fate::ComesTwice => {
                let _ = self.door.files_of(alloc, link, device, part, suffix);
                self.door.files_of(alloc, link, device, part, suffix)
            }
        }
    }

    fn read_write(
        &mut self,
        alloc: Global,
        link: Link,
        device: u8,
        part: u32,
        hash: &[u8; 16],
        file: &FileName,
    ) -> Result<Result<Option<Stored>, DirFault>, Lost>
        requires device { device < (D.sight self.old.door).nodes.devices }
        requires part { part < 2 ^ (D.sight self.old.door).nodes.power }
        requires within { IsOfPart (D.sight self.old.door).nodes.power part hash.now }
        ensures read { Calls (IsWriteRead link device part hash.now file.now)
            (around (D.sight self.old.door) self.old.acts self.old.messages self.old.faults self.old.asks) link result
            (around (D.sight self.new.door) self.new.acts self.new.messages self.new.faults self.new.asks) }
        ensures asks { self.new.asks ≡ self.old.asks }
        ensures inside { (D.sight self.new.door).asks ≡ (D.sight self.old.door).asks }
        ensures happens { Happens D.sight (IsWriteRead link device part hash.now file.now) link (fate_of self.old.acts link self.old.messages) self.old.door
            result self.new.door }
        ensures acts { self.new.acts ≡ self.old.acts }
        ensures messages { self.new.messages ≡ messages_after link self.old.messages }
        ensures faults { self.new.faults ≡ faults_after (fate_of self.old.acts link self.old.messages) self.old.faults }
    {
        match self.next(link) {
            Fate::Goes => self.door.read_write(alloc, link, device, part, hash, file),
            Fate::IsLost => Err(Lost),
            Fate::LosesReply => {
                let _ = self.door.read_write(alloc, link, device, part, hash, file);
                Err(Lost)
            }
            Fate::ComesTwice => {
                let _ = self.door.read_write(alloc, link, device, part, hash, file);
                self.door.read_write(alloc, link, device, part, hash, file)
            }
        }
    }
}
