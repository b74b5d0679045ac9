ghost use Rattle.std.specs.Prelude.{◌≡◌, IfOk, OnOk, Bool, List, ℕ};
ghost use Rattle.sqlite.specs.Values.{bound};
ghost use Rattle.sqlite_value.specs.Order.{Row as SqlRow};
ghost use Rattle.sw_container_store.specs.declared.statements.Command.{Command as Commanded};
ghost use Rattle.sw_container_store.specs.declared.statements.Query.{Query as Queried};

use crate::statements::{Command, Query};
use sqlite::Row;
use sqlite::types::ValueRef;
use std::alloc::Global;
use sw_outside::StoreError;

/// Why a database isn't used.
#[derive(Clone, Copy, Debug, PartialEq, Eq)]
pub enum Damage {
    /// Its tables have another format.
    Format,
    /// It is that of another container.
    Container,
    /// A row in it is none of a container's.
    Row,
    /// A change of one row has changed another number of them.
    Change,
    /// It can't take so great a number.
    Number,
    /// Its file was removed, or moved away, while it was open.
    Gone,
}

impl Damage {
    /// It in words.
    pub fn words(self) -> &'static str {
        match self {
            Damage::Format => "it has another format",
            Damage::Container => "it is the database of another container",
            Damage::Row => "a row in it is damaged",
            Damage::Change => "a change has not changed one row",
            Damage::Number => "it can't take so great a number",
            Damage::Gone => "its file is gone",
        }
    }
}

/// A database that is open. What a command may make of it, and what a query may tell, are relations between what it was and what it then is, of which
/// contracts above know nothing more: so they say exactly what was asked of it. After an error it is not to be asked again.
pub trait Database: Drop {
    /// Which database it is.
    ghost key: { Self → List ℕ };

    /// The database may go from the one to the other where this was asked of it with these values, and done.
    ghost runs: { Commanded → SqlRow → Self → Self → Type 0 };

    /// It may tell these rows where this was asked of it with these values.
    ghost shows: { Queried → SqlRow → Self → Self → List SqlRow → Type 0 };

    /// Asks for a command.
    fn run(&mut self, command: Command, values: &[ValueRef<'_>]) -> Result<(), StoreError>
        ensures runs { OnOk result (runs command (bound values.now) self.old self.new) }
        ensures key { key self.new ≡ key self.old };

    /// Asks for a query, and answers all its rows.
    fn ask(&mut self, query: Query, values: &[ValueRef<'_>]) -> Result<Vec<Row>, StoreError>
        ensures shows { IfOk result (λ rows. shows query (bound values.now) self.old self.new rows.items) }
        ensures key { key self.new ≡ key self.old };

    /// Keeps why it isn't used, to be told.
    fn refuse(&self, damage: Damage) -> StoreError
        ensures { result ≡ StoreError.Failed };

    /// Closes it.
    fn close(self);
}

/// The databases of the containers of a lock, by the hashes of their places. What they may tell of whether there is one, and which database an open may give,
/// are relations of which contracts above know nothing more: so they say exactly what was asked.
pub trait Databases: Drop {
    type Open: Database;

    /// Which database a container's is.
    ghost key: { Self → List ℕ → List ℕ };

    /// They may tell this of whether there is one of this hash, and go from the one to the other.
    ghost finds: { Self → List ℕ → Bool → Self → Type 0 };

    /// They may give this database where that of this hash is opened, and go from the one to the other.
    ghost opens: { Self → List ℕ → Self → Self.Open → Type 0 };

    /// They may tell that these are the hashes of all.
    ghost lists: { Self → List (List ℕ) → Type 0 };

    /// Whether there is one.
    fn is_there(&mut self, hash: &[u8; 16]) -> Result<bool, StoreError>
        ensures finds { IfOk result (λ is_there. finds self.old hash.now is_there self.new) };

    /// Opens it, and makes it where there is none.
    fn open(&mut self, alloc: Global, hash: &[u8; 16]) -> Result<Self::Open, StoreError>
        ensures opens { IfOk result (λ database. opens self.old hash.now self.new database) }
        ensures key { IfOk result (λ database. Self.Open.key database ≡ key self.old hash.now) };

    /// The hashes of all containers that have one, each once.
    fn hashes(&self, alloc: Global) -> Result<Vec<[u8; 16]>, StoreError>
        ensures { IfOk result (λ hashes. lists self.now hashes.items) };

    /// Has the reason of the last failure told.
    fn tell(&self);
}
