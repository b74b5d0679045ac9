ghost use Rattle.std.specs.Prelude.{◌≡◌, ℕ, true, Ok, IfOk, IfSome, string_bytes};
ghost use Rattle.sqlite.specs.Files.{file_state};
ghost use Rattle.sqlite.specs.State.{Executes, HasCleanDisk, Shown};
ghost use Rattle.sw_container_store.specs.Statements.{changes_of, command_text, query_text};

use crate::database::{Damage, Database};
use crate::reading::number;
use crate::statements::{Command, Query, SCHEMA, UPGRADE_1, UPGRADE_2};
use sqlite::types::ValueRef;
use sqlite::{Connection, Error, ErrorCode, File, FileStore, Row};
use std::io;
use std::io::ErrorKind;
use sw_host::{HostCall, Notes};
use sw_outside::StoreError;

/// A database of SQLite that is open. The notes are told why a call on it failed. What `sqlite` says of a call on files that have returned what was written to
/// them is what it may be asked and may tell.
#[derive(Drop)]
pub struct SqlDatabase<'a, N: Notes> {
    connection: Connection<FileStore<File>>,
    path: String,
    notes: &'a N,
}

impl<'a, N: Notes> SqlDatabase<'a, N> {
    /// Opens the database at a path, and makes it with its tables where there is none. One of an earlier format gets the tables that it lacks. An open looks at
    /// the whole of it.
    pub fn open(rt: &HostRuntime, notes: &'a N, path: String) -> Result<Self, StoreError>
        ensures { IfOk result (λ d. d.path ≡ path) }
    {
        match Connection::open(rt, path.as_str()) {
            Ok(connection) => {
                let mut database = SqlDatabase {
                    connection,
                    path,
                    notes,
                };
                database.make_tables()?;
                Ok(database)
            }
            Err(error) => Err(failed(notes, HostCall::OpenDatabase, path.as_str(), error)),
        }
    }

    /// Makes the tables, where there are none or not all.
    fn make_tables(&mut self) -> Result<(), StoreError>
        ensures { self.new.path ≡ self.old.path }
    {
        match make_missing(&mut self.connection) {
            Ok(()) => Ok(()),
            Err(error) => Err(failed(
                self.notes,
                HostCall::ChangeDatabase,
                self.path.as_str(),
                error,
            )),
        }
    }
}

fn make_missing(connection: &mut Connection<FileStore<File>>) -> Result<(), Error> {
    let row = connection.query_row("SELECT count(*) FROM sqlite_schema", &[])?;
    if row.get::<i64>(0)? == 0 {
        return connection.execute_batch(SCHEMA);
    }
    let rows = connection.query_all(Query::Format.text(), &[])?;
    let format = format_of(&rows);
    if format == Some(1) {
        connection.execute_batch(UPGRADE_1)?;
    }
    if format == Some(1) || format == Some(2) {
        connection.execute_batch(UPGRADE_2)?;
    }
    Ok(())
}

/// The number of the format that these rows tell, where they tell one.
fn format_of(rows: &[Row]) -> Option<u64> {
    match rows {
        [row] => number(row, 0),
        _ => None,
    }
}

/// Whether a command may have changed so many rows.
fn has_changed(command: Command, changed: usize) -> bool
    ensures { result ≡ true → IfSome (changes_of command) (λ n. changed ≡ n) }
{
    match command.changes() {
        Some(number) => changed == number,
        None => true,
    }
}

/// What an error of a database is to the keeper: want of memory is no failure. The reason of each other one is kept.
fn failed<N: Notes>(notes: &N, call: HostCall, path: &str, error: Error) -> StoreError {
    if let Error::SqliteFailure(ErrorCode::OutOfMemory) = error {
        return StoreError::NoMemory;
    }
    notes.keep(call, path, &reason(error));
    StoreError::Failed
}

/// Why a call failed, in the host's words.
fn reason(error: Error) -> io::Error {
    let Error::SqliteFailure(code) = error else {
        return io::Error::new(ErrorKind::InvalidData, "its tables are others");
    };
    match code {
        ErrorCode::CannotOpen => io::Error::new(ErrorKind::Other, "it can't be opened"),
        ErrorCode::DatabaseBusy => io::Error::new(ErrorKind::WouldBlock, "it is open elsewhere"),
        ErrorCode::DiskFull => io::Error::new(ErrorKind::StorageFull, "the disk is full"),
        ErrorCode::SystemIoFailure => io::Error::new(ErrorKind::Other, "the disk has failed"),
        ErrorCode::DatabaseCorrupt | ErrorCode::NotADatabase => io::Error::new(
            ErrorKind::InvalidData,
            "it is damaged",
        ),
        ErrorCode::ConstraintViolation(_) => io::Error::new(
            ErrorKind::InvalidData,
            "a row breaks a rule of its table",
        ),
        _ => io::Error::new(ErrorKind::Other, "the statement was refused"),
    }
}

impl<N: Notes> Database for SqlDatabase<'_, N> {
    ghost key = { λ d. string_bytes d.path };

    ghost runs = { λ command values old new. HasCleanDisk (file_state new.connection)
        → (changed : ℕ) × IfSome (changes_of command) (λ n. changed ≡ n)
        × Executes (command_text command) values (file_state old.connection) (file_state new.connection) (Ok changed) };

    ghost shows = { λ query values old new rows. HasCleanDisk (file_state new.connection)
        → Shown (query_text query) values (file_state old.connection) (file_state new.connection) rows };

    fn run(&mut self, command: Command, values: &[ValueRef<'_>]) -> Result<(), StoreError> {
        match self.connection.execute(command.text(), values) {
            Ok(changed) if has_changed(command, changed) => Ok(()),
            Ok(_) => Err(self.refuse(Damage::Change)),
            Err(error) => Err(failed(
                self.notes,
                HostCall::ChangeDatabase,
                self.path.as_str(),
                error,
            )),
        }
    }

    fn ask(&mut self, query: Query, values: &[ValueRef<'_>]) -> Result<Vec<Row>, StoreError> {
        match self.connection.query_all(query.text(), values) {
            Ok(rows) => Ok(rows),
            Err(error) => Err(failed(
                self.notes,
                HostCall::ReadDatabase,
                self.path.as_str(),
                error,
            )),
        }
    }

    fn refuse(&self, damage: Damage) -> StoreError {
        let reason = io::Error::new(ErrorKind::InvalidData, damage.words());
        self.notes
            .keep(HostCall::Check, self.path.as_str(), &reason);
        StoreError::Failed
    }

    // Where this fails, what was committed stands in the log beside the database, where the next open finds it.
    fn close(self) {
        let SqlDatabase {
            connection,
            path,
            notes,
        } = self;
        if let Err(error) = connection.close() {
            let _ = failed(notes, HostCall::ChangeDatabase, path.as_str(), error);
        }
    }
}
