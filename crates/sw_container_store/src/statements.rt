ghost use Rattle.std.specs.Prelude.{◌≡◌};
ghost use Rattle.sw_container_store.specs.Statements.{changes_of, command_text, query_text};

/// The tables of a database and the number of their format, made in one transaction. A row's name, of which there is one for each, is found by an index. That
/// a number (ROWID) is never given out again is kept by AUTOINCREMENT, also over a later start. (After the tables of OpenStack Swift's container databases;
/// the table of the format, and that the account's and the container's hash is there, are this project's own. Swift has its points in `outgoing_sync` too, by
/// the id of the other database; here they are by device, and by range. `shard_range` is after Swift's: the index of a range stands in place of a name and of a
/// time. How far a container is split, and up to which number a shard's device has all rows of a range, Swift has in its metadata and in `outgoing_sync`; here
/// they are in `sharding` and `shard_sync`.)
pub const SCHEMA: &str = "BEGIN; \
CREATE TABLE format (version INTEGER NOT NULL) STRICT; \
INSERT INTO format (version) VALUES (3); \
CREATE TABLE container_info (id INTEGER PRIMARY KEY, account TEXT NOT NULL, container TEXT NOT NULL, hash BLOB NOT NULL, \
put_timestamp TEXT NOT NULL, delete_timestamp TEXT) STRICT; \
CREATE TABLE object (ROWID INTEGER PRIMARY KEY AUTOINCREMENT, name TEXT NOT NULL, created_at TEXT NOT NULL, size INTEGER NOT NULL, \
content_type TEXT NOT NULL, etag BLOB NOT NULL, deleted INTEGER NOT NULL) STRICT; \
CREATE UNIQUE INDEX object_name ON object (name); \
CREATE TABLE outgoing_sync (range INTEGER NOT NULL, device INTEGER NOT NULL, sync_point INTEGER NOT NULL, PRIMARY KEY (range, device)) STRICT; \
CREATE TABLE shard_range (range INTEGER PRIMARY KEY, account TEXT NOT NULL, container TEXT NOT NULL, hash BLOB NOT NULL, \
lower TEXT NOT NULL, upper TEXT NOT NULL, state INTEGER NOT NULL) STRICT; \
CREATE TABLE shard_sync (range INTEGER NOT NULL, device INTEGER NOT NULL, sync_point INTEGER NOT NULL, PRIMARY KEY (range, device)) STRICT; \
CREATE TABLE sharding (cursor INTEGER NOT NULL, emptied INTEGER NOT NULL) STRICT; \
INSERT INTO sharding (cursor, emptied) VALUES (0, 0); \
COMMIT";

/// Makes the tables of format 1, which had no sync points, those of format 2, in one transaction. What is in them stays.
pub const UPGRADE_1: &str = "BEGIN; \
CREATE TABLE outgoing_sync (range INTEGER NOT NULL, device INTEGER NOT NULL, sync_point INTEGER NOT NULL, PRIMARY KEY (range, device)) STRICT; \
UPDATE format SET version = 2; \
COMMIT";

/// Makes the tables of format 2, which had no shard ranges, those of this format, in one transaction. What is in them stays.
pub const UPGRADE_2: &str = "BEGIN; \
CREATE TABLE shard_range (range INTEGER PRIMARY KEY, account TEXT NOT NULL, container TEXT NOT NULL, hash BLOB NOT NULL, \
lower TEXT NOT NULL, upper TEXT NOT NULL, state INTEGER NOT NULL) STRICT; \
CREATE TABLE shard_sync (range INTEGER NOT NULL, device INTEGER NOT NULL, sync_point INTEGER NOT NULL, PRIMARY KEY (range, device)) STRICT; \
CREATE TABLE sharding (cursor INTEGER NOT NULL, emptied INTEGER NOT NULL) STRICT; \
INSERT INTO sharding (cursor, emptied) VALUES (0, 0); \
UPDATE format SET version = 3; \
COMMIT";

/// Sync points are kept for all names of a container, and not for a part of them: by the number of the first range.
pub(crate) const WHOLE: u32 = 0;

/// What a database is asked to do. Each is one statement.
#[derive(Clone, Copy, Debug, PartialEq, Eq)]
pub enum Command {
    /// Begins a transaction.
    Begin,
    /// Ends it: all that was asked since is made, or nothing.
    Commit,
    /// Says which container it is, and its times.
    PutInfo,
    /// Puts a row under its number.
    PutRow,
    /// Takes the row of a number away.
    CutRow,
    /// Keeps a sync point, in place of the one of its range and device.
    PutSync,
    /// Takes all rows away. The greatest number given out stays.
    CutRows,
    /// Says that the rows were taken away.
    PutEmptied,
    /// Takes all shard ranges away.
    CutRanges,
    /// Puts a shard range under its index.
    PutRange,
    /// Says how many shard ranges are closed.
    PutCursor,
    /// Keeps up to which number a device of a shard has all rows of a range, in place of the number of this range and device.
    PutPoint,
}

impl Command {
    /// The statement.
    #[tactic(auto, unfolding(crate::specs::Statements::command_text))]
    pub fn text(self) -> &'static str
        ensures { result.now ≡ command_text self }
    {
        match self {
            Command::Begin => "BEGIN",
            Command::Commit => "COMMIT",
            Command::PutInfo =>
                "INSERT OR REPLACE INTO container_info (id, account, container, hash, put_timestamp, delete_timestamp) VALUES (1, ?1, ?2, ?3, ?4, ?5)",
            Command::PutRow =>
                "INSERT INTO object (ROWID, name, created_at, size, content_type, etag, deleted) VALUES (?1, ?2, ?3, ?4, ?5, ?6, ?7)",
            Command::CutRow => "DELETE FROM object WHERE ROWID = ?1",
            Command::PutSync =>
                "INSERT OR REPLACE INTO outgoing_sync (range, device, sync_point) VALUES (?1, ?2, ?3)",
            Command::CutRows => "DELETE FROM object",
            Command::PutEmptied => "UPDATE sharding SET emptied = 1",
            Command::CutRanges => "DELETE FROM shard_range",
            Command::PutRange =>
                "INSERT INTO shard_range (range, account, container, hash, lower, upper, state) VALUES (?1, ?2, ?3, ?4, ?5, ?6, ?7)",
            Command::PutCursor => "UPDATE sharding SET cursor = ?1",
            Command::PutPoint =>
                "INSERT OR REPLACE INTO shard_sync (range, device, sync_point) VALUES (?1, ?2, ?3)",
        }
    }

    /// How many rows it changes: none is said where it takes all away that are there.
    #[tactic(auto, unfolding(crate::specs::Statements::changes_of))]
    pub fn changes(self) -> Option<usize>
        ensures { result ≡ changes_of self }
    {
        match self {
            Command::Begin | Command::Commit => Some(0),
            Command::PutInfo | Command::PutRow | Command::CutRow | Command::PutSync => Some(1),
            Command::PutEmptied | Command::PutRange | Command::PutCursor | Command::PutPoint =>
                Some(1),
            Command::CutRows | Command::CutRanges => None,
        }
    }
}

/// What a database is asked to tell. Each is one statement.
#[derive(Clone, Copy, Debug, PartialEq, Eq)]
pub enum Query {
    /// The number of its format.
    Format,
    /// Which container it is, and its times: no row where nothing was kept in it yet.
    Info,
    /// The greatest number given out: no row where none was.
    Top,
    /// The next rows above a number, in the order of their numbers: at most 1,000.
    Rows,
    /// All sync points, in order of range, then device.
    Syncs,
    /// How many shard ranges are closed, whether the rows were taken away, and of how many ranges and of how many points of them there are rows.
    Sharding,
    /// All shard ranges, in order of their indexes.
    Ranges,
    /// All points of shard ranges, in order of range, then device.
    Points,
}

impl Query {
    /// The statement.
    #[tactic(auto, unfolding(crate::specs::Statements::query_text))]
    pub fn text(self) -> &'static str
        ensures { result.now ≡ query_text self }
    {
        match self {
            Query::Format => "SELECT version FROM format",
            Query::Info =>
                "SELECT account, container, hash, put_timestamp, delete_timestamp FROM container_info",
            Query::Top => "SELECT seq FROM sqlite_sequence WHERE name = 'object'",
            Query::Rows =>
                "SELECT ROWID, name, created_at, size, content_type, etag, deleted FROM object WHERE ROWID > ?1 ORDER BY ROWID LIMIT 1000",
            Query::Syncs =>
                "SELECT range, device, sync_point FROM outgoing_sync ORDER BY range, device",
            Query::Sharding =>
                "SELECT cursor, emptied, (SELECT count(*) FROM shard_range), (SELECT count(*) FROM shard_sync) FROM sharding",
            Query::Ranges =>
                "SELECT range, account, container, hash, lower, upper, state FROM shard_range ORDER BY range",
            Query::Points =>
                "SELECT range, device, sync_point FROM shard_sync ORDER BY range, device",
        }
    }
}
