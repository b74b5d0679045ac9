ghost use Rattle.std.specs.Prelude.{◌≡◌, ◌≤◌, ◌++◌, ⊤, codes, drop, length, decimal, IfOk, OnOk, string_bytes};
ghost use Rattle.hex.specs.Hex.{encode_lower};
ghost use Rattle.sw_container_store.specs.Paths.{database_path, segment};

use crate::database::Databases;
use crate::sql_database::SqlDatabase;
use hex::FromHex;
use itoa::Buffer;
use std::alloc::{AllocError, Global};
use std::io::ErrorKind;
use std::{fs, io};
use sw_hashpath::{hex_text, partition};
use sw_host::{Host, HostCall, Notes, above, make_way, store_error};
use sw_outside::{NoMemory, StoreError};

/// The databases of a lock's containers over the host's files, each at the path at which OpenStack Swift keeps a container's, below the folder of the lock:
/// `containers/<partition>/<suffix>/<hash>/<hash>.db`. The notes are told why a call failed.
#[derive(Drop)]
pub struct HostDatabases<'a, N: Notes> {
    host: Host<'a, HostRuntime, N>,
    root: String,
    power: u8,
    ghost power_fits: { (1 ≤ power) × (power ≤ 32) },
}

impl<'a, N: Notes> HostDatabases<'a, N> {
    /// Those below this folder, which has to be there, in a ring of 2 to the `power` partitions.
    pub fn new(rt: &'a HostRuntime, notes: &'a N, root: String, power: u8) -> HostDatabases<'a, N>
        requires least { 1 ≤ power }
        requires greatest { power ≤ 32 }
        ensures root { result.root ≡ root }
        ensures power { result.power ≡ power }
    {
        HostDatabases {
            host: Host { rt, notes },
            root,
            power,
        }
    }

    /// The path of a container's database.
    fn path(&self, alloc: Global, hash: &[u8; 16]) -> Result<String, StoreError>
        ensures { IfOk result (λ path. string_bytes path ≡ database_path (string_bytes self.now.root) self.now.power hash.now) }
    {
        let digits = hex_text(hash);
        let bytes = path_of(
            alloc,
            self.root.as_str(),
            partition(hash, self.power),
            digits.as_slice(),
        )?;
        match String::from_utf8(bytes) {
            Ok(path) => Ok(path),
            Err(_) => Err(StoreError::Failed),
        }
    }

    /// Whether anything stands there. Where the folder of the lock is gone, as that of a disk that isn't mounted, nothing is known of it.
    fn is_file(&self, path: &str) -> io::Result<bool> {
        let is_there = self.host.is_there(path)?;
        if !is_there {
            self.host.look(self.root.as_str())?;
        }
        Ok(is_there)
    }

    /// The digests whose digits are names of folders three below that of the containers. Where the folder of the lock is gone nothing is known of them.
    fn listed(&self, alloc: Global) -> io::Result<Vec<[u8; 16]>> {
        let mut hashes = Vec::new(alloc);
        let containers = format!(in alloc; "{}/containers", self.root)?;
        if !self.is_file(containers.as_str())? {
            return Ok(hashes);
        }
        for partition in folders(&self.host, containers.as_str())? {
            for suffix in folders(&self.host, partition.as_str())? {
                for hash in folders(&self.host, suffix.as_str())? {
                    add_digest(&mut hashes, hash.as_str())?;
                }
            }
        }
        Ok(hashes)
    }
}

impl<'a, N: Notes> Databases for HostDatabases<'a, N> {
    type Open = SqlDatabase<'a, N>;

    ghost key = { λ h hash. database_path (string_bytes h.root) h.power hash };

    ghost finds = { λ old _ _ new. (new.root ≡ old.root) × (new.power ≡ old.power) };

    ghost opens = { λ old _ new _. (new.root ≡ old.root) × (new.power ≡ old.power) };

    ghost lists = { λ _ _. ⊤ };

    fn is_there(&mut self, hash: &[u8; 16]) -> Result<bool, StoreError> {
        let path = self.path(self.host.rt.alloc(), hash)?;
        match self.is_file(path.as_str()) {
            Ok(is_there) => Ok(is_there),
            Err(error) => Err(store_error(error)),
        }
    }

    fn open(&mut self, alloc: Global, hash: &[u8; 16]) -> Result<SqlDatabase<'a, N>, StoreError> {
        let path = self.path(alloc, hash)?;
        if let Err(error) = make_way(&self.host, self.root.as_str(), above(path.as_str())) {
            return Err(store_error(error));
        }
        SqlDatabase::open(self.host.rt, self.host.notes, path)
    }

    fn hashes(&self, alloc: Global) -> Result<Vec<[u8; 16]>, StoreError> {
        match self.listed(alloc) {
            Ok(hashes) => Ok(hashes),
            Err(error) => Err(store_error(error)),
        }
    }

    fn tell(&self) {
        self.host.notes.tell();
    }
}

/// The path of the database of a container, below the folder of its lock.
fn path_of(alloc: Global, root: &str, partition: u32, digits: &[u8]) -> Result<Vec<u8>, NoMemory>
    requires { length digits.now ≡ 32 }
    ensures { IfOk result (λ path. path.items ≡ root.now ++ segment (codes "containers") ++ segment (decimal partition)
        ++ segment (drop 29 digits.now) ++ segment digits.now ++ segment digits.now ++ codes ".db") }
{
    let mut number = Buffer::new();
    let mut path = Vec::new(alloc);
    path.extend_from_slice(root.as_bytes())?;
    path.extend_from_slice(b"/containers")?;
    add_segment(&mut path, number.format(partition).as_bytes())?;
    add_database(&mut path, digits)?;
    Ok(path)
}

/// Adds the suffix, the folder and the database of the hash with these digits.
fn add_database(path: &mut Vec<u8>, digits: &[u8]) -> Result<(), NoMemory>
    requires { length digits.now ≡ 32 }
    ensures { OnOk result (path.new.items ≡ path.old.items ++ segment (drop 29 digits.now) ++ segment digits.now ++ segment digits.now ++ codes ".db") }
{
    add_segment(path, suffix_digits(digits))?;
    add_segment(path, digits)?;
    add_segment(path, digits)?;
    path.extend_from_slice(b".db")?;
    Ok(())
}

/// The last three of 32 digits.
fn suffix_digits(digits: &[u8]) -> &[u8]
    requires { length digits.now ≡ 32 }
    ensures { result.now ≡ drop 29 digits.now }
{
    &digits[29..]
}

/// Adds a slash and a name.
fn add_segment(path: &mut Vec<u8>, name: &[u8]) -> Result<(), NoMemory>
    ensures { OnOk result (path.new.items ≡ path.old.items ++ segment name.now) }
{
    path.push(b'/')?;
    path.extend_from_slice(name)?;
    Ok(())
}

/// The paths of what stands in a folder: of nothing where it isn't there.
fn folders<N: Notes>(host: &Host<'_, HostRuntime, N>, folder: &str) -> io::Result<Vec<String>> {
    match entries(host.rt, folder) {
        Err(error) if error.kind() == ErrorKind::NotFound => Ok(Vec::new(host.rt.alloc())),
        entries => host.noted(HostCall::ListFolder, folder, entries),
    }
}

/// The paths of the folders in a folder.
fn entries(rt: &HostRuntime, folder: &str) -> io::Result<Vec<String>> {
    let mut paths = Vec::new(rt.alloc());
    for entry in fs::read_dir(rt, folder)? {
        let entry = entry?;
        if entry.file_type()?.is_dir() {
            let name = entry.file_name();
            let path = format!(in rt.alloc(); "{folder}/{name}")?;
            paths.push(path).map_err(AllocError::from)?;
        }
    }
    Ok(paths)
}

/// Adds the digest whose digits the last name of a path is, where it is one.
fn add_digest(hashes: &mut Vec<[u8; 16]>, path: &str) -> io::Result<()> {
    let Some((_, name)) = path.rsplit_once('/') else {
        return Ok(());
    };
    if let Ok(hash) = <[u8; 16]>::from_hex(name) {
        if hex_text(&hash).as_slice() == name.as_bytes() {
            hashes.push(hash).map_err(AllocError::from)?;
        }
    }
    Ok(())
}
