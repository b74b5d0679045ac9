ghost use Rattle.std.specs.Prelude.{IfOk};
ghost use Rattle.std.specs.Str.{IsUtf8};

use std::alloc::Global;
use std::test::Fail;
use std::{env, fs, process};
use sw_hashpath::{Place, Secrets};
use sw_keeper::{Batch, Change, Tables};
use sw_outside::{Bytes, NoMemory};
use sw_rows::Row;
use sw_sync::Points;
use sw_timestamp::Timestamp;

/// The path of an empty folder of this process and test.
pub(crate) fn fresh_folder(rt: &HostRuntime, test: &str) -> Result<String, Fail> {
    let above = env::temp_dir(rt)?;
    let id = process::id(rt.process());
    let path = format!(in rt.alloc(); "{}/sw-container-store-tests-{id}-{test}", above.display())?;
    let _ = fs::remove_dir_all(rt, path.as_str());
    fs::create_dir(rt, path.as_str())?;
    Ok(path)
}

/// Ends the folder.
pub(crate) fn end_folder(rt: &HostRuntime, path: &str) -> Result<(), Fail> {
    fs::remove_dir_all(rt, path)?;
    Ok(())
}

/// The place of a container.
pub(crate) fn place(alloc: Global, container: &str) -> Result<Place, Fail> {
    let secrets = Secrets {
        prefix: Bytes::copy(alloc, b"")?,
        suffix: Bytes::copy(alloc, b"changeme")?,
    };
    Ok(Place::new(alloc, &secrets, b"AUTH_test", container.as_bytes())?)
}

/// The path of the database of a place.
pub(crate) fn database_path(alloc: Global, root: &str, place: &Place) -> Result<String, Fail> {
    let digits = hex::encode(alloc, place.hash.as_slice())?;
    let partition = place.hash[0] >> 4;
    let suffix = digits.get(29..).ok_or("no suffix")?;
    Ok(format!(in alloc; "{root}/containers/{partition}/{suffix}/{digits}/{digits}.db")?)
}

pub(crate) fn time(units: u64) -> Timestamp {
    Timestamp::from_units(units).unwrap_or(Timestamp::from_units(0).unwrap())
}

/// A row of this name and content type at this many units of 10 microseconds.
pub(crate) fn row(
    alloc: Global,
    name: &str,
    units: u64,
    size: u64,
    content_type: &str,
    deleted: bool,
) -> Result<Row, NoMemory> {
    Ok(Row {
        name: text(alloc, name)?,
        created_at: time(units),
        size,
        content_type: text(alloc, content_type)?,
        etag: [7; 16],
        deleted,
    })
}

/// The bytes of a text.
fn text(alloc: Global, text: &str) -> Result<Bytes, NoMemory>
    ensures { IfOk result (λ bytes. ∥ IsUtf8 bytes ∥₁) }
{
    let bytes = Bytes::copy(alloc, text.as_bytes())?;
    Ok(bytes)
}

/// A batch that creates a container with one row.
pub(crate) fn creation(alloc: Global, name: &str, units: u64) -> Result<Batch, NoMemory> {
    let row = row(alloc, name, units, 3, "text/plain", false)?;
    let times = Change::Times {
        put_time: time(units),
        delete_time: None,
    };
    Ok(Batch::from(vec![in alloc; times, Change::PutRow(row, 1)]?))
}

/// What tables are, in one text: their times, the greatest number given out, each row, and each sync point.
pub(crate) fn tables_text(alloc: Global, tables: &Option<Tables>) -> Result<String, Fail> {
    let Some(tables) = tables else {
        return Ok(String::from_str(alloc, "none")?);
    };
    let mut text = format!(in alloc;
        "{} {} {}",
        tables.put_time.units(),
        tables.delete_time.map_or(0, |time| time.units()),
        tables.rows.top()
    )?;
    for (rowid, row) in tables.rows.iter() {
        add_row(alloc, &mut text, rowid, row)?;
    }
    add_points(alloc, &mut text, &tables.syncs)?;
    Ok(text)
}

fn add_row(alloc: Global, text: &mut String, rowid: u64, row: &Row) -> Result<(), Fail> {
    let name = hex::encode(alloc, row.name.as_slice())?;
    let kind = hex::encode(alloc, row.content_type.as_slice())?;
    let etag = hex::encode(alloc, row.etag.as_slice())?;
    let row = format!(in alloc;
        "\n{rowid} {name} {} {} {kind} {etag} {}",
        row.created_at.units(),
        row.size,
        row.deleted
    )?;
    text.push_str(&row)?;
    Ok(())
}

fn add_points(alloc: Global, text: &mut String, points: &Points) -> Result<(), Fail> {
    for device in 0..=u8::MAX {
        if let Some(rowid) = points.get(0, device) {
            text.push_str(&format!(in alloc; "\nsync {device} {rowid}")?)?;
        }
    }
    Ok(())
}
