ghost use Rattle.std.specs.Prelude.{◌≡◌, ◌↔◌, Some, IfOk, OnErr};
ghost use Rattle.sw_expiry.specs.Dues.{TellsOf};
ghost use Rattle.sw_expiry.specs.declared.due.Due.{Due};

use crate::reading::read_parts;
use std::alloc::Global;
use sw_hashpath::{Name, NameError, Secrets};
use sw_outside::NoMemory;

/// A deletion that is due.
#[derive(Debug, Drop)]
pub struct Due {
    /// When, in seconds since the epoch.
    pub delete_at: u64,
    /// The object.
    pub name: Name,
}

/// The deletion that an entry of the queue tells of: the entry is a time in ten digits, a dash, and the path of an object that has a good name. `None` where it
/// tells of none; the expirer passes over such an entry. Or [`NoMemory`], only over an entry that tells of one.
pub fn read_entry(alloc: Global, secrets: &Secrets, entry: &[u8]) -> Result<Option<Due>, NoMemory>
    ensures due { IfOk result (λ found. (due : Due) → (found ≡ Some due) ↔ TellsOf secrets.now entry.now due) }
    ensures memory { OnErr result ((due : Due) × TellsOf secrets.now entry.now due) }
{
    let Some(parts) = read_parts(entry) else {
        return Ok(None);
    };
    match Name::new(alloc, secrets, parts.account, parts.container, parts.object) {
        Ok(name) => Ok(Some(Due {
            delete_at: parts.delete_at,
            name,
        })),
        Err(NameError::Bad(_)) => Ok(None),
        Err(NameError::NoMemory) => Err(NoMemory),
    }
}
