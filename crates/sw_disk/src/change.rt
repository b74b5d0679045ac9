ghost use Rattle.std.specs.Prelude.{◌≡◌};
ghost use Rattle.std.specs.Option.{option_map};
ghost use Rattle.sw_disk.specs.Folders.{makes, makes_in, name_in};

use crate::paths::{above, last_name};
use sw_outside::Bytes;

/// A call that changed a disk in memory, which began with nothing on it.
#[derive(Debug, Drop)]
pub enum Change {
    Created {
        dir: Bytes,
        file: Bytes,
        bytes: Bytes,
    },
    FileSynced {
        dir: Bytes,
        file: Bytes,
    },
    FolderSynced {
        dir: Bytes,
    },
    Moved {
        from_dir: Bytes,
        from_file: Bytes,
        dir: Bytes,
        file: Bytes,
    },
    Made {
        dir: Bytes,
    },
    Removed {
        dir: Bytes,
        file: Bytes,
    },
}

impl Change {
    /// Whether it made this folder.
    pub(crate) fn makes(&self, folder: &[u8]) -> bool
        ensures { result ≡ makes folder.now self.now }
    {
        match self {
            Change::Made { dir } => dir.as_slice() == folder,
            _ => false,
        }
    }

    /// Whether it made a folder in this one.
    pub(crate) fn makes_in(&self, folder: &[u8]) -> bool
        ensures { result ≡ makes_in folder.now self.now }
    {
        match self {
            Change::Made { dir } => {
                !dir.as_slice().is_empty() && above(dir.as_slice()) == folder
            }
            _ => false,
        }
    }

    /// The last name of the folder that it made in this one, where it made one there.
    pub(crate) fn name_in(&self, folder: &[u8]) -> Option<&[u8]>
        ensures { option_map (λ name. name.now) result ≡ name_in folder.now self.now }
    {
        match self {
            Change::Made { dir } if self.makes_in(folder) => Some(last_name(dir.as_slice())),
            _ => None,
        }
    }
}
