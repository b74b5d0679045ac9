use crate::folders::{end_folder, fresh_folder};
use crate::volume::OWNER;
use crate::watched::{Steps, Watched};
use std::alloc::Global;
use std::rc::Rc;
use std::test::Fail;
use std::{fs, io};
use sw_outside::{NoMemory, StoreError};
use sw_store::{HostVolume, NoNotes};

/// The folder of a test, and the host, whose steps there are watched.
#[derive(Drop)]
pub(crate) struct Stage {
    pub host: (Watched, Global),
    root: String,
    notes: NoNotes,
}

impl Stage {
    pub(crate) fn new(rt: HostRuntime, test: &str) -> Result<Stage, Fail> {
        let alloc = rt.alloc();
        let root = fresh_folder(&rt, test)?;
        fs::create_dir(&rt, root.as_str())?;
        let steps = Rc::new(alloc, Steps::new(alloc))?;
        Ok(Stage {
            host: (Watched { rt, steps }, alloc),
            root,
            notes: NoNotes,
        })
    }

    pub(crate) fn steps(&self) -> &Steps {
        &self.host.0.steps
    }

    pub(crate) fn root(&self) -> &str {
        self.root.as_str()
    }

    pub(crate) fn path(&self, name: &str) -> Result<String, Fail> {
        let root = self.root();
        Ok(format!(in self.host.1; "{root}/{name}")?)
    }

    /// Whether a file is written, by steps that aren't watched.
    pub(crate) fn writes(&self, path: &str, text: &str) -> bool {
        fs::write(&self.host.0.rt, path, text).is_ok()
    }

    /// A volume over the folder.
    pub(crate) fn volume(&self) -> Result<HostVolume<'_, (Watched, Global), NoNotes>, StoreError> {
        let root = String::from_str(self.host.1, self.root()).map_err(NoMemory::from)?;
        HostVolume::open(&self.host, &self.notes, root, OWNER)
    }

    /// Ends the folder, and makes it again.
    pub(crate) fn begin_anew(&self) -> io::Result<()> {
        let rt = &self.host.0.rt;
        fs::remove_dir_all(rt, self.root())?;
        fs::create_dir(rt, self.root())
    }

    pub(crate) fn end(&self) -> Result<(), Fail> {
        end_folder(&self.host.0.rt, self.root())
    }
}
