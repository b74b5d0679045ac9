ghost use Rattle.std.specs.Prelude.{◌≡◌, false, IfOk};

use std::test::Fail;
use sw_container_store::{ContainerStore, HostDatabases};
use sw_host::NoNotes;
use sw_keeper::Keeper;

/// What opens keepers over databases. Tests are generic in it, so that the host's own types stand in one place.
pub(crate) trait Opens {
    type K: Keeper + Drop;

    /// A keeper over the databases below a folder, which tells nothing of what it holds.
    fn open(&self, root: &str) -> Result<Self::K, Fail>
        ensures { IfOk result (λ keeper. Self.K.tells keeper ≡ false) };
}

/// The host's databases.
#[derive(Clone, Copy)]
pub(crate) struct Host<'a> {
    pub(crate) rt: &'a HostRuntime,
}

impl<'a> Opens for Host<'a> {
    type K = ContainerStore<HostDatabases<'a, NoNotes>>;

    fn open(&self, root: &str) -> Result<ContainerStore<HostDatabases<'a, NoNotes>>, Fail> {
        let alloc = self.rt.alloc();
        let databases = HostDatabases::new(self.rt, &NoNotes, String::from_str(alloc, root)?, 4);
        Ok(ContainerStore::new(alloc, databases)?)
    }
}
