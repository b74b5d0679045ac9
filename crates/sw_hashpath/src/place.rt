ghost use Rattle.std.specs.Prelude.{◌≡◌, ◌↔◌, None, Some, Err, IfOk};
ghost use Rattle.sw_hashpath.specs.BadNames.{bad_name};
ghost use Rattle.sw_hashpath.specs.Paths.{hash_of};
ghost use Rattle.sw_hashpath.specs.declared.bad_name.BadName.{BadName};

use crate::name_error::NameError;
use crate::path::hash_path;
use crate::secrets::Secrets;
use std::alloc::Global;
use sw_outside::{Bytes, NoMemory};

/// The name of a container, and the hash of its path.
#[derive(Debug, Drop)]
pub struct Place {
    pub account: Bytes,
    pub container: Bytes,
    pub hash: [u8; 16],
}

impl Place {
    /// The place of this container, with the hash of its path under these secrets.
    ///
    /// The error is [`NameError::Bad`] with the first thing that is wrong with the names, and [`NameError::NoMemory`]
    /// only over good names.
    pub fn new(
        alloc: Global,
        secrets: &Secrets,
        account: &[u8],
        container: &[u8],
    ) -> Result<Place, NameError>
        ensures place { IfOk result (λ place. place ≡ record {
          account = account.now;
          container = container.now;
          hash = hash_of secrets.now account.now (Some container.now) None;
        }) }
        ensures good { IfOk result (λ _. bad_name account.now (Some container.now) None ≡ None) }
        ensures bad { (bad : BadName) → (result ≡ Err (NameError.Bad bad)) ↔ (bad_name account.now (Some container.now) None ≡ Some bad) }
    {
        let hash = hash_path(secrets, account, Some(container), None)?;
        Ok(Place {
            account: Bytes::copy(alloc, account)?,
            container: Bytes::copy(alloc, container)?,
            hash,
        })
    }

    /// A place that is equal to this one, or [`NoMemory`].
    pub fn copy(&self, alloc: Global) -> Result<Place, NoMemory>
        ensures { IfOk result (λ copy. copy ≡ self.now) }
    {
        Ok(Place {
            account: Bytes::copy(alloc, self.account.as_slice())?,
            container: Bytes::copy(alloc, self.container.as_slice())?,
            hash: self.hash,
        })
    }
}
