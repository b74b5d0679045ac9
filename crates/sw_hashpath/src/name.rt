ghost use Rattle.std.specs.Prelude.{◌≡◌, ◌↔◌, None, Some, Err, IfOk};
ghost use Rattle.sw_hashpath.specs.BadNames.{bad_name};
ghost use Rattle.sw_hashpath.specs.Paths.{hash_of};
ghost use Rattle.sw_hashpath.specs.declared.bad_name.BadName.{BadName};

use crate::name_error::NameError;
use crate::path::hash_path;
use crate::secrets::Secrets;
use std::alloc::Global;
use sw_outside::{Bytes, NoMemory};

/// The name of an object, and the hash of its path.
#[derive(Debug, Drop)]
pub struct Name {
    pub account: Bytes,
    pub container: Bytes,
    pub object: Bytes,
    pub hash: [u8; 16],
}

impl Name {
    /// The name of this object, with the hash of its path under these secrets.
    ///
    /// The error is [`NameError::Bad`] with the first thing that is wrong with the names, and [`NameError::NoMemory`]
    /// only over good names.
    pub fn new(
        alloc: Global,
        secrets: &Secrets,
        account: &[u8],
        container: &[u8],
        object: &[u8],
    ) -> Result<Name, NameError>
        ensures name { let c = Some container.now in let o = Some object.now in
            IfOk result (λ name. name ≡ record {
              account = account.now;
              container = container.now;
              object = object.now;
              hash = hash_of secrets.now account.now c o;
            }) }
        ensures good { IfOk result (λ _. bad_name account.now (Some container.now) (Some object.now) ≡ None) }
        ensures bad { (bad : BadName) → (result ≡ Err (NameError.Bad bad)) ↔ (bad_name account.now (Some container.now) (Some object.now) ≡ Some bad) }
    {
        let hash = hash_path(secrets, account, Some(container), Some(object))?;
        Ok(Name {
            account: Bytes::copy(alloc, account)?,
            container: Bytes::copy(alloc, container)?,
            object: Bytes::copy(alloc, object)?,
            hash,
        })
    }

    /// A name that is equal to this one, or [`NoMemory`].
    pub fn copy(&self, alloc: Global) -> Result<Name, NoMemory>
        ensures { IfOk result (λ copy. copy ≡ self.now) }
    {
        Ok(Name {
            account: Bytes::copy(alloc, self.account.as_slice())?,
            container: Bytes::copy(alloc, self.container.as_slice())?,
            object: Bytes::copy(alloc, self.object.as_slice())?,
            hash: self.hash,
        })
    }
}
