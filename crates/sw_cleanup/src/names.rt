ghost use Rattle.std.specs.Prelude.{◌≡◌, ◌++◌, ◌∷◌, [], IfOk, OnOk};
ghost use Rattle.sw_cleanup.specs.Cleaning.{names_of};

use std::alloc::Global;
use sw_diskfile::{FileName, read_name};
use sw_outside::{Bytes, NoMemory};

/// The names of writes' files among these texts, in their order. The others are passed over.
pub fn names_of_writes(alloc: Global, texts: &[Bytes]) -> Result<Vec<FileName>, NoMemory>
    ensures { IfOk result (λ names. names.items ≡ names_of texts.now) }
{
    let mut names = Vec::new(alloc);
    for text in texts {
        add_name(&mut names, text.as_slice())?;
    }
    Ok(names)
}

/// Adds the name at the end, where the text is that of a write's file.
fn add_name(names: &mut Vec<FileName>, text: &[u8]) -> Result<(), NoMemory>
    ensures { OnOk result (names.new.items ≡ names.old.items ++ names_of (text.now ∷ [])) }
{
    match read_name(text) {
        Ok(name) => {
            names.push(name)?;
            Ok(())
        }
        Err(_) => Ok(()),
    }
}
