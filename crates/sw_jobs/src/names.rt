ghost use Rattle.std.specs.Prelude.{◌≡◌, ◌<◌, ◌^◌, IfOk};
ghost use Rattle.sw_jobs.specs.Requests.{container_name, name_of, object_name};

use itoa::write_digits;
use std::alloc::Global;
use sw_hashpath::{Name, NameError, Secrets};
use sw_outside::NoMemory;

/// The name of this object of this container.
#[tactic(auto, unfolding(crate::specs::Requests::name_of))]
pub(crate) fn name_of(
    alloc: Global,
    secrets: &Secrets,
    container: u64,
    object: u64,
) -> Result<Name, NoMemory>
    requires container { container < 4 }
    requires object { object < 10 ^ 8 }
    ensures { IfOk result (λ name. name ≡ name_of secrets.now (container_name container) (object_name object)) }
{
    let container = [b'c', b'0' + container as u8];
    let object = object_text(object);
    match Name::new(alloc, secrets, b"a", &container, &object) {
        Ok(name) => Ok(name),
        Err(NameError::NoMemory) => Err(NoMemory),
        Err(NameError::Bad(_)) => unreachable!(),
    }
}

#[tactic(auto, unfolding(crate::specs::Requests::object_name))]
fn object_text(object: u64) -> [u8; 9]
    requires { object < 10 ^ 8 }
    ensures { result ≡ object_name object }
{
    let mut text = *b"o00000000";
    write_digits(object, &mut text, 9);
    text
}
