ghost use Rattle.std.specs.Prelude.{◌≡◌};
ghost use Rattle.sw_object_server.specs.Targets.{verb_of as verb_of_method};

use http::Method;

/// What a client may do with an object, by the method of its request.
#[derive(Clone, Copy, Debug, PartialEq, Eq)]
pub enum Verb {
    Put,
    Get,
    Head,
    Post,
    Delete,
}

/// The verb that the method is, where it is one of an object's.
pub(crate) fn verb_of(method: &Method) -> Option<Verb>
    ensures { result ≡ verb_of_method method.now }
{
    let name = method.as_str();
    if name == "PUT" {
        return Some(Verb::Put);
    }
    if name == "GET" {
        return Some(Verb::Get);
    }
    if name == "HEAD" {
        return Some(Verb::Head);
    }
    if name == "POST" {
        return Some(Verb::Post);
    }
    if name == "DELETE" {
        return Some(Verb::Delete);
    }
    None
}
