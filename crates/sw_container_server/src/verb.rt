ghost use Rattle.std.specs.Prelude.{◌≡◌};
ghost use Rattle.sw_container_server.specs.Targets.{container_verb as container_verb_of, names_row as names_row_of, row_verb as row_verb_of};
ghost use Rattle.sw_container_server.specs.Targets.{verb_of as verb_of_method};

use http::Method;

/// What a client may do with a container, and an object server with a row of it.
#[derive(Clone, Copy, Debug, PartialEq, Eq)]
pub(crate) enum Verb {
    Put,
    Delete,
    Get,
    Head,
    PutRow,
    DeleteRow,
}

impl Verb {
    /// Whether it is one of a row's.
    pub(crate) fn names_row(self) -> bool
        ensures { result ≡ names_row_of self }
    {
        matches!(self, Verb::PutRow | Verb::DeleteRow)
    }
}

/// The verb that the method is, where it is one of a row's, or of a container's.
pub(crate) fn verb_of(of_row: bool, method: &Method) -> Option<Verb>
    ensures { result ≡ verb_of_method of_row method.now }
{
    if of_row {
        row_verb(method)
    } else {
        container_verb(method)
    }
}

fn row_verb(method: &Method) -> Option<Verb>
    ensures { result ≡ row_verb_of method.now }
{
    let name = method.as_str();
    if name == "PUT" {
        return Some(Verb::PutRow);
    }
    if name == "DELETE" {
        return Some(Verb::DeleteRow);
    }
    None
}

fn container_verb(method: &Method) -> Option<Verb>
    ensures { result ≡ container_verb_of method.now }
{
    let name = method.as_str();
    if name == "PUT" {
        return Some(Verb::Put);
    }
    if name == "DELETE" {
        return Some(Verb::Delete);
    }
    if name == "GET" {
        return Some(Verb::Get);
    }
    if name == "HEAD" {
        return Some(Verb::Head);
    }
    None
}
