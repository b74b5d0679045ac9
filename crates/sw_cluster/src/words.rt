ghost use Rattle.std.specs.Prelude.{◌≡◌, map, IsSome};
ghost use Rattle.std.specs.Option.{option_copied};
ghost use Rattle.std.specs.String.{string_bytes};
ghost use Rattle.sw_cluster.specs.Words.{account_word, are_run_words, are_where_words, container_word, object_word, ring_word};

use sw_words::is_plain;

/// Whether the words of the command line are those of `run`: the command and a ring.
pub fn is_run(words: &[String]) -> bool
    ensures { result ≡ are_run_words (map string_bytes words.now) }
{
    match words {
        [command, ring] => command.as_str() == "run" && is_plain(ring),
        _ => false,
    }
}

/// Whether they are those of `where`: the command, a ring, an account, and maybe a container and then an object.
pub fn is_where(words: &[String]) -> bool
    ensures { result ≡ are_where_words (map string_bytes words.now) }
{
    match words {
        [command, ring, account] => command.as_str() == "where"
            && is_plain(ring)
            && is_plain(account),
        [command, ring, account, container] => command.as_str() == "where"
            && is_plain(ring)
            && is_plain(account)
            && is_plain(container),
        [command, ring, account, container, object] => {
            command.as_str() == "where"
                && is_plain(ring)
                && is_plain(account)
                && is_plain(container)
                && is_plain(object)
        }
        _ => false,
    }
}

/// The ring that the words of a command name.
pub fn ring_of(words: &[String]) -> &str
    ensures { result.now ≡ ring_word (map string_bytes words.now) }
{
    match words {
        [_, ring, ..] => ring.as_str(),
        _ => "",
    }
}

/// The account, and maybe the container and the object, that the words of `where` ask for.
pub fn names_of(words: &[String]) -> (&[u8], Option<&[u8]>, Option<&[u8]>)
    ensures account { result.0.now ≡ account_word (map string_bytes words.now) }
    ensures container { option_copied result.1 ≡ container_word (map string_bytes words.now) }
    ensures object { option_copied result.2 ≡ object_word (map string_bytes words.now) }
    ensures linked { IsSome result.2 → IsSome result.1 }
{
    match words {
        [_, _, account] => (account.as_bytes(), None, None),
        [_, _, account, container] => (account.as_bytes(), Some(container.as_bytes()), None),
        [_, _, account, container, object, ..] => (
            account.as_bytes(),
            Some(container.as_bytes()),
            Some(object.as_bytes()),
        ),
        _ => (b"", None, None),
    }
}
