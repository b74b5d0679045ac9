ghost use Rattle.std.specs.Prelude.{◌≡◌, ◌≤◌, ◌↔◌, map, IfNone, IfSome, IsTrue};
ghost use Rattle.std.specs.Option.{option_copied};
ghost use Rattle.std.specs.String.{string_bytes};
ghost use Rattle.sw_words.specs.Reading.{number_of as number_in, options_in as options_in_words, options_of as options_of_words, value_of as value_in};
ghost use Rattle.sw_words.specs.Serve.{IsOffered, IsServe};
ghost use Rattle.sw_words.specs.Words.{is_plain_word};
ghost use Rattle.sw_words.specs.declared.serve.ServeOptions.{ServeOptions};

use crate::number::number_within;

/// How connections are served.
#[derive(Clone, Copy, Debug, PartialEq, Eq)]
pub struct ServeOptions {
    /// The port that connections come to, 1 to 65,535.
    pub port: u16,
    /// How many threads serve them, 1 to 16.
    pub workers: u8,
    /// How many are served until the program ends, 1 to 65,536.
    pub connections: u32,
    /// How many passes of the daemons are made meanwhile, 0 to 65,536.
    pub passes: u32,
}

/// What the words of `serve` ask for, where they are its words.
///
/// These are `serve`, a ring, and then each of `--port`, `--workers`, `--connections` and `--passes` once, in any order, with its value behind it. The
/// ring begins with no `-`. A value is 1 to 20 decimal digits. Nothing else is taken, and of these words only what is offered so far.
pub fn serve_options(words: &[String]) -> Option<ServeOptions>
    ensures asked { IfSome result (IsServe (map string_bytes words.now)) }
    ensures refused { IfNone result ((options : ServeOptions) → ¬ IsServe (map string_bytes words.now) options) }
{
    match options_of(words) {
        Some(options) if is_offered(&options) => Some(options),
        _ => None,
    }
}

/// Whether the program offers this. Until connections are served by threads that is one worker and no passes. What it offers then is changed here alone,
/// and in `IsOffered`.
fn is_offered(options: &ServeOptions) -> bool
    ensures { IsTrue result ↔ IsOffered options.now }
{
    options.workers == 1 && options.passes == 0
}

/// What the words of `serve` write.
fn options_of(words: &[String]) -> Option<ServeOptions>
    ensures { result ≡ options_of_words (map string_bytes words.now) }
{
    match words {
        [command, ring, options @ ..]
            if command.as_str() == "serve" && is_plain(ring) && options.len() == 8 => {
            options_in(options)
        }
        _ => None,
    }
}

/// Whether a word names something: it begins with no `-`.
pub fn is_plain(word: &String) -> bool
    ensures { result ≡ is_plain_word (string_bytes word.now) }
{
    !word.as_bytes().starts_with(b"-")
}

/// The numbers behind the four names.
#[tactic(auto, unfolding(crate::specs::Reading::options_in))]
fn options_in(words: &[String]) -> Option<ServeOptions>
    ensures { result ≡ options_in_words (map string_bytes words.now) }
{
    let port = number_of(words, "--port", 1, 65_535)?;
    let workers = number_of(words, "--workers", 1, 16)?;
    let connections = number_of(words, "--connections", 1, 65_536)?;
    let passes = number_of(words, "--passes", 0, 65_536)?;
    Some(ServeOptions {
        port: port as u16,
        workers: workers as u8,
        connections,
        passes,
    })
}

/// The number that stands behind this name, where it is one of those from `least` to `greatest`.
fn number_of(words: &[String], name: &str, least: u32, greatest: u32) -> Option<u32>
    requires { greatest ≤ 65536 }
    ensures value { result ≡ number_in name.now least greatest (map string_bytes words.now) }
    ensures bound { IfSome result (λ number. number ≤ greatest) }
{
    number_within(value_of(words, name)?, least, greatest)
}

/// The word behind the first such name, where the words are names and values in turn.
#[tactic(auto, unfolding(crate::specs::Reading::value_of))]
fn value_of<'a>(words: &'a [String], wanted: &str) -> Option<&'a [u8]>
    ensures { option_copied result ≡ value_in wanted.now (map string_bytes words.now) }
{
    match words {
        [name, value, rest @ ..] => {
            if name.as_str() == wanted {
                Some(value.as_bytes())
            } else {
                value_of(rest, wanted)
            }
        }
        _ => None,
    }
}
