ghost use Rattle.std.specs.Prelude.{◌≡◌, map, Ok, None, IfNone, IfOk, IfSome};
ghost use Rattle.std.specs.String.{string_bytes};
ghost use Rattle.sw_words.specs.Serve.{IsServe};
ghost use Rattle.sw_words.specs.declared.serve.ServeOptions.{ServeOptions};

use clap::{Arg, ArgAction, ArgMatches, Command};
use std::alloc::{AllocError, Global};
use sw_outside::NoMemory;
use sw_words::{ServeOptions, serve_options};

/// What the words of `serve` ask for, where they are its words: what `serve_options` says.
///
/// Want of memory is also answered where `clap` refuses words of `serve`, or reads another value; tests show that it does neither. For other words no
/// memory is wanted.
pub fn read_serve(alloc: Global, words: &[String]) -> Result<Option<ServeOptions>, NoMemory>
    ensures asked { IfOk result (λ read. IfSome read (IsServe (map string_bytes words.now))) }
    ensures refused { IfOk result (λ read. IfNone read ((options : ServeOptions) → ¬ IsServe (map string_bytes words.now) options)) }
    ensures at_once { ((options : ServeOptions) → ¬ IsServe (map string_bytes words.now) options) → result ≡ Ok None }
{
    match serve_options(words) {
        Some(options) if is_read(alloc, words, options)? => Ok(Some(options)),
        Some(_) => Err(NoMemory),
        None => Ok(None),
    }
}

/// Whether `clap` reads the ring and these options off the words.
fn is_read(alloc: Global, words: &[String], options: ServeOptions) -> Result<bool, NoMemory> {
    match command(alloc)?.try_get_matches_from(words) {
        Ok(matches) => Ok(
            is_ring(&matches, words)
                && is_value(&matches, "port", u32::from(options.port))
                && is_value(&matches, "workers", u32::from(options.workers))
                && is_value(&matches, "connections", options.connections)
                && is_value(&matches, "passes", options.passes),
        ),
        Err(_) => Ok(false),
    }
}

/// The command `serve`, as `clap` is told of it.
fn command<'a>(alloc: Global) -> Result<Command<'a>, AllocError> {
    let ring = Arg::new(alloc, "ring")
        .required(true)
        .action(ArgAction::Set);
    Command::new(alloc, "serve")
        .arg(ring)?
        .arg(option(alloc, "port"))?
        .arg(option(alloc, "workers"))?
        .arg(option(alloc, "connections"))?
        .arg(option(alloc, "passes"))
}

fn option<'a>(alloc: Global, name: &'a str) -> Arg<'a> {
    Arg::new(alloc, name)
        .long(name)
        .required(true)
        .action(ArgAction::Set)
}

/// Whether the ring is the word behind the command.
fn is_ring(matches: &ArgMatches, words: &[String]) -> bool {
    match words {
        [_, ring, ..] => matches.get_str("ring") == Some(ring.as_str()),
        _ => false,
    }
}

/// Whether the value of this option writes this number.
fn is_value(matches: &ArgMatches, name: &str, number: u32) -> bool {
    match matches.get_str(name) {
        Some(text) => text.parse::<u32>().ok() == Some(number),
        None => false,
    }
}
