//! The words of the command line.
ghost use Rattle.std.specs.Prelude.{◌≡◌, IfSome, map, string_bytes};
ghost use Rattle.std.specs.Str.{bytes_eq};
ghost use Rattle.fisb_app.specs.Command.{HasCount, command_named, make_of, single_command};

use script_core::read_number;

/// The most minutes of traffic.
const LAST_COUNT: u64 = 1000;

/// A command that the words of a command line name.
#[derive(Clone, Copy, Debug, PartialEq, Eq)]
pub enum Command {
    Link,
    Ground,
    Receive,
    Gdl,
    /// So many minutes of traffic from a seed.
    Make { count: u32, seed: u64 },
}

/// The command that the words name, if they name one.
pub(crate) fn command_of(words: &[String]) -> Option<Command>
    ensures named { result ≡ command_named (map string_bytes words.now) }
    ensures count { IfSome result HasCount }
{
    match words {
        [word] => single_command(word),
        [word, count, seed] if is_text(word, "make") => make_of(count, seed),
        _ => None,
    }
}

fn single_command(word: &String) -> Option<Command>
    ensures named { result ≡ single_command (string_bytes word.now) }
    ensures count { IfSome result HasCount }
{
    if is_text(word, "link") {
        Some(Command::Link)
    } else if is_text(word, "ground") {
        Some(Command::Ground)
    } else if is_text(word, "receive") {
        Some(Command::Receive)
    } else if is_text(word, "gdl") {
        Some(Command::Gdl)
    } else {
        None
    }
}

/// The command `make` with these two numbers.
fn make_of(count: &String, seed: &String) -> Option<Command>
    ensures named { result ≡ make_of (string_bytes count.now) (string_bytes seed.now) }
    ensures count { IfSome result HasCount }
{
    let Some(count) = read_number(count.as_bytes(), 1, LAST_COUNT) else {
        return None;
    };
    let Some(seed) = read_number(seed.as_bytes(), 0, u64::MAX) else {
        return None;
    };
    Some(Command::Make {
        count: count as u32,
        seed,
    })
}

fn is_text(word: &String, text: &str) -> bool
    ensures { result ≡ bytes_eq (string_bytes word.now) text.now }
{
    word.as_str() == text
}
