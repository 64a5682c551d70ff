//! The words of a command, read.

ghost use Rattle.std.specs.Prelude.{◌≡◌, ℕ, map, string_bytes, decimal, IfSome, Some};
ghost use Rattle.command_words.specs.Commands.{Names, Chooses, IsMade, IsUsable, plain_command};

use crate::command::Command;
use crate::numbers::read_number;
use crate::settings::{KINDS, kind_of, read_setting, with_setting};

/// The command that the words name; `None` where they name none. The words are those after the
/// program's name.
pub fn read_words(words: &[String]) -> Option<Command>
    ensures named { IfSome result (Names (map string_bytes words.now)) }
    // So there is none exactly where no command is named.
    ensures complete { (command : Command) → Names (map string_bytes words.now) command → result ≡ Some command }
    ensures usable { IfSome result IsUsable }
{
    let (first, others) = words.split_first()?;
    match first.as_str() {
        "plan" => with_options(plain(None), others),
        "generate" => {
            let (number, options) = others.split_first()?;
            let number = read_made(number)?;
            with_options(plain(Some(number)), options)
        }
        _ => None,
    }
}

/// The number of a module that can be made.
fn read_made(word: &str) -> Option<u32>
    ensures spelled { IfSome result (λ n. (word.now ≡ decimal n) × IsMade n) }
    ensures complete { (n : ℕ) → IsMade n → word.now ≡ decimal n → result ≡ Some n }
{
    match read_number(word)? {
        number @ 1..=100_000 => Some(number as u32),
        _ => None,
    }
}

/// The command with the options, if each word is one and no two are of one kind.
fn with_options(plain: Command, words: &[String]) -> Option<Command>
    ensures chosen { IfSome result (Chooses (map string_bytes words.now) plain) }
    ensures complete { (command : Command) → Chooses (map string_bytes words.now) plain command → result ≡ Some command }
{
    let mut command = plain;
    let mut seen = [false; KINDS];
    for word in words {
        let setting = read_setting(word.as_str())?;
        let kind = kind_of(setting);
        if seen[kind] {
            return None;
        }
        seen[kind] = true;
        command = with_setting(command, setting);
    }
    Some(command)
}

fn plain(generate: Option<u32>) -> Command
    ensures { result ≡ plain_command generate }
{
    Command {
        generate,
        ..Command::PLAIN
    }
}
