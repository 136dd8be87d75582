//! The command that the words say, read without memory.
ghost use Rattle.std.specs.Prelude.{◌≡◌, option_map};
ghost use Rattle.lx_cli.specs.Words.{command_of, one_name, said, texts, two_names};

use crate::count::count_of;
use crate::words::{Command, is_name};

/// The command of this word with one more.
fn one_name<'a>(word: &str, second: &'a str) -> Option<Command<'a>>
    ensures { option_map said result ≡ one_name word.now second.now }
{
    match word {
        "run" => {
            if is_name(second) {
                Some(Command::Run { case: second })
            } else {
                None
            }
        }
        "generate" => {
            let count = count_of(second.as_bytes())?;
            Some(Command::Generate { count })
        }
        "surface" => {
            if is_name(second) {
                Some(Command::Surface { case: second })
            } else {
                None
            }
        }
        _ => None,
    }
}

/// The command of this word with two names.
fn two_names<'a>(word: &str, case: &'a str, second: &'a str) -> Option<Command<'a>>
    ensures { option_map said result ≡ two_names word.now case.now second.now }
{
    match word {
        "replay" => Some(Command::Replay {
            case,
            schedule: second,
        }),
        "instrument" => Some(Command::Instrument { case, part: second }),
        "why" => Some(Command::Why {
            case,
            schedule: second,
        }),
        _ => None,
    }
}

/// The command of the words, by their number and their first.
pub(crate) fn plain_command_of(words: &[String]) -> Option<Command<'_>>
    ensures { option_map said result ≡ command_of (texts words.now) }
{
    match words {
        [word, second] => one_name(word.as_str(), second.as_str()),
        [word, case, second] if is_name(case.as_str()) && is_name(second.as_str()) => {
            two_names(word.as_str(), case.as_str(), second.as_str())
        }
        [word, case, part, image]
            if word.as_str() == "check"
                && (is_name(case.as_str())
                    && (is_name(part.as_str()) && is_name(image.as_str()))) => {
            Some(Command::Check {
                case: case.as_str(),
                part: part.as_str(),
                image: image.as_str(),
            })
        }
        _ => None,
    }
}
