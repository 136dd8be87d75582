//! The command that the words say.
ghost use Rattle.std.specs.Prelude.{◌≡◌, true, IfOk, option_map, string_bytes};
ghost use Rattle.std.specs.List.{list_all};
ghost use Rattle.clap.specs.Words.{found_of, rows_of, first_of, subcommand_rows_of};
ghost use Rattle.lx_cli.specs.Words.{command_of, is_name, said, texts};
ghost use Rattle.lx_cli.specs.Matched.{command_by, command_found};

use crate::count::count_of;
use crate::plain::plain_command_of;
use crate::tree::tree;
use clap::ArgMatches;
use clap::error::ErrorKind;
use lx_words::Memory;
use std::alloc::Global;

/// A command: it names its case, and a schedule and an image by their files, and a module by its name in the case; or it says how
/// many calls a case is to have that is generated.
#[derive(Clone, Copy)]
pub enum Command<'a> {
    /// Runs the case.
    Run {
        case: &'a str,
    },
    /// Runs the case under the schedule.
    Replay {
        case: &'a str,
        schedule: &'a str,
    },
    /// Writes the image of the module.
    Instrument {
        case: &'a str,
        part: &'a str,
    },
    /// Says whether a text is an image of some program.
    Check {
        case: &'a str,
        part: &'a str,
        image: &'a str,
    },
    /// Runs a case of so many calls that it generates, and writes a summary.
    Generate {
        count: u32,
    },
    /// Writes what each module of the case can come to hold, and runs nothing.
    Surface {
        case: &'a str,
    },
    /// Runs the case under the schedule, and writes why each need was met or was not.
    Why {
        case: &'a str,
        schedule: &'a str,
    },
}

/// A word that is no option.
pub(crate) fn is_name(word: &str) -> bool
    ensures { result ≡ is_name word.now }
{
    word.as_bytes().first() != Some(&b'-')
}

/// Whether no word is an option.
fn are_names(words: &[String]) -> bool
    ensures { result ≡ list_all (λ word. is_name (string_bytes word)) words.now }
{
    words.iter().all(|word| is_name(word.as_str()))
}

/// The word that was found under this name.
fn word_of<'a>(found: &ArgMatches<'a>, name: &str) -> Option<&'a str>
    ensures { option_map (λ word. word.now) result ≡ first_of name.now (rows_of (found_of found.now)) }
{
    found.get_str(name)
}

/// The command of this name, with the words that were found for it.
fn command_by<'a>(name: &str, found: &ArgMatches<'a>) -> Option<Command<'a>>
    ensures { option_map said result ≡ command_by name.now (rows_of (found_of found.now)) }
{
    match name {
        "run" => {
            let case = word_of(found, "case")?;
            Some(Command::Run { case })
        }
        "replay" => {
            let case = word_of(found, "case")?;
            let schedule = word_of(found, "schedule")?;
            Some(Command::Replay { case, schedule })
        }
        "instrument" => {
            let case = word_of(found, "case")?;
            let part = word_of(found, "module")?;
            Some(Command::Instrument { case, part })
        }
        "check" => {
            let case = word_of(found, "case")?;
            let part = word_of(found, "module")?;
            let image = word_of(found, "image")?;
            Some(Command::Check { case, part, image })
        }
        "generate" => {
            let word = word_of(found, "count")?;
            let count = count_of(word.as_bytes())?;
            Some(Command::Generate { count })
        }
        "surface" => {
            let case = word_of(found, "case")?;
            Some(Command::Surface { case })
        }
        "why" => {
            let case = word_of(found, "case")?;
            let schedule = word_of(found, "schedule")?;
            Some(Command::Why { case, schedule })
        }
        _ => None,
    }
}

/// The command of what was found, if anything was.
fn command_found<'a>(matches: &ArgMatches<'a>) -> Option<Command<'a>>
    ensures { option_map said result ≡ command_found (subcommand_rows_of matches.now) }
{
    let (name, found) = matches.subcommand()?;
    command_by(name, found)
}

/// The command of words of which none is an option, as `clap` reads them. An error of its own is shown nowhere: such words are no
/// command.
fn read<'a>(alloc: Global, words: &'a [String]) -> Result<Option<Command<'a>>, Memory>
    requires { list_all is_name (texts words.now) ≡ true }
    ensures { IfOk result (λ c. option_map said c ≡ command_of (texts words.entry.now)) }
{
    let tree = tree(alloc)?;
    match tree.try_get_matches_from(words) {
        Ok(matches) => Ok(command_found(&matches)),
        Err(error) => match error.kind() {
            ErrorKind::OutOfMemory => Err(Memory),
            _ => Ok(None),
        },
    }
}

/// The command of the words `run CASE`, `replay CASE SCHEDULE`, `instrument CASE MODULE`, `check CASE MODULE IMAGE`, `generate N`,
/// `surface CASE` and `why CASE SCHEDULE`, where no word begins with `-`. Whether words are a command must not hang on memory: where `clap` lacks it, they are read without.
pub fn command_of<'a>(alloc: Global, words: &'a [String]) -> Option<Command<'a>>
    ensures { option_map said result ≡ command_of (texts words.entry.now) }
{
    if !are_names(words) {
        return None;
    }
    match read(alloc, words) {
        Ok(command) => command,
        Err(_) => plain_command_of(words),
    }
}
