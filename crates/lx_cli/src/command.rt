//! What a command reads.
ghost use Rattle.std.specs.Prelude.{◌≡◌};
ghost use Rattle.lx_input.specs.Files.Asked.{asked_by};
ghost use Rattle.lx_cli.specs.Words.{said};
ghost use Rattle.lx_cli.specs.Command.{asked_of, case_of, count_asked};

use crate::Command;
use lx_input::Asked;

/// The name of the case that is generated, on a shelf of its own.
pub(crate) const GENERATED_CASE: &str = "generated.case";

/// The name of the case of a command.
pub(crate) fn case_of<'a>(command: Command<'a>) -> &'a str
    ensures { result.now ≡ case_of (said command.entry) }
{
    match command {
        Command::Run { case }
        | Command::Replay { case, .. }
        | Command::Instrument { case, .. }
        | Command::Check { case, .. }
        | Command::Surface { case }
        | Command::Why { case, .. } => case,
        Command::Generate { .. } => GENERATED_CASE,
    }
}

/// How many calls a command generates, where it generates some.
pub(crate) fn count_asked(command: Command<'_>) -> Option<u32>
    ensures { result ≡ count_asked (said command.entry) }
{
    match command {
        Command::Generate { count } => Some(count),
        _ => None,
    }
}

/// What a command asks for besides.
pub(crate) fn asked_of<'a>(command: Command<'a>) -> Asked<'a>
    ensures { asked_by result ≡ asked_of (said command.entry) }
{
    match command {
        Command::Run { .. } | Command::Generate { .. } | Command::Surface { .. } => Asked {
            module: None,
            schedule: None,
            image: None,
        },
        Command::Replay { schedule, .. } | Command::Why { schedule, .. } => Asked {
            module: None,
            schedule: Some(schedule),
            image: None,
        },
        Command::Instrument { part, .. } => Asked {
            module: Some(part),
            schedule: None,
            image: None,
        },
        Command::Check { part, image, .. } => Asked {
            module: Some(part),
            schedule: None,
            image: Some(image),
        },
    }
}
