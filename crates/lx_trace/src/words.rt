//! The words of the program.
ghost use Rattle.std.specs.Prelude.{◌≡◌, option_map};
ghost use Rattle.lx_cli.specs.Words.{is_name, texts};
ghost use Rattle.lx_trace.specs.Traced.{asked_trace, traced_by};

/// What is traced: a case, and the schedule of its run where that is named, by the names of their files.
#[derive(Clone, Copy)]
pub(crate) struct Named<'a> {
    pub(crate) case: &'a str,
    pub(crate) schedule: Option<&'a str>,
}

/// A word that is no option.
fn is_name(word: &str) -> bool
    ensures { result ≡ is_name word.now }
{
    word.as_bytes().first() != Some(&b'-')
}

/// The case that the words name, and the schedule where they name one; none, where they are no such words.
pub(crate) fn named_by<'a>(words: &'a [String]) -> Option<Named<'a>>
    ensures { option_map traced_by result ≡ asked_trace (texts words.entry.now) }
{
    match words {
        [case] if is_name(case.as_str()) => Some(Named {
            case: case.as_str(),
            schedule: None,
        }),
        [case, schedule] if is_name(case.as_str()) && is_name(schedule.as_str()) => Some(Named {
            case: case.as_str(),
            schedule: Some(schedule.as_str()),
        }),
        _ => None,
    }
}
