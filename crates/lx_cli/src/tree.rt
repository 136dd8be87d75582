//! The commands as `clap` knows them.
ghost use Rattle.std.specs.Prelude.{◌≡◌, IfOk, false};
ghost use Rattle.clap.specs.Words.{app_of, rule_of};
ghost use Rattle.lx_cli.specs.Tree.{IsLeaf, one_word, three_words, top_app, tree_app, two_words, word_rule};

use clap::Arg;
use std::alloc::{AllocError, Global};

/// A word that has to be there.
fn word<'a>(alloc: Global, name: &'a str) -> Arg<'a>
    ensures rule { rule_of result ≡ word_rule name.entry.now }
    ensures local { result.global ≡ false }
{
    Arg::new(alloc, name).required(true)
}

/// A command with one word behind its name.
fn with_one<'a>(
    alloc: Global,
    name: &'a str,
    first: &'a str,
) -> Result<clap::Command<'a>, AllocError>
    ensures { IfOk result (IsLeaf (one_word name.entry.now first.entry.now)) }
{
    clap::Command::new(alloc, name).arg(word(alloc, first))
}

/// With two words.
fn with_two<'a>(
    alloc: Global,
    name: &'a str,
    first: &'a str,
    second: &'a str,
) -> Result<clap::Command<'a>, AllocError>
    ensures { IfOk result (IsLeaf (two_words name.entry.now first.entry.now second.entry.now)) }
{
    with_one(alloc, name, first)?.arg(word(alloc, second))
}

/// And with three.
fn with_three<'a>(
    alloc: Global,
    name: &'a str,
    first: &'a str,
    second: &'a str,
    third: &'a str,
) -> Result<clap::Command<'a>, AllocError>
    ensures { IfOk result (IsLeaf (three_words name.entry.now first.entry.now second.entry.now third.entry.now)) }
{
    with_two(alloc, name, first, second)?.arg(word(alloc, third))
}

/// The program without its commands: it has no word of its own, and `clap` adds no help and no version.
fn top<'a>(alloc: Global) -> clap::Command<'a>
    ensures { app_of result ≡ top_app }
{
    clap::Command::new(alloc, "lxfi")
        .no_binary_name(true)
        .disable_help_flag(true)
        .disable_help_subcommand(true)
        .disable_version_flag(true)
        .subcommand_required(true)
}

/// The program and its seven commands.
pub(crate) fn tree<'a>(alloc: Global) -> Result<clap::Command<'a>, AllocError>
    ensures { IfOk result (λ c. app_of c ≡ tree_app) }
{
    top(alloc)
        .subcommand(with_one(alloc, "run", "case")?)?
        .subcommand(with_two(alloc, "replay", "case", "schedule")?)?
        .subcommand(with_two(alloc, "instrument", "case", "module")?)?
        .subcommand(with_three(alloc, "check", "case", "module", "image")?)?
        .subcommand(with_one(alloc, "generate", "count")?)?
        .subcommand(with_one(alloc, "surface", "case")?)?
        .subcommand(with_two(alloc, "why", "case", "schedule")?)
}
