//! The commands, as the parser of command lines is told them.

ghost use Rattle.std.specs.Prelude.{◌≡◌, IfOk, false, fold, map, take};
ghost use Rattle.clap.specs.Words.{app_of, rule_of};
ghost use Rattle.clap.specs.Walk.{texts};
ghost use Rattle.clap.specs.declared.builder.command.Command.TheViews.{out-Command as fields_of};
ghost use Rattle.command_line.specs.Commands.{leaf_app, usage_of};
ghost use Rattle.command_line.specs.Parses.{positional, places, top, with_usage, commands};

use crate::values::PLACES;
use clap::{Arg, Command};
use std::alloc::{AllocError, Global};

/// A command's name, and how many words follow it.
#[derive(Clone, Copy)]
struct Usage<'a> {
    name: &'a str,
    words: usize,
}

/// The commands.
#[rattlefmt::skip]
const USAGES: &[Usage<'static>] = &[
    Usage { name: "exec", words: 3 },
    Usage { name: "asm", words: 1 },
    Usage { name: "disasm", words: 1 },
    Usage { name: "program", words: 4 },
    Usage { name: "filter", words: 2 },
    Usage { name: "make", words: 2 },
    Usage { name: "live", words: 3 },
];

/// A word that has to stand in its place.
fn positional<'a>(alloc: Global, id: &'a str) -> Arg<'a>
    ensures rule { rule_of result ≡ positional id.entry.now }
    ensures local { result.global ≡ false }
{
    Arg::new(alloc, id).required(true)
}

/// The names of so many words, of all of them at most.
fn places(words: usize) -> &'static [&'static str]
    ensures { texts result.now ≡ take words places }
{
    PLACES.split_at(words.min(PLACES.len())).0
}

/// A command of these positional arguments.
fn leaf<'a>(alloc: Global, name: &'a str, ids: &[&'a str]) -> Result<Command<'a>, AllocError>
    ensures app { IfOk result (λ c. app_of c ≡ leaf_app name.entry.now (texts ids.now)) }
    ensures local { IfOk result (λ c. (fields_of c).has_globals ≡ false) }
{
    let mut command = Command::new(alloc, name);
    for id in ids {
        command = command.arg(positional(alloc, *id))?;
    }
    Ok(command)
}

/// The command above the others: it has no options, and one of the others has to follow.
fn top<'a>(alloc: Global) -> Command<'a>
    ensures { app_of result ≡ top }
{
    Command::new(alloc, "apf_run")
        .no_binary_name(true)
        .disable_help_flag(true)
        .disable_help_subcommand(true)
        .disable_version_flag(true)
        .subcommand_required(true)
}

/// One more command.
fn with_usage<'a>(
    alloc: Global,
    command: Command<'a>,
    usage: &Usage<'a>,
) -> Result<Command<'a>, AllocError>
    ensures { IfOk result (λ c. app_of c ≡ with_usage (app_of command.entry) (usage_of usage.now)) }
{
    let below = leaf(alloc, usage.name, places(usage.words))?;
    command.subcommand(below)
}

/// The top command with these below it.
fn with_usages<'a>(alloc: Global, usages: &[Usage<'a>]) -> Result<Command<'a>, AllocError>
    ensures { IfOk result (λ c. app_of c ≡ fold with_usage top (map usage_of usages.now)) }
{
    let mut command = top(alloc);
    for usage in usages {
        command = with_usage(alloc, command, usage)?;
    }
    Ok(command)
}

/// The commands of the table.
pub(crate) fn commands<'a>(alloc: Global) -> Result<Command<'a>, AllocError>
    ensures { IfOk result (λ c. app_of c ≡ commands) }
{
    with_usages(alloc, USAGES)
}
