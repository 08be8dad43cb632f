//! The command and its words, as a parse found them.

ghost use Rattle.std.specs.Prelude.{◌≡◌};
ghost use Rattle.std.specs.Option.{option_map};
ghost use Rattle.clap.specs.Words.{first_of, found_of, rows_of, subcommand_rows_of};
ghost use Rattle.command_line.specs.Shown.{further_shown, shown};
ghost use Rattle.command_line.specs.Parses.{further_in, line_in};

use clap::ArgMatches;

/// The names of the words that follow a command's name, by their place.
pub(crate) const PLACES: [&str; 4] = ["first", "second", "third", "fourth"];

/// The words that follow a command's name, in their order.
#[derive(Clone, Copy, Debug, PartialEq, Eq)]
pub enum Further<'a> {
    One(&'a str),
    Two(&'a str, &'a str),
    Three(&'a str, &'a str, &'a str),
    Four(&'a str, &'a str, &'a str, &'a str),
}

/// A command's name and the words that follow it.
#[derive(Clone, Copy, Debug, PartialEq, Eq)]
pub struct Split<'a> {
    pub name: &'a str,
    pub further: Further<'a>,
}

/// The word that was found for a positional argument.
fn word<'a>(found: &ArgMatches<'a>, id: &str) -> Option<&'a str>
    ensures { option_map (λ s. s.now) result ≡ first_of id.now (rows_of (found_of found.now)) }
{
    found.get_str(id)
}

/// The words that were found for a command, up to the first that wasn't.
fn further_in<'a>(found: &ArgMatches<'a>) -> Option<Further<'a>>
    ensures { option_map further_shown result ≡ further_in (rows_of (found_of found.now)) }
{
    let first = word(found, PLACES[0])?;
    let Some(second) = word(found, PLACES[1]) else {
        return Some(Further::One(first));
    };
    let Some(third) = word(found, PLACES[2]) else {
        return Some(Further::Two(first, second));
    };
    match word(found, PLACES[3]) {
        Some(fourth) => Some(Further::Four(first, second, third, fourth)),
        None => Some(Further::Three(first, second, third)),
    }
}

/// The command that was found below the top one, with its words.
pub(crate) fn line_in<'a>(matches: &ArgMatches<'a>) -> Option<Split<'a>>
    ensures { option_map shown result ≡ line_in (subcommand_rows_of matches.now) }
{
    let (name, found) = matches.subcommand()?;
    let further = further_in(found)?;
    Some(Split { name, further })
}
