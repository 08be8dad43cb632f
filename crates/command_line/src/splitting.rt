//! From words to a command.

ghost use Rattle.std.specs.Prelude.{◌≡◌, IfOk};
ghost use Rattle.std.specs.List.{list_all};
ghost use Rattle.std.specs.Option.{option_map};
ghost use Rattle.command_line.specs.Lines.{texts, is_plain, split_of};
ghost use Rattle.command_line.specs.Shown.{shown};

use crate::commands::commands;
use crate::values::{Split, line_in};
use apf_base::OutOfMemory;
use clap::error::ErrorKind;
use std::alloc::Global;

/// The word isn't empty and doesn't begin with a dash, so clap takes it for no flag.
fn is_plain(word: &str) -> bool
    ensures { result ≡ is_plain word.now }
{
    match word.as_bytes() {
        [first, ..] => *first != b'-',
        [] => false,
    }
}

fn all_plain(words: &[String]) -> bool
    ensures { result ≡ list_all is_plain (texts words.now) }
{
    words.iter().all(|word| is_plain(word.as_str()))
}

/// The command that the words name, and its further words: None unless the first word is a command's name, the number
/// of further words is right, and none of them is empty or begins with a dash.
pub fn split<'a>(alloc: Global, words: &'a [String]) -> Result<Option<Split<'a>>, OutOfMemory>
    ensures { IfOk result (λ split. option_map shown split ≡ split_of (texts words.now)) }
{
    if !all_plain(words) {
        return Ok(None);
    }
    let command = commands(alloc)?;
    match command.try_get_matches_from(words) {
        Ok(matches) => Ok(line_in(&matches)),
        Err(error) => {
            if error.kind() == ErrorKind::OutOfMemory {
                return Err(OutOfMemory);
            }
            Ok(None)
        }
    }
}
