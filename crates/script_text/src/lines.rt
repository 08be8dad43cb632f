//! The lines of a script.

ghost use Rattle.std.specs.Prelude.{◌≡◌, ◌+◌, ◌≤◌, length};
ghost use Rattle.script_text.specs.ScriptLines.{is_skipped};
ghost use Rattle.apf_base.specs.Limits.{script_limit};

use plain_text::first_line;

/// Whether a line is empty or a comment.
fn is_skipped(line: &[u8]) -> bool
    ensures { result ≡ is_skipped line.now }
{
    line.is_empty() || line[0] == b'#'
}

/// The lines of a text that are left.
#[derive(Drop)]
pub(crate) struct Lines<'a> {
    /// The number of lines that were taken.
    pub(crate) number: u32,
    pub(crate) rest: &'a [u8],
    ghost few: { number + length rest.now ≤ script_limit },
}

impl<'a> Lines<'a> {
    ghost use Rattle.std.specs.Prelude.{IfNone, ◌≡◌, ◌+◌, ◌≤◌, length};
    ghost use Rattle.plain_text.specs.Lines.{lines_of};
    ghost use Rattle.script_text.specs.ScriptLines.{kept_lines};
    ghost use Rattle.script_text.specs.ScriptReading.{left, end_line, Gives};

    /// All lines of a text.
    pub(crate) fn new(text: &'a [u8]) -> Lines<'a>
        requires { length text.now ≤ script_limit }
        ensures all { left result ≡ kept_lines text.now }
        ensures end { end_line result ≡ length (lines_of text.now) + 1 }
    {
        Lines {
            number: 0,
            rest: text,
        }
    }

    /// The next line that isn't skipped. The number is then its number, and at the end the number of all lines.
    pub(crate) fn next_line(&mut self) -> Option<&'a [u8]>
        ensures line { Gives result (left self.old) self.new.number (left self.new) }
        ensures number { IfNone result (self.new.number + 1 ≡ end_line self.old) }
        ensures end { end_line self.new ≡ end_line self.old }
    {
        while !self.rest.is_empty() {
            let (line, rest) = first_line(self.rest);
            *self = Lines {
                number: self.number + 1,
                rest,
            };
            if !is_skipped(line) {
                return Some(line);
            }
        }
        None
    }
}
