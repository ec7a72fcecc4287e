// The text of a line of a comparison, made in a buffer that the caller lends.
#![tactic(auto)]

ghost use Rattle.std.specs.Prelude.{◌≤◌, length};
ghost use Rattle.text.specs.Text.{Put};
ghost use Rattle.linetext.specs.Lines.{line_text, longest_text};

use crate::told::put_told;
use differences::line::Line;
use text::put::put_byte;

mod told;

// The most bytes that a line has.
pub const LONGEST: usize = told::LONGEST + 1;

// What is told, and a line feed.
fn put_line(line: Line, out: &mut [u8]) -> usize
    requires { longest_text ≤ length out.old }
    ensures { Put (line_text line) out.old out.new result }
{
    let names = rows::names::all();
    let at = put_told(&names, line, out);
    at + put_byte(b'\n', &mut out[at..])
}

// Puts the text of a line at the front of a buffer that has room for any, and answers how many bytes it has.
pub fn write_line(line: Line, out: &mut [u8; LONGEST]) -> usize
    ensures { Put (line_text line) out.old out.new result }
{
    put_line(line, out)
}
