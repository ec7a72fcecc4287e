// A line as three numbers.
ghost use Rattle.std.specs.Prelude.{◌≡◌, ◌<◌};
ghost use Rattle.container.specs.Formats.{most_instructions};
ghost use Rattle.differences.specs.Numbers.{what_number, line_numbers};

use crate::line::{FIELDS, Line, What};
use container::layout::MOST_INSTRUCTIONS;

// No list has more lines: all fields of all instructions and two sets of all annotations, two entry sets, and the versions.
pub const MOST_LINES: usize = (FIELDS + 2) * MOST_INSTRUCTIONS + 2 + 1;

// How many numbers these are.
pub const MOST_NUMBERS: usize = 3 * MOST_LINES;

// What differs, as a number, with the source, the modifier or the set at bit 8.
fn what_number(what: What) -> u64
    ensures { (result ≡ what_number what) × (result < 65536) }
{
    match what {
        What::Row => 0,
        What::Page => 1,
        What::Flow => 2,
        What::Destination => 3,
        What::Source(k) => 4 + 256 * u64::from(k),
        What::Modifier(p) => 5 + 256 * u64::from(p),
        What::Added => 6,
        What::Removed => 7,
        What::Entry(k) => 8 + 256 * u64::from(k),
        What::Annotation(k) => 9 + 256 * u64::from(k),
        What::Version => 10,
    }
}

// The numbers of a line.
pub fn line_numbers(line: Line) -> [u64; 3]
    requires { line.index < most_instructions }
    ensures { result ≡ line_numbers line }
{
    let head = what_number(line.what) + 65536 * line.index as u64;
    [head, line.first, line.second]
}
