// The indexes that branches lead to.
ghost use Rattle.std.specs.Prelude.{◌≡◌, ◌≤◌};
ghost use Rattle.container.specs.Formats.{most_instructions};
ghost use Rattle.reading.specs.Reader.{read_number};
ghost use Rattle.safety.specs.Program.{Worded};
ghost use Rattle.showlines.specs.Lines.{leads_in};
ghost use Rattle.showlines.specs.Served.Marks.{marked_at, marks_of};

use crate::line::number_at;
use container::layout::MOST_INSTRUCTIONS;
use reader::read_number;
use wordtext::column::{jumps, lands};

// Marks where the word w at index i of n branches to, if that is inside.
fn mark(marks: &mut [bool; MOST_INSTRUCTIONS], n: usize, i: usize, w: u64)
    requires { n ≤ most_instructions }
    ensures { marks.new ≡ marked_at marks.old n (leads_in n i (read_number w)) }
{
    let Ok(x) = read_number(w) else {
        return;
    };
    if !jumps(x) {
        return;
    }
    let j = lands(n, i, x);
    if j < n {
        marks[j] = true;
    }
}

// Whether a branch leads to an index, for each.
pub fn targets(words: &[u8], n: usize) -> [bool; MOST_INSTRUCTIONS]
    requires { Worded words.now n }
    ensures { result ≡ marks_of words.now n n }
{
    let mut marks = [false; MOST_INSTRUCTIONS];
    for i in 0..n {
        mark(&mut marks, n, i, number_at(words, n, i));
    }
    marks
}
