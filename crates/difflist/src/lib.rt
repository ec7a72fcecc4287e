// The comparison of two containers as a whole: the list of what differs, at once.
#![tactic(auto)]

ghost use Rattle.std.specs.Prelude.{◌≡◌};
ghost use Rattle.differences.specs.Answers.{listed_outcome, list_outcome, list_buffer};

use crate::list::put_lines;
use diff::both_read;
use differences::answer::Unread;
use differences::numbers::MOST_NUMBERS;
use view::open_count;

mod list;

// The whole list, three numbers for each line, at the front of a buffer that has room for any.
pub fn diff_lines<'a>(
    first: &'a [u8],
    second: &'a [u8],
    out: &mut [u64; MOST_NUMBERS],
) -> Result<usize, Unread>
    ensures answer { listed_outcome result ≡ list_outcome first.now second.now }
    ensures buffer { out.new ≡ list_buffer first.now second.now out.old }
{
    both_read(first, second)?;
    Ok(put_lines(first, open_count(first), second, open_count(second), out))
}
