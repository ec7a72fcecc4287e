// The word at an index of a container, and how many there are.
#![tactic(auto)]

ghost use Rattle.std.specs.Prelude.{◌≡◌};
ghost use Rattle.view.specs.Words.{fetched_outcome, word_outcome, open_count};

use bits::bytes::load64;
use container::format::format_of;
use container::header::{open, version_in};
use container::layout::{SHORTEST_HEADER, WORD_LENGTH};
use reasons::Reason;

// A container's bytes, and how many instructions they hold.
#[derive(Clone, Copy)]
pub struct View<'a> {
    pub bytes: &'a [u8],
    pub n: usize,
}

// The word at index i of the bytes of a container of n instructions. Their version says how long the header is.
pub fn word_in(bytes: &[u8], n: usize, i: usize) -> Result<u64, Reason>
    ensures { fetched_outcome result ≡ word_outcome bytes.now n i }
{
    if n <= i || bytes.len() < SHORTEST_HEADER {
        return Err(Reason::NoWord);
    }
    let f = format_of(version_in(bytes));
    let Some(after_first) = bytes.len().checked_sub(f.header + WORD_LENGTH) else {
        return Err(Reason::NoWord);
    };
    if after_first / WORD_LENGTH < i {
        return Err(Reason::NoWord);
    }
    let start = f.header + WORD_LENGTH * i;
    Ok(load64(&bytes[start..start + WORD_LENGTH]))
}

// How many instructions there are; none where the bytes do not open.
pub fn open_count(bytes: &[u8]) -> usize
    ensures { result ≡ open_count bytes.now }
{
    match open(bytes) {
        Ok(header) => header.count,
        Err(_) => 0,
    }
}

// The view of a container, with no instructions where it does not open.
pub fn view_of<'a>(bytes: &'a [u8]) -> View<'a>
    ensures { (result.bytes ≡ bytes.entry) × (result.n ≡ open_count bytes.now) }
{
    let n = open_count(bytes);
    View { bytes, n }
}

// The word at index i of a view, whoever made it.
pub fn word_at<'a>(view: View<'a>, i: usize) -> Result<u64, Reason>
    ensures { fetched_outcome result ≡ word_outcome view.entry.bytes.now view.entry.n i }
{
    word_in(view.bytes, view.n, i)
}

// The word at index i of a container.
pub fn word_of(bytes: &[u8], i: usize) -> Result<u64, Reason>
    ensures { fetched_outcome result ≡ word_outcome bytes.now (open_count bytes.now) i }
{
    word_at(view_of(bytes), i)
}
