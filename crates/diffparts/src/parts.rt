// The numbers of a container that are compared: the version, words, the entry sets, annotations.
ghost use Rattle.std.specs.Prelude.{◌≡◌, ◌<◌};
ghost use Rattle.container.specs.Formats.{format_of};
ghost use Rattle.container.specs.Container.{version_of, count_of, entry_of};
ghost use Rattle.container.specs.Opening.{Opens};
ghost use Rattle.differences.specs.Sets.{note_of};
ghost use Rattle.differences.specs.Differences.{word_of};

use bits::bytes::load64;
use bits::halves::Halves;
use container::format::{Format, format_of};
use container::header::{halves_in, version_in};
use container::layout::{ENTRY, WORD_LENGTH};

// The version.
pub(crate) fn version(bytes: &[u8]) -> u64
    requires { Opens bytes.now }
    ensures { result ≡ version_of bytes.now }
{
    version_in(bytes)
}

// The format of the version.
fn format(bytes: &[u8]) -> Format
    requires { Opens bytes.now }
    ensures { result ≡ format_of (version_of bytes.now) }
{
    format_of(version(bytes))
}

// The word at index i.
#[tactic(auto, using(crate::proofs::PartLaws::word_here))]
pub fn word(bytes: &[u8], i: usize) -> u64
    requires { Opens bytes.now × (i < count_of bytes.now) }
    ensures { result ≡ word_of bytes.now i }
{
    let f = format(bytes);
    let start = f.header + WORD_LENGTH * i;
    let end = start + WORD_LENGTH;
    load64(&bytes[start..end])
}

// The annotation at index i of n.
#[tactic(auto, using(crate::proofs::PartLaws::note_here))]
pub(crate) fn note(bytes: &[u8], n: usize, i: usize) -> Halves
    requires { Opens bytes.now × (n ≡ count_of bytes.now) × (i < n) }
    ensures { result ≡ note_of bytes.now i }
{
    let f = format(bytes);
    let start = f.header + WORD_LENGTH * n + f.annotation * i;
    halves_in(bytes, start, f.high)
}

// The entry set.
#[tactic(auto, using(crate::proofs::PartLaws::entry_ends, crate::proofs::PartLaws::entry_here))]
pub(crate) fn entry(bytes: &[u8]) -> Halves
    requires { Opens bytes.now }
    ensures { result ≡ entry_of bytes.now }
{
    let f = format(bytes);
    halves_in(bytes, ENTRY, f.high)
}
