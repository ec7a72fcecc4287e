// Packing (the paper's parcel, written): a version, an entry set, words and annotations put together into a lent buffer.
#![tactic(auto)]

ghost use Rattle.std.specs.Prelude.{◌≡◌, ◌+◌, length};
ghost use Rattle.container.specs.Formats.{header_length};
ghost use Rattle.packing.specs.Packing.{fitting, front_bytes, halves_bytes, container_bytes, packing_outcome, pack_outcome, pack_buffer};

use bits::bytes::store64;
use bits::halves::Halves;
use container::format::{container_length, format_of, known};
use container::layout::{ENTRY, FEWEST, WORD_LENGTH};
use reasons::Reason;

// Whether words and annotations of these lengths in bytes make a container of a version.
pub fn fit(version: u64, words: usize, annotations: usize) -> bool
    ensures { result ≡ fitting version words annotations }
{
    let f = format_of(version);
    let n = words / WORD_LENGTH;
    if n < FEWEST || f.most < n || words != WORD_LENGTH * n {
        return false;
    }
    annotations == f.annotation * n
}

// The mark, the version, the byte 0 and the count n.
fn front(version: u64, n: usize) -> [u8; 8]
    ensures { result ≡ front_bytes version n }
{
    let [version_low, version_high, ..] = version.to_le_bytes();
    let [low, high, ..] = n.to_le_bytes();
    [b'V', b'S', b'P', version_low, version_high, 0, low, high]
}

// Fills what a header of a version has for the entry set. Where it has no place for the high halves, the low ones stand for both.
fn fill_entry(version: u64, entry: Halves, out: &mut [u8])
    requires { 8 + length out.old ≡ header_length version }
    ensures { out.new ≡ halves_bytes version entry }
{
    let f = format_of(version);
    store64(entry.low, &mut out[0..8]);
    if f.high != 0 {
        store64(entry.high, &mut out[8..16]);
    }
}

// Fills a buffer with a container.
fn fill(version: u64, entry: Halves, words: &[u8], annotations: &[u8], out: &mut [u8])
    requires { length out.old ≡ header_length version + length words.now + length annotations.now }
    ensures { out.new ≡ container_bytes version entry words.now annotations.now }
{
    let f = format_of(version);
    let start = f.header;
    let first = front(version, words.len() / WORD_LENGTH);
    bits::bytes::copy(&first, out);
    fill_entry(version, entry, &mut out[ENTRY..start]);
    bits::bytes::copy(words, &mut out[start..]);
    let end = start + words.len();
    bits::bytes::copy(annotations, &mut out[end..]);
}

// Writes a container into a buffer of its length, or leaves the buffer as it is on a refusal.
pub fn pack(
    version: u64,
    entry: Halves,
    words: &[u8],
    annotations: &[u8],
    out: &mut [u8],
) -> Result<(), Reason>
    ensures answer { packing_outcome result ≡ pack_outcome version entry words.now annotations.now out.old }
    ensures buffer { out.new ≡ pack_buffer version entry words.now annotations.now out.old }
{
    if !known(version) {
        return Err(Reason::WrongVersion);
    }
    if !fit(version, words.len(), annotations.len()) {
        return Err(Reason::WrongLength);
    }
    let n = words.len() / WORD_LENGTH;
    if out.len() != container_length(version, n) {
        return Err(Reason::WrongLength);
    }
    fill(version, entry, words, annotations, out);
    Ok(())
}
