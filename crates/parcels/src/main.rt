// Opens some parcels, asks for their notes and words, and packs one again: a line for each answer. Words are asked for at indexes inside and
// outside, and with a count that is made up.
#![tactic(auto)]

ghost use Rattle.std.specs.Prelude.{◌≡◌, ◌<◌, length};

use bits::bytes::load64;
use bits::halves::{Halves, both};
use container::header::open;
use container::parts::annotations;
use packing::pack;
use reasons::Reason;
use std::io;
use view::{open_count, word_in, word_of};

// MOV.i32 r1, r2 and NOP with end; r2 and r40 are filled before them.
const GOOD: [u8; 48] =
    *b"VSP\x01\x00\x00\x02\x00\x04\x00\x00\x00\x00\x01\x00\x00\x02\x00\x00\x00\x00\xC1\x91\x00\x00\x00\x00\x00\x00\x00\x00\x78\x04\x00\x00\x00\x00\x00\x00\x00\x06\x00\x00\x00\x00\x01\x00\x00";

// The same in version 2, where r1 is half filled before them, by the low half, and r40 by the high one.
const HALVED: [u8; 72] =
    *b"VSP\x02\x00\x00\x02\x00\x06\x00\x00\x00\x00\x00\x00\x00\x04\x00\x00\x00\x00\x01\x00\x00\x02\x00\x00\x00\x00\xC1\x91\x00\x00\x00\x00\x00\x00\x00\x00\x78\x06\x00\x00\x00\x00\x00\x00\x00\x04\x00\x00\x00\x00\x00\x00\x00\x06\x00\x00\x00\x00\x00\x00\x00\x06\x00\x00\x00\x00\x01\x00\x00";

// How many instructions there are, and the entry set; of version 2 that of the low halves and that of the high ones.
fn say_opening(output: &impl Print, bytes: &[u8]) -> io::Result<()> {
    match open(bytes) {
        Ok(header) => {
            let count = header.count;
            let Halves { low, high } = header.entry;
            print!(output; "opened {count} {low:016x}")?;
            if header.version == 2 {
                print!(output; " {high:016x}")?;
            }
            println!(output)
        }
        Err(reason) => println!(output; "refused {}", reason.number()),
    }
}

// How many bytes there are, and each in two digits.
fn say_bytes(output: &impl Print, bytes: &[u8]) -> io::Result<()> {
    print!(output; "{}", bytes.len())?;
    for byte in bytes {
        print!(output; " {byte:02x}")?;
    }
    println!(output)
}

fn say_fetched(output: &impl Print, fetched: Result<u64, Reason>) -> io::Result<()> {
    match fetched {
        Ok(word) => println!(output; "{word:016x}"),
        Err(reason) => println!(output; "refused {}", reason.number()),
    }
}

// The word at an index of a parcel.
fn asks(output: &impl Print, bytes: &[u8], i: usize) -> io::Result<()> {
    print!(output; "  word {i} ")?;
    say_fetched(output, word_of(bytes, i))
}

// The word at an index of a parcel that is said to have n instructions.
fn asks_of(output: &impl Print, bytes: &[u8], n: usize, i: usize) -> io::Result<()> {
    print!(output; "  of {n}, word {i} ")?;
    say_fetched(output, word_in(bytes, n, i))
}

// The bytes of the notes' part, and the words at 0, at the last index and after it, and at the largest number.
fn says(output: &impl Print, bytes: &[u8]) -> io::Result<()> {
    say_opening(output, bytes)?;
    print!(output; "  notes ")?;
    say_bytes(output, annotations(bytes))?;
    let n = open_count(bytes);
    asks(output, bytes, 0)?;
    if 0 < n {
        asks(output, bytes, n - 1)?;
    }
    asks(output, bytes, n)?;
    asks(output, bytes, usize::MAX)
}

// With a count that is made up: more than there are, none, and the largest number.
fn makes_up(output: &impl Print, bytes: &[u8]) -> io::Result<()> {
    let asked = [
        (0, 0),
        (1, 0),
        (5, 2),
        (5, 3),
        (5, 4),
        (usize::MAX, 4),
        (usize::MAX, 1 << 61),
        (usize::MAX, usize::MAX - 1),
        (usize::MAX, usize::MAX),
    ];
    for (n, i) in asked {
        asks_of(output, bytes, n, i)?;
    }
    Ok(())
}

// Packs a parcel into a buffer; then the buffer's bytes.
fn packs(
    output: &impl Print,
    version: u64,
    entry: Halves,
    words: &[u8],
    notes: &[u8],
    out: &mut [u8],
) -> io::Result<()> {
    match pack(version, entry, words, notes, out) {
        Ok(()) => println!(output; "packed")?,
        Err(reason) => println!(output; "refused {}", reason.number())?,
    }
    print!(output; "  buffer ")?;
    say_bytes(output, out)
}

// Packs the parts of a parcel of two instructions, after a part or the buffer had a wrong length. The middle of the notes is where half of
// them ends.
fn packs_parts(
    output: &impl Print,
    version: u64,
    entry: Halves,
    words: &[u8],
    notes: &[u8],
    out: &mut [u8],
) -> io::Result<()>
    requires { (length words.now ≡ 16) × (0 < length out.old) }
{
    let half = notes.len() / 2;
    let less = out.len() - 1;
    packs(output, version, entry, &words[..15], notes, out)?;
    packs(output, version, entry, words, &notes[..half], out)?;
    packs(output, version, entry, words, notes, &mut out[..less])?;
    packs(output, version, entry, words, notes, out)
}

// Takes a parcel of version 1 and one of version 2 apart, and packs it again.
fn packs_first(output: &impl Print, parcel: &[u8; 48]) -> io::Result<()> {
    let entry = both(load64(&parcel[8..16]));
    let mut out = [255; 48];
    packs_parts(output, 1, entry, &parcel[16..32], &parcel[32..], &mut out)
}

fn packs_second(output: &impl Print, parcel: &[u8; 72]) -> io::Result<()> {
    let low = load64(&parcel[8..16]);
    let high = load64(&parcel[16..24]);
    let entry = Halves { low, high };
    let mut out = [255; 72];
    packs_parts(output, 2, entry, &parcel[24..40], &parcel[40..], &mut out)
}

fn first_version(output: &impl Print) -> io::Result<()> {
    let mut parcel = GOOD;
    says(output, &parcel)?;
    makes_up(output, &parcel)?;
    says(output, &parcel[..47])?;
    says(output, &parcel[..15])?;
    makes_up(output, &parcel[..23])?;
    makes_up(output, &parcel[..0])?;
    packs_first(output, &parcel)?;
    parcel[5] = 1;
    says(output, &parcel)
}

// In the end of a version that there is not.
fn second_version(output: &impl Print) -> io::Result<()> {
    let mut parcel = HALVED;
    says(output, &parcel)?;
    makes_up(output, &parcel[..56])?;
    says(output, &parcel[..71])?;
    says(output, &parcel[..48])?;
    says(output, &parcel[..23])?;
    makes_up(output, &parcel[..31])?;
    packs_second(output, &parcel)?;
    parcel[3] = 3;
    says(output, &parcel)?;
    makes_up(output, &parcel[..56])
}

fn examples(output: &impl Print) -> io::Result<()> {
    first_version(output)?;
    second_version(output)
}

fn main(rt: HostRuntime) {
    // The status is 0 also where the output cannot be written.
    let _ = examples(&rt.stdout());
}
