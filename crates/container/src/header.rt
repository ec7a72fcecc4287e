ghost use Rattle.std.specs.Prelude.{◌≡◌, ◌+◌, ◌*◌, ◌<◌, ◌≤◌, length};
ghost use Rattle.bits.specs.Halves.{halves};
ghost use Rattle.container.specs.Formats.{shortest_header};
ghost use Rattle.container.specs.Container.{marked, number, version_of};
ghost use Rattle.container.specs.Opening.{opening_outcome, open_outcome};

use crate::format::{container_length, format_of, known};
use crate::layout::{ENTRY, FEWEST, SHORTEST_HEADER};
use bits::bytes::load64;
use bits::halves::Halves;
use reasons::Reason;

// The version, how many instructions there are, and the entry set: the halves of registers that are defined before the first.
#[derive(Clone, Copy, Debug, PartialEq, Eq)]
pub struct Header {
    pub version: u64,
    pub count: usize,
    pub entry: Halves,
}

// Whether the mark stands at the front.
fn has_mark(bytes: &[u8]) -> bool
    requires { shortest_header ≤ length bytes.now }
    ensures { result ≡ marked bytes.now }
{
    bytes.starts_with(b"VSP")
}

// The version that the bytes carry, whether there is such a version or not.
#[tactic(auto, using(crate::proofs::OpeningLaws::version_two))]
pub fn version_in(bytes: &[u8]) -> u64
    requires { shortest_header ≤ length bytes.now }
    ensures { result ≡ version_of bytes.now }
{
    u64::from(u16::from_le_bytes([bytes[3], bytes[4]]))
}

// The set of halves from `start` on, with that of the high halves `high` bytes after that of the low ones.
pub fn halves_in(bytes: &[u8], start: usize, high: usize) -> Halves
    requires { start + high + 8 ≤ length bytes.now }
    ensures { result ≡ halves (number bytes.now start 8) (number bytes.now (start + high) 8) }
{
    let high_start = start + high;
    Halves {
        low: load64(&bytes[start..start + 8]),
        high: load64(&bytes[high_start..high_start + 8]),
    }
}

// Opens a container. No word is looked at.
pub fn open(bytes: &[u8]) -> Result<Header, Reason>
    ensures { opening_outcome result ≡ open_outcome bytes.now }
{
    if bytes.len() < SHORTEST_HEADER {
        return Err(Reason::WrongLength);
    }
    if !has_mark(bytes) {
        return Err(Reason::WrongMark);
    }
    let version = version_in(bytes);
    if !known(version) {
        return Err(Reason::WrongVersion);
    }
    if bytes[5] != 0 {
        return Err(Reason::NotZero);
    }
    let count = usize::from(u16::from_le_bytes([bytes[6], bytes[7]]));
    if count < FEWEST {
        return Err(Reason::WrongLength);
    }
    let f = format_of(version);
    if f.most < count {
        return Err(Reason::WrongLength);
    }
    if bytes.len() != container_length(version, count) {
        return Err(Reason::WrongLength);
    }
    Ok(Header {
        version,
        count,
        entry: halves_in(bytes, ENTRY, f.high),
    })
}
