// What `show` writes for a parcel: the parcel in a few lines, the program line by line, and the verdict in words, made in a buffer that the
// caller lends.
#![tactic(auto)]

ghost use Rattle.std.specs.Prelude.{◌≡◌, ◌≤◌, eqb, length};
ghost use Rattle.bits.specs.Fields.{choose};
ghost use Rattle.bits.specs.Outcomes.{gives};
ghost use Rattle.container.specs.Opening.{open_outcome};
ghost use Rattle.safety.specs.Verdict.{verdict_outcome};
ghost use Rattle.text.specs.Text.{Put};
ghost use Rattle.safety.specs.declared.verdict.Reported.TheVariants.{Neither};
ghost use Rattle.show.specs.Show.{head, told_of, shown_of, shown, longest_head, longest_shown};

use crate::program::put_program;
use bits::halves::Halves;
use container::header::{Header, open};
use container::layout::MOST_INSTRUCTIONS;
use container::parts::{annotations, words};
use registertext::put_registers;
use safety::verdict::{Finding, Reported, Verdict};
use text::put::{put_enclosed, put_text};
use verdicttext::words::{LONGEST_FAULT, put_verdict};

mod program;

// The most bytes that these have.
const HEAD: usize = 16 + 5 + 1 + 14 + 4 + 1 + 52 + registertext::LONGEST + 2;

const TITLE: usize = 25 + wordtext::column::LONGEST + 6 + 1;

// The most bytes that are shown.
pub const LONGEST: usize = HEAD
    + TITLE
    + (showlines::line::LONGEST + LONGEST_FAULT) * MOST_INSTRUCTIONS
    + 1
    + verdicttext::words::LONGEST;

// The version, the count of instructions, the entry set.
fn put_head(version: u64, n: usize, entry: Halves, out: &mut [u8]) -> usize
    requires { longest_head ≤ length out.old }
    ensures { Put (head version n entry) out.old out.new result × (result ≤ longest_head) }
{
    let claim = b"\nfilled before the start, by the parcel's own claim: ";
    let mut at = put_enclosed(b"parcel version: ", version, 5, b"\ninstructions: ", out);
    at += put_enclosed(b"", n as u64, 4, claim, &mut out[at..]);
    at += put_registers(entry, &mut out[at..]);
    at += put_text(b"\n\n", &mut out[at..]);
    at
}

// The half that is told of a version: none in version 1, whose sets stand for both.
fn half_told(version: u64, half: Reported) -> Reported
    ensures { result ≡ choose (eqb version 1) Neither half }
{
    if version == 1 {
        Reported::Neither
    } else {
        half
    }
}

// A verdict as it is told of a version.
fn told_of(version: u64, v: Verdict) -> Verdict
    ensures { verdict_outcome result ≡ told_of version (verdict_outcome v) }
{
    match v {
        Ok(()) => Ok(()),
        Err(f) => Err(Finding {
            half: half_told(version, f.half),
            ..f
        }),
    }
}

// A parcel that opens, with a verdict on it.
fn put_opened(bytes: &[u8], h: Header, v: Verdict, out: &mut [u8]) -> usize
    requires { (open_outcome bytes.now ≡ gives h) × (longest_shown ≤ length out.old) }
    ensures { Put (shown_of bytes.now (verdict_outcome v) (gives h)) out.old out.new result }
{
    let told = told_of(h.version, v);
    let mut at = put_head(h.version, h.count, h.entry, out);
    let notes = annotations(bytes);
    let code = words(bytes);
    at += put_program(h.version, code, notes, h.count, told, &mut out[at..]);
    at += put_verdict(told, &mut out[at..]);
    at
}

fn put_shown(bytes: &[u8], out: &mut [u8]) -> usize
    requires { longest_shown ≤ length out.old }
    ensures { Put (shown bytes.now) out.old out.new result }
{
    let v = verifier::verify(bytes);
    match open(bytes) {
        Ok(h) => put_opened(bytes, h, v, out),
        Err(_) => put_verdict(v, out),
    }
}

// Puts what is shown of a parcel at the front of a buffer that has room for any, and answers how many bytes it has.
pub fn write(bytes: &[u8], out: &mut [u8; LONGEST]) -> usize
    ensures { Put (shown bytes.now) out.old out.new result }
{
    put_shown(bytes, out)
}
