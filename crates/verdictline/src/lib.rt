// The line of a verdict, as the lister writes it (01, The lister), made in a buffer that the caller lends.
#![tactic(auto)]

ghost use Rattle.std.specs.Prelude.{◌≡◌, [], ◌∷◌, ◌++◌, ◌≤◌, length};
ghost use Rattle.bits.specs.Outcomes.{refuses};
ghost use Rattle.safety.specs.Verdict.{verdict_outcome};
ghost use Rattle.text.specs.Text.{line_feed, Put};
ghost use Rattle.verdictline.specs.VerdictLine.{lists, half_letter, place_field, verdict_line, longest_verdict};

use reasons::Reason;
use safety::verdict::{Finding, Reported, Verdict};
use text::put::{put_byte, put_spaced, put_text};

// The most bytes that the line of a verdict has.
pub const LONGEST_VERDICT: usize = 7 + 1 + 2 + 1 + 4 + 1 + 2 + 1 + 1 + 2 + 1;

// The lowest number of a refusal that comes after all words were read.
const WORDS_READ: u8 = Reason::ReadMissing as u8;

// The numbers of the refusals of a word that does not read.
const FIRST_OF_READING: u8 = Reason::NoRow as u8;

const LAST_OF_READING: u8 = Reason::IllegalSource as u8;

// Whether a verdict comes after all words were read.
#[tactic(auto, unfolding(crate::specs::VerdictLine::lists))]
pub fn all_read(v: Verdict) -> bool
    ensures { result ≡ lists (verdict_outcome v) }
{
    match v {
        Ok(()) => true,
        Err(f) => WORDS_READ <= f.number,
    }
}

// The place, of a word that does not read.
fn put_place(f: Finding, out: &mut [u8]) -> usize
    requires { 3 ≤ length out.old }
    ensures { Put (place_field f) out.old out.new result × (result ≤ 3) }
{
    if f.number < FIRST_OF_READING || LAST_OF_READING < f.number {
        return 0;
    }
    put_spaced(f.place as u64, 10, 2, out)
}

// The end of a refusal's line: the place where there is that field, and the line feed.
fn put_end(f: Finding, out: &mut [u8]) -> usize
    requires { 4 ≤ length out.old }
    ensures { Put (place_field f ++ (line_feed ∷ [])) out.old out.new result × (result ≤ 4) }
{
    let at = put_place(f, out);
    at + put_byte(b'\n', &mut out[at..])
}

// The letter of a half, if there is one.
#[tactic(auto, unfolding(crate::specs::VerdictLine::half_letter, rows::specs::Names::ascii))]
pub fn put_letter(half: Reported, out: &mut [u8]) -> usize
    requires { 1 ≤ length out.old }
    ensures { Put (half_letter half) out.old out.new result × (result ≤ 1) }
{
    match half {
        Reported::Neither => 0,
        Reported::Low => put_byte(b'L', out),
        Reported::High => put_byte(b'H', out),
    }
}

// Number, index, register with its half, and what ends the line.
fn put_finding(f: Finding, out: &mut [u8]) -> usize
    requires { longest_verdict ≤ length out.old }
    ensures { Put (verdict_line (refuses f)) out.old out.new result × (result ≤ longest_verdict) }
{
    let mut at = put_text(b"REFUSED", out);
    at += put_spaced(f.number as u64, 10, 2, &mut out[at..]);
    at += put_spaced(f.index as u64, 10, 4, &mut out[at..]);
    at += put_spaced(f.register as u64, 10, 2, &mut out[at..]);
    at += put_letter(f.half, &mut out[at..]);
    at += put_end(f, &mut out[at..]);
    at
}

// The line of a verdict.
#[tactic(auto, unfolding(crate::specs::VerdictLine::verdict_line, rows::specs::Names::ascii))]
pub fn put_verdict(v: Verdict, out: &mut [u8]) -> usize
    requires { longest_verdict ≤ length out.old }
    ensures { Put (verdict_line (verdict_outcome v)) out.old out.new result × (result ≤ longest_verdict) }
{
    match v {
        Ok(()) => put_text(b"ACCEPTED\n", out),
        Err(f) => put_finding(f, out),
    }
}

// Puts the line of a verdict at the front of a buffer that has room for any, and answers how many bytes it has.
pub fn write_verdict(v: Verdict, out: &mut [u8; LONGEST_VERDICT]) -> usize
    ensures { Put (verdict_line (verdict_outcome v)) out.old out.new result }
{
    put_verdict(v, out)
}
