// A verdict in words.
ghost use Rattle.std.specs.Prelude.{◌≡◌, ◌++◌, ◌+◌, ◌≤◌, length};
ghost use Rattle.bits.specs.Outcomes.{refuses};
ghost use Rattle.safety.specs.Verdict.{verdict_outcome};
ghost use Rattle.text.specs.Text.{number_text, Put};
ghost use Rattle.verdictline.specs.VerdictLine.{half_letter};
ghost use Rattle.verdicttext.specs.Words.{why_text, fault_line, fault_index, instruction_fault, refusal_text, verdict_text, longest_why, longest_fault, longest_refusal, longest_verdict};

use reasons::Reason;
use safety::verdict::{Finding, Verdict};
use text::put::{put_byte, put_enclosed, put_labelled, put_spaces, put_text};
use verdictline::put_letter;

// The numbers of the refusals, by reason.
const WRONG_MARK: u8 = Reason::WrongMark as u8;

const WRONG_VERSION: u8 = Reason::WrongVersion as u8;

const WRONG_LENGTH: u8 = Reason::WrongLength as u8;

const WRONG_ZERO: u8 = Reason::NotZero as u8;

const READ_MISSING: u8 = Reason::ReadMissing as u8;

const SUCCESSOR_OUTSIDE: u8 = Reason::SuccessorOutside as u8;

const SUCCESSOR_MISSING: u8 = Reason::SuccessorMissing as u8;

const ENTRY_MISSING: u8 = Reason::EntryMissing as u8;

// The most bytes that these have.
const WHY: usize = 97;

pub const LONGEST_FAULT: usize = 25 + 2 + WHY + 1;

pub const LONGEST: usize = 134;

// The register of a refusal with its half, between two texts.
fn put_half(before: &[u8], f: Finding, after: &[u8], out: &mut [u8]) -> usize
    requires { length before.now + 3 + length after.now ≤ length out.old }
    ensures { Put (before.now ++ number_text 10 2 f.register ++ half_letter f.half ++ after.now) out.old out.new result × (result ≤ length before.now + 3 + length after.now) }
{
    let mut at = put_labelled(before, f.register as u64, 10, 2, out);
    at += put_letter(f.half, &mut out[at..]);
    at += put_text(after, &mut out[at..]);
    at
}

// What is wrong with the instruction that a refusal names.
#[tactic(auto, unfolding(crate::specs::Words::why_text, rows::specs::Names::ascii))]
fn put_why(f: Finding, out: &mut [u8]) -> usize
    requires { longest_why ≤ length out.old }
    ensures { Put (why_text f) out.old out.new result × (result ≤ longest_why) }
{
    match f.number {
        READ_MISSING => put_half(b"reads r", f, b", which its note does not name", out),
        SUCCESSOR_OUTSIDE => put_text(b"can go on to a place outside the program", out),
        SUCCESSOR_MISSING => put_half(
            b"can go on to an instruction whose note names r",
            f,
            b", which by its own note it does not leave filled",
            out,
        ),
        ENTRY_MISSING => put_half(
            b"has a note that names r",
            f,
            b", which the parcel does not say is filled before the start",
            out,
        ),
        _ => put_text(
            b"is no legal instruction, so the program was not judged",
            out,
        ),
    }
}

// The line below that instruction.
fn put_below(f: Finding, out: &mut [u8]) -> usize
    requires { longest_fault ≤ length out.old }
    ensures { Put (fault_line (refuses f)) out.old out.new result × (result ≤ longest_fault) }
{
    let mut at = put_spaces(25, out);
    at += put_text(b"^ ", &mut out[at..]);
    at += put_why(f, &mut out[at..]);
    at += put_byte(b'\n', &mut out[at..]);
    at
}

// Nothing where the verdict is not a refusal.
#[tactic(auto, unfolding(crate::specs::Words::fault_line))]
pub fn put_fault(v: Verdict, out: &mut [u8]) -> usize
    requires { longest_fault ≤ length out.old }
    ensures { Put (fault_line (verdict_outcome v)) out.old out.new result × (result ≤ longest_fault) }
{
    match v {
        Ok(()) => 0,
        Err(f) => put_below(f, out),
    }
}

// The index of that instruction; 0 where the verdict is not a refusal, as in the definition. A caller puts no line there then.
pub fn fault_index(v: Verdict) -> usize
    ensures { result ≡ fault_index (verdict_outcome v) }
{
    match v {
        Ok(()) => 0,
        Err(f) => f.index,
    }
}

// What is wrong with an instruction, which is named.
fn put_instruction_at(f: Finding, out: &mut [u8]) -> usize
    requires { longest_refusal ≤ length out.old }
    ensures { Put (instruction_fault f) out.old out.new result × (result ≤ longest_refusal) }
{
    let at = put_enclosed(b"instruction ", f.index as u64, 4, b" ", out);
    at + put_why(f, &mut out[at..])
}

// What a refusal is about.
#[tactic(auto, unfolding(crate::specs::Words::refusal_text, rows::specs::Names::ascii))]
fn put_refusal(f: Finding, out: &mut [u8]) -> usize
    requires { longest_refusal ≤ length out.old }
    ensures { Put (refusal_text f) out.old out.new result × (result ≤ longest_refusal) }
{
    match f.number {
        WRONG_MARK => put_text(b"this is no parcel, since it does not begin with VSP", out),
        WRONG_VERSION => put_text(b"the version of the parcel is neither 1 nor 2", out),
        WRONG_LENGTH => put_text(b"the count of instructions or the length is wrong", out),
        WRONG_ZERO => put_text(b"byte 5 of the parcel is not 0", out),
        _ => put_instruction_at(f, out),
    }
}

fn put_refused(f: Finding, out: &mut [u8]) -> usize
    requires { longest_verdict ≤ length out.old }
    ensures { Put (verdict_text (refuses f)) out.old out.new result × (result ≤ longest_verdict) }
{
    let mut at = put_enclosed(b"REFUSED with ", f.number as u64, 3, b": ", out);
    at += put_refusal(f, &mut out[at..]);
    at += put_text(b".\n", &mut out[at..]);
    at
}

// The verdict.
#[tactic(auto, unfolding(crate::specs::Words::verdict_text, rows::specs::Names::ascii))]
pub fn put_verdict(v: Verdict, out: &mut [u8]) -> usize
    requires { longest_verdict ≤ length out.old }
    ensures { Put (verdict_text (verdict_outcome v)) out.old out.new result × (result ≤ longest_verdict) }
{
    match v {
        Ok(()) => put_text(
            b"ACCEPTED: whichever way the program goes, it reads no register that is not filled, if the display fills what the parcel says.\n",
            out,
        ),
        Err(f) => put_refused(f, out),
    }
}
