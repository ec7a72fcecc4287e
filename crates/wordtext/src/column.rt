// What stands for a word: the text of its instruction, or why it does not read.
ghost use Rattle.std.specs.Prelude.{◌≡◌, ◌++◌, ◌+◌, ◌≤◌, length};
ghost use Rattle.bits.specs.Outcomes.{gives, refuses};
ghost use Rattle.rows.specs.Names.{ascii};
ghost use Rattle.text.specs.Text.{Put};
ghost use Rattle.leftout.specs.Omitted.{longest_omitted};
ghost use Rattle.leftout.specs.LeftOut.{left_out};
ghost use Rattle.wordtext.specs.Columns.{jumps, lands, arrow_text, omitted_text, reason_text, longest_reason, column_in, column_of, longest_column};

use disasm::put_instruction;
use flow::branch_target;
use lacks::put_stray;
use leftout::put_left_out;
use reader::read_number;
use reasons::Reason;
use record::answer::Refusal;
use record::instruction::Instruction;
use text::put::{put_digits, put_enclosed, put_labelled, put_text};

// The most bytes that it has.
pub const LONGEST: usize = disasm::LONGEST + ARROW;

const ARROW: usize = 11;

// The numbers of the refusals, by reason.
const NO_ROW: u8 = Reason::NoRow as u8;

const STRAY_BIT: u8 = Reason::StrayBit as u8;

const RESERVED_FLOW: u8 = Reason::ReservedFlow as u8;

const NO_HALF: u8 = Reason::NoHalf as u8;

const MODIFIER: u8 = Reason::IllegalModifier as u8;

// Whether an instruction is a branch that can be taken.
pub fn jumps(x: Instruction) -> bool
    ensures { result ≡ jumps x }
{
    x.branches() && !x.ends()
}

// Where instruction i of n branches to; n where that is outside, as in the rules and in `flow::branch_target`.
pub fn lands(n: usize, i: usize, x: Instruction) -> usize
    ensures { result ≡ lands n i x }
{
    branch_target(i, x.offset, n)
}

#[tactic(auto, unfolding(crate::specs::Columns::arrow_text, rows::specs::Names::ascii))]
fn put_arrow(n: usize, i: usize, x: Instruction, out: &mut [u8]) -> usize
    requires { 11 ≤ length out.old }
    ensures { Put (arrow_text n i x) out.old out.new result × (result ≤ 11) }
{
    if !jumps(x) {
        return 0;
    }
    let j = lands(n, i, x);
    if n <= j {
        return put_text(b" -> outside", out);
    }
    let at = put_text(b" -> ", out);
    at + put_digits(j as u64, 10, 4, &mut out[at..])
}

// That a name is left out.
fn put_named(name: &[u8], out: &mut [u8]) -> usize
    requires { (length name.now ≤ longest_omitted) × (longest_omitted + 25 ≤ length out.old) }
    ensures { Put (ascii "; " ++ name.now ++ ascii ", left out by the scope") out.old out.new result × (result ≤ longest_omitted + 25) }
{
    let mut at = put_text(b"; ", out);
    at += put_text(name, &mut out[at..]);
    at += put_text(b", left out by the scope", &mut out[at..]);
    at
}

// The name that 002 has for a word which no row fits.
fn put_omitted(w: u64, out: &mut [u8]) -> usize
    requires { longest_omitted + 25 ≤ length out.old }
    ensures { Put (omitted_text (left_out w)) out.old out.new result × (result ≤ longest_omitted + 25) }
{
    let mut name = [0u8; leftout::LONGEST];
    let n = put_left_out(w, &mut name);
    if n == 0 {
        return 0;
    }
    put_named(&name[..n], out)
}

fn put_no_row(w: u64, out: &mut [u8]) -> usize
    requires { longest_omitted + 36 ≤ length out.old }
    ensures { Put (ascii "no row fits" ++ omitted_text (left_out w)) out.old out.new result × (result ≤ longest_omitted + 36) }
{
    let at = put_text(b"no row fits", out);
    at + put_omitted(w, &mut out[at..])
}

// Why a word is refused with a number at a place.
#[tactic(auto, unfolding(crate::specs::Columns::reason_text, rows::specs::Names::ascii))]
fn put_reason(w: u64, number: u8, place: u8, out: &mut [u8]) -> usize
    requires { longest_reason ≤ length out.old }
    ensures { Put (reason_text w number place) out.old out.new result × (result ≤ longest_reason) }
{
    match number {
        NO_ROW => put_no_row(w, out),
        STRAY_BIT => put_stray(w, place, out),
        RESERVED_FLOW => put_text(b"its flow is reserved", out),
        NO_HALF => put_text(b"neither half of its destination is written", out),
        MODIFIER => put_labelled(b"illegal modifier at bit ", place as u64, 10, 3, out),
        _ => put_enclosed(b"source ", place as u64, 3, b" is a reserved constant", out),
    }
}

fn put_refused(n: usize, i: usize, w: u64, f: Refusal, out: &mut [u8]) -> usize
    requires { longest_column ≤ length out.old }
    ensures { Put (column_in n i w (refuses f)) out.old out.new result × (result ≤ longest_column) }
{
    let at = put_enclosed(b"-- ", f.number as u64, 3, b": ", out);
    at + put_reason(w, f.number, f.place, &mut out[at..])
}

fn put_read(n: usize, i: usize, w: u64, x: Instruction, out: &mut [u8]) -> usize
    requires { longest_column ≤ length out.old }
    ensures { Put (column_in n i w (gives x)) out.old out.new result × (result ≤ longest_column) }
{
    let at = put_instruction(x, out);
    at + put_arrow(n, i, x, &mut out[at..])
}

// The word w at index i of n.
#[tactic(auto, unfolding(crate::specs::Columns::column_of))]
pub fn put_column(n: usize, i: usize, w: u64, out: &mut [u8]) -> usize
    requires { longest_column ≤ length out.old }
    ensures { Put (column_of n i w) out.old out.new result × (result ≤ longest_column) }
{
    match read_number(w) {
        Ok(x) => put_read(n, i, w, x, out),
        Err(f) => put_refused(n, i, w, f, out),
    }
}
