// A replay's answer and the registers after a step as lines of text, made in a buffer that the caller lends.
#![tactic(auto)]

ghost use Rattle.std.specs.Prelude.{◌≡◌, ◌++◌, ◌+◌, ◌*◌, ◌≤◌, length, get_or};
ghost use Rattle.bits.specs.Outcomes.{gives};
ghost use Rattle.replay.specs.Replay.{replayed_outcome};
ghost use Rattle.text.specs.Text.{Put};
ghost use Rattle.trace.specs.Trace.{recorded};
ghost use Rattle.replaytext.specs.ReplayText.{plain, value_text, step_word, compared, stopped_line, differs_line, answer_line, values, register_row, longest_answer, row_length};

use replay::Replayed;
use run::Stop;
use safety::verdict::Verdict;
use text::put::{put_byte, put_digits, put_enclosed, put_text};
use trace::REGISTERS;
use verdictline::put_verdict;

// The most digits of a number in decimal, and the digits of a register's value.
const PLAIN: usize = 10;

const VALUE: usize = 8;

// The most bytes that an answer has.
pub const LONGEST_ANSWER: usize = 16 + PLAIN + 3 + PLAIN + 2 + VALUE + 11 + VALUE + 9 + 1;

// How many bytes the line of the registers has.
pub const ROW_LENGTH: usize = VALUE * REGISTERS + 1;

// How many of n steps were compared.
fn compared(n: u32, trace: &[u32]) -> u64
    ensures { result ≡ compared n trace.now }
{
    let steps = n as usize;
    steps.min(trace.len() / REGISTERS) as u64
}

// A text, n, and `step` or `steps`.
fn put_steps(why: &[u8], n: u32, out: &mut [u8]) -> usize
    requires { length why.now + 16 ≤ length out.old }
    ensures { Put (why.now ++ plain n ++ step_word n) out.old out.new result × (result ≤ length why.now + 16) }
{
    if n == 1 {
        return put_enclosed(why, n as u64, PLAIN, b" step", out);
    }
    put_enclosed(why, n as u64, PLAIN, b" steps", out)
}

// What stopped the run after n steps, and how many were compared.
fn put_stopped(why: &[u8], n: u32, trace: &[u32], out: &mut [u8]) -> usize
    requires { (length why.now ≤ 12) × (longest_answer ≤ length out.old) }
    ensures { Put (stopped_line why.now n trace.now) out.old out.new result × (result ≤ longest_answer) }
{
    let k = compared(n, trace);
    let at = put_steps(why, n, out);
    at + put_enclosed(b", ", k, PLAIN, b" compared\n", &mut out[at..])
}

// The number at a place of a list; 0 past its end.
fn number_at(list: &[u32], i: usize) -> u32
    ensures { result ≡ get_or list.now i 0 }
{
    list.get(i).copied().unwrap_or(0)
}

// What the trace has for register r after step k; 0 past its end.
fn recorded(trace: &[u32], k: u32, r: u32) -> u32
    ensures { result ≡ recorded trace.now k r }
{
    number_at(trace, REGISTERS * (k as usize) + r as usize)
}

// A register's value, and a text after it.
fn put_value(v: u32, after: &[u8], out: &mut [u8]) -> usize
    requires { 8 + length after.now ≤ length out.old }
    ensures { Put (value_text v ++ after.now) out.old out.new result × (result ≡ 8 + length after.now) }
{
    let at = put_digits(v as u64, 16, VALUE, out);
    at + put_text(after, &mut out[at..])
}

// The first difference: the step, the register, its value and what was recorded.
fn put_differs(k: u32, r: u32, registers: &[u32; REGISTERS], trace: &[u32], out: &mut [u8]) -> usize
    requires { longest_answer ≤ length out.old }
    ensures { Put (differs_line k r registers.now trace.now) out.old out.new result × (result ≤ longest_answer) }
{
    let held = number_at(registers, r as usize);
    let kept = recorded(trace, k, r);
    let mut at = put_enclosed(b"DIFFERS at step ", k as u64, PLAIN, b", r", out);
    at += put_enclosed(b"", r as u64, PLAIN, b": ", &mut out[at..]);
    at += put_value(held, b" replayed, ", &mut out[at..]);
    at += put_value(kept, b" recorded\n", &mut out[at..]);
    at
}

// What stopped a run.
fn put_stop(s: Stop, registers: &[u32; REGISTERS], trace: &[u32], out: &mut [u8]) -> usize
    requires { longest_answer ≤ length out.old }
    ensures { Put (answer_line (gives s) registers.now trace.now) out.old out.new result × (result ≤ longest_answer) }
{
    match s {
        Stop::Differs(k, r) => put_differs(k, r, registers, trace, out),
        Stop::Ended(n) => put_stopped(b"END after ", n, trace, out),
        Stop::Limit(n) => put_stopped(b"LIMIT after ", n, trace, out),
    }
}

// Puts the line of an answer at the front of a buffer, from the registers that the replay left and the trace, and answers how many bytes
// it has.
pub fn put_answer(a: Replayed, registers: &[u32; REGISTERS], trace: &[u32], out: &mut [u8]) -> usize
    requires { longest_answer ≤ length out.old }
    ensures { Put (answer_line (replayed_outcome a) registers.now trace.now) out.old out.new result × (result ≤ longest_answer) }
{
    match a {
        Ok(s) => put_stop(s, registers, trace, out),
        Err(f) => put_verdict(Err(f), out),
    }
}

// The values of registers, one after the other.
fn put_values(registers: &[u32], out: &mut [u8]) -> usize
    requires { 8 * length registers.now ≤ length out.old }
    ensures { Put (values registers.now) out.old out.new result × (result ≡ 8 * length registers.now) }
{
    let mut at = 0;
    for v in registers {
        at += put_digits(*v as u64, 16, VALUE, &mut out[at..]);
    }
    at
}

// Puts the line of the 64 registers at the front of a buffer, and answers how many bytes it has.
pub fn put_registers(registers: &[u32; REGISTERS], out: &mut [u8]) -> usize
    requires { row_length ≤ length out.old }
    ensures { Put (register_row registers.now) out.old out.new result × (result ≡ row_length) }
{
    let at = put_values(registers, out);
    at + put_byte(b'\n', &mut out[at..])
}
