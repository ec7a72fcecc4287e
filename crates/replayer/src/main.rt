// Reads what a replay is asked from standard input, and writes the line of its answer to standard output; where each step is wanted too,
// before that a line for each step run with the registers after it. A program here has no exit status, so what fails is told on standard
// error.
#![tactic(auto)]

ghost use Rattle.std.specs.Prelude.{◌≡◌, ◌+◌, ◌<◌, ◌≤◌, length, Ok};
ghost use Rattle.bits.specs.Fields.{choose};
ghost use Rattle.bits.specs.Outcomes.{refuses};
ghost use Rattle.replay.specs.Replay.{replayed_outcome, replay_registers};
ghost use Rattle.runbytes.specs.RunBytes.{trace_in, asked_in, split_outcome};
ghost use Rattle.input.specs.Input.{Within};
ghost use Rattle.replayer.specs.Replaying.{most_read, answer_in, answer_text, steps_of, row_count, row_text, fault_line, Read, Loaded};

use container::layout::LONGEST_CONTAINER;
use input::Input;
use replay::{Replayed, replay};
use replaytext::{LONGEST_ANSWER, ROW_LENGTH, put_answer, put_registers};
use run::Stop;
use runbytes::{
    Fault, Front, MOST_RECORDED, MOST_UNIFORMS, UNIFORMS_START, container, load_lists,
    load_registers, split,
};
use std::io::Read;
use trace::REGISTERS;

// The longest that can stand before a container, and one byte more than the longest container: what is longer is refused by this part alone.
const MOST: usize = UNIFORMS_START
    + 4 * MOST_UNIFORMS
    + 4 * MOST_RECORDED
    + (LONGEST_CONTAINER + 1);

// Reads that part, or all where there is less. What is proved of a program is said of its own functions, so each has this one.
fn read_part(reader: &mut impl Read, buffer: &mut [u8; MOST]) -> Input
    ensures { Within result most_read × (length buffer.new ≡ most_read) }
{
    input::fill(reader, buffer)
}

fn tell(errors: &impl Print, text: &[u8]) -> bool {
    errors.write_all(text).is_ok()
}

// The one way to standard output for the registers: the line of those after step j, counted from 1. It is written until all of it is, or
// until a write fails.
fn send_row(output: &impl Print, bytes: &[u8], input: Input, f: Front, j: u32, text: &[u8]) -> bool
    requires { Read input bytes.now f × (0 < j) × (j ≤ row_count bytes.now) × (text.now ≡ row_text bytes.now j) }
{
    output.write_all(text).is_ok()
}

// The one way to standard output for the answer, after k lines of registers, which are all that are wanted.
fn send_answer(
    output: &impl Print,
    bytes: &[u8],
    input: Input,
    f: Front,
    k: u32,
    text: &[u8],
) -> bool
    requires { Read input bytes.now f × (k ≡ row_count bytes.now) × (text.now ≡ answer_text bytes.now) }
{
    output.write_all(text).is_ok()
}

// Sends the registers after j steps: they are replayed from the start with that limit, and compared with nothing.
fn write_row<'a>(
    output: &impl Print,
    bytes: &'a [u8],
    input: Input,
    f: Front,
    container: &'a [u8],
    uniforms: &'a [u32],
    trace: &'a [u32],
    j: u32,
) -> bool
    requires { Read input bytes.now f × Loaded bytes.now container.now uniforms.now trace.now × (0 < j) × (j ≤ row_count bytes.now) }
{
    let mut registers = [0u32; REGISTERS];
    load_registers(bytes, &mut registers);
    let _ = replay(container, &mut registers, uniforms, &trace[..0], j);
    let mut line = [0u8; ROW_LENGTH];
    let n = put_registers(&registers, &mut line);
    send_row(output, bytes, input, f, j, &line[..n])
}

// Sends the registers after each of n steps, until a write fails, and answers how many lines it sent.
fn write_rows<'a>(
    output: &impl Print,
    bytes: &'a [u8],
    input: Input,
    f: Front,
    container: &'a [u8],
    uniforms: &'a [u32],
    trace: &'a [u32],
    n: u32,
) -> u32
    requires { Read input bytes.now f × Loaded bytes.now container.now uniforms.now trace.now × (n ≡ row_count bytes.now) }
    ensures { result ≤ n }
{
    for j in 0..n {
        if !write_row(output, bytes, input, f, container, uniforms, trace, j + 1) {
            return j;
        }
    }
    n
}

// Sends the line of an answer, after k lines of registers.
fn write_answer<'a>(
    output: &impl Print,
    bytes: &'a [u8],
    input: Input,
    f: Front,
    k: u32,
    a: Replayed,
    registers: &'a [u32; REGISTERS],
    trace: &'a [u32],
) -> bool
    requires { Read input bytes.now f × (k ≡ row_count bytes.now) × (replayed_outcome a ≡ answer_in bytes.now) × (registers.now ≡ replay_registers (asked_in bytes.now)) × (trace.now ≡ trace_in bytes.now) }
{
    let mut line = [0u8; LONGEST_ANSWER];
    let n = put_answer(a, registers, trace, &mut line);
    send_answer(output, bytes, input, f, k, &line[..n])
}

// How many steps were run, of which there is a limit.
fn steps_of(a: Replayed, limit: u32) -> u32
    requires { steps_of (replayed_outcome a) ≤ limit }
    ensures { result ≡ steps_of (replayed_outcome a) }
{
    match a {
        Ok(Stop::Differs(k, _)) => k + 1,
        Ok(Stop::Ended(n) | Stop::Limit(n)) => n,
        Err(_) => 0,
    }
}

// How many lines of registers are wanted.
fn rows_wanted(f: Front, a: Replayed, limit: u32) -> u32
    requires { steps_of (replayed_outcome a) ≤ limit }
    ensures { result ≡ choose f.rows (steps_of (replayed_outcome a)) 0 }
{
    if !f.rows {
        return 0;
    }
    steps_of(a, limit)
}

// Replays what is asked, and sends what is wanted.
fn answer<'a>(
    output: &impl Print,
    errors: &impl Print,
    bytes: &'a [u8],
    input: Input,
    f: Front,
    container: &'a [u8],
    uniforms: &'a [u32],
    trace: &'a [u32],
)
    requires { Read input bytes.now f × Loaded bytes.now container.now uniforms.now trace.now }
{
    let limit = f.limit;
    let mut registers = [0u32; REGISTERS];
    load_registers(bytes, &mut registers);
    let a = replay(container, &mut registers, uniforms, trace, limit);
    let n = rows_wanted(f, a, limit);
    let k = write_rows(output, bytes, input, f, container, uniforms, trace, n);
    if k < n {
        tell(errors, b"replayer: standard output cannot be written\n");
        return;
    }
    if !write_answer(output, bytes, input, f, k, a, &registers, trace) {
        tell(errors, b"replayer: standard output cannot be written\n");
    }
}

// The same in lent lists for the uniforms and the trace.
fn answer_in<'a>(
    output: &impl Print,
    errors: &impl Print,
    bytes: &'a [u8],
    input: Input,
    f: Front,
    uniforms: &mut [u32],
    trace: &mut [u32],
)
    requires { Read input bytes.now f × (length uniforms.old ≡ f.uniforms) × (length trace.old ≡ f.recorded) }
{
    load_lists(bytes, f, uniforms, trace);
    answer(
        output,
        errors,
        bytes,
        input,
        f,
        container(bytes, f),
        uniforms,
        trace,
    );
}

// The same in memory of its own.
fn answer_whole(output: &impl Print, errors: &impl Print, bytes: &[u8], input: Input, f: Front)
    requires { Read input bytes.now f }
{
    let mut uniforms = [0u32; MOST_UNIFORMS];
    let mut trace = [0u32; MOST_RECORDED];
    let u = f.uniforms;
    let t = f.recorded;
    answer_in(
        output,
        errors,
        bytes,
        input,
        f,
        &mut uniforms[..u],
        &mut trace[..t],
    );
}

fn tell_fault<'a>(errors: &impl Print, bytes: &'a [u8], input: Input, e: Fault, line: &'a [u8])
    requires { (input ≡ Ok (length bytes.now)) × (refuses e ≡ split_outcome bytes.now) × (line.now ≡ fault_line e) }
{
    tell(errors, line);
}

// What is told of what is wrong.
fn fault_line(e: Fault) -> &'static [u8]
    ensures { result.now ≡ fault_line e }
{
    match e {
        Fault::Short => b"replayer: input shorter than 272 bytes\n",
        Fault::Kind => b"replayer: first number is not 0 or 1\n",
        Fault::Counts => b"replayer: a count is too large\n",
        Fault::Cut => b"replayer: input shorter than counted\n",
    }
}

// Tells what is wrong with the input.
fn refuse(errors: &impl Print, bytes: &[u8], input: Input, e: Fault)
    requires { (input ≡ Ok (length bytes.now)) × (refuses e ≡ split_outcome bytes.now) }
{
    tell_fault(errors, bytes, input, e, fault_line(e));
}

// Answers what was read.
fn report(output: &impl Print, errors: &impl Print, bytes: &[u8], input: Input)
    requires { input ≡ Ok (length bytes.now) }
{
    match split(bytes) {
        Ok(f) => answer_whole(output, errors, bytes, input, f),
        Err(e) => refuse(errors, bytes, input, e),
    }
}

fn main(rt: HostRuntime) {
    let output = rt.stdout();
    let errors = rt.stderr();
    let mut buffer = [0u8; MOST];
    let input = read_part(&mut rt.stdin(), &mut buffer);
    match input {
        Ok(n) => report(&output, &errors, &buffer[..n], input),
        Err(_) => {
            tell(&errors, b"replayer: standard input cannot be read\n");
        }
    }
}
