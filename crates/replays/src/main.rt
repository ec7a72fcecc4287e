// Replays each entry of its standard input and writes a line for each: what stopped the run, or why there was none, and the registers that
// it changed.
// The input is a sequence of entries: a label of 48 bytes, a length of four bytes, the lowest first, and as many bytes, which say what a
// replay is asked.
#![tactic(auto)]

ghost use Rattle.std.specs.Prelude.{◌≡◌, ◌<◌, ◌≤◌, length};
ghost use Rattle.runbytes.specs.Served.Whole.{Whole};

use replay::{Replayed, replay};
use run::Stop;
use runbytes::{
    Front, MOST_RECORDED, MOST_UNIFORMS, container, load_lists, load_registers, number_at, split,
};
use safety::verdict::{Finding, Reported};
use text::put::put_digits;
use trace::REGISTERS;

const LABEL: usize = 48;

const MOST: usize = 524288;

fn say(output: &impl Print, s: &[u8]) {
    output.write_all(s).is_ok();
}

fn number(output: &impl Print, n: u64) {
    say(output, b" ");
    output.print(n).is_ok();
}

fn say_half(output: &impl Print, half: Reported) {
    match half {
        Reported::Neither => {}
        Reported::Low => say(output, b"L"),
        Reported::High => say(output, b"H"),
    }
}

// Number, place, instruction, register with the half.
fn say_finding(output: &impl Print, f: Finding) {
    let half = f.half;
    say(output, b" REFUSED");
    number(output, u64::from(f.number));
    number(output, u64::from(f.place));
    number(output, f.index as u64);
    number(output, f.register as u64);
    say_half(output, half);
}

// The step, counted from 0, and the register; or how many steps were run.
fn say_stop(output: &impl Print, s: Stop) {
    match s {
        Stop::Differs(k, r) => {
            say(output, b" DIFFERS");
            number(output, u64::from(k));
            number(output, u64::from(r));
        }
        Stop::Ended(n) => {
            say(output, b" END");
            number(output, u64::from(n));
        }
        Stop::Limit(n) => {
            say(output, b" LIMIT");
            number(output, u64::from(n));
        }
    }
}

fn say_answer(output: &impl Print, a: Replayed) {
    match a {
        Ok(s) => say_stop(output, s),
        Err(f) => say_finding(output, f),
    }
}

fn say_register(output: &impl Print, r: usize, v: u32) {
    let mut digits = [0u8; 8];
    put_digits(u64::from(v), 16, 8, &mut digits);
    say(output, b" r");
    output.print(r as u64).is_ok();
    say(output, b"=");
    say(output, &digits);
}

// The registers that are left with another value than they had.
fn say_changed(output: &impl Print, start: &[u32; REGISTERS], left: &[u32; REGISTERS]) {
    for r in 0..REGISTERS {
        if start[r] != left[r] {
            say_register(output, r, left[r]);
        }
    }
}

fn say_replay<'a>(
    output: &impl Print,
    bytes: &'a [u8],
    f: Front,
    uniforms: &'a [u32],
    trace: &'a [u32],
)
    requires { Whole bytes.now f }
{
    let mut start = [0u32; REGISTERS];
    let mut left = [0u32; REGISTERS];
    load_registers(bytes, &mut start);
    load_registers(bytes, &mut left);
    let a = replay(container(bytes, f), &mut left, uniforms, trace, f.limit);
    say_answer(output, a);
    say_changed(output, &start, &left);
}

// The same in lent lists for the uniforms and the trace.
fn say_in<'a>(
    output: &impl Print,
    bytes: &'a [u8],
    f: Front,
    uniforms: &mut [u32],
    trace: &mut [u32],
)
    requires { Whole bytes.now f × (length uniforms.old ≡ f.uniforms) × (length trace.old ≡ f.recorded) }
{
    load_lists(bytes, f, uniforms, trace);
    say_replay(output, bytes, f, uniforms, trace);
}

// The same in memory of its own.
fn say_whole(output: &impl Print, bytes: &[u8], f: Front)
    requires { Whole bytes.now f }
{
    let mut uniforms = [0u32; MOST_UNIFORMS];
    let mut trace = [0u32; MOST_RECORDED];
    let u = f.uniforms;
    let t = f.recorded;
    say_in(output, bytes, f, &mut uniforms[..u], &mut trace[..t]);
}

// What an entry's bytes ask, answered; WRONG where they ask nothing.
fn say_asked(output: &impl Print, bytes: &[u8]) {
    let parted = split(bytes);
    match parted {
        Ok(f) => say_whole(output, bytes, f),
        Err(_) => say(output, b" WRONG"),
    }
    say(output, b"\n");
}

// The entry at a place, and the place after it; the end where it is cut off.
fn entry_at(output: &impl Print, s: &[u8], at: usize) -> usize
    requires { at < length s.now }
    ensures { (at < result) × (result ≤ length s.now) }
{
    if s.len() - at < LABEL + 4 {
        return s.len();
    }
    let counted = at + LABEL;
    let start = counted + 4;
    let n = number_at(s, counted) as usize;
    if s.len() - start < n {
        return s.len();
    }
    let end = start + n;
    say(output, &s[at..counted]);
    say_asked(output, &s[start..end]);
    end
}

// All entries. Each says where the next one stands, so they are not counted.
fn entries(output: &impl Print, s: &[u8]) {
    let mut at = 0;
    while at < s.len() {
        at = entry_at(output, s, at);
    }
}

fn main(rt: HostRuntime) {
    let output = rt.stdout();
    let mut buffer = [0u8; MOST];
    let n = input::read_full(&mut rt.stdin(), &mut buffer);
    if n <= MOST {
        entries(&output, &buffer[..n]);
    }
}
