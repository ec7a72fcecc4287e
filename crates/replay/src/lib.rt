// Replay: a container that is accepted is run on 64 registers and compared with a recorded trace.
#![tactic(auto)]

ghost use Rattle.std.specs.Prelude.{◌≡◌};
ghost use Rattle.container.specs.Container.{count_of};
ghost use Rattle.safety.specs.Verdict.{verdict_outcome};
ghost use Rattle.run.specs.Served.Ready.{Ready};
ghost use Rattle.replay.specs.Replay.{asked, judge_faults, replayed_outcome, replay_outcome, replay_registers};
ghost use Rattle.replay.specs.Served.Passed.{Passed};

use container::layout::{MOST_INSTRUCTIONS, WORD_LENGTH};
use container::parts::words;
use decode::decode;
use operations::Operation;
use reasons::Reason;
use run::{Stop, run};
use safety::verdict::{Finding, Verdict, plain, refused};
use trace::REGISTERS;
use verifier::verify;

// What a replay answers: what stopped the run, or why there was none.
pub type Replayed = Result<Stop, Finding>;

// The refusal of the lowest of n instructions that has one.
fn first_fault<'a>(
    bytes: &'a [u8],
    uniforms: &'a [u32],
    program: [Operation; MOST_INSTRUCTIONS],
    n: usize,
) -> Verdict
    requires { Ready bytes.now uniforms.now program × (n ≡ count_of bytes.now) }
    ensures { verdict_outcome result ≡ judge_faults bytes.now uniforms.now }
{
    for i in 0..n {
        if let Some(reason) = program[i].fault {
            return refused(reason.number(), 0, i);
        }
    }
    Ok(())
}

// Replays a container that is accepted, against a trace of whole steps.
fn replay_accepted<'a>(
    bytes: &'a [u8],
    registers: &mut [u32; REGISTERS],
    uniforms: &'a [u32],
    trace: &'a [u32],
    limit: u32,
) -> Replayed
    requires { Passed bytes.now trace.now }
    ensures answer { replayed_outcome result ≡ replay_outcome (asked bytes.now registers.old uniforms.now trace.now limit) }
    ensures left { registers.new ≡ replay_registers (asked bytes.now registers.old uniforms.now trace.now limit) }
{
    let w = words(bytes);
    let n = w.len() / WORD_LENGTH;
    let program = decode(w, uniforms, n);
    first_fault(bytes, uniforms, program, n)?;
    Ok(run(bytes, registers, program, uniforms, trace, limit))
}

// Replays a container on the registers, which are changed in place, with some uniforms, at most `limit` steps, and compares the registers after
// each step with 64 numbers of the trace.
pub fn replay<'a>(
    bytes: &'a [u8],
    registers: &mut [u32; REGISTERS],
    uniforms: &'a [u32],
    trace: &'a [u32],
    limit: u32,
) -> Replayed
    ensures answer { replayed_outcome result ≡ replay_outcome (asked bytes.now registers.old uniforms.now trace.now limit) }
    ensures left { registers.new ≡ replay_registers (asked bytes.now registers.old uniforms.now trace.now limit) }
{
    verify(bytes)?;
    if trace.len() % REGISTERS != 0 {
        return Err(plain(Reason::TraceLength as u8, 0, 0));
    }
    replay_accepted(bytes, registers, uniforms, trace, limit)
}
