// The run of a program whose instructions are made ready.
#![tactic(auto)]

ghost use Rattle.std.specs.Prelude.{◌≡◌};
ghost use Rattle.safety.specs.Program.{program_of};
ghost use Rattle.run.specs.Run.{at, run, steps_run};
ghost use Rattle.run.specs.Served.Ready.{Ready};

use container::layout::MOST_INSTRUCTIONS;
use machine::step;
use operations::Operation;
use trace::{REGISTERS, difference};

// What stops a run: after a step, counted from 0, the lowest register that differs from the trace; an instruction's `end`, or the limit,
// after so many steps.
#[derive(Clone, Copy, Debug, PartialEq, Eq)]
pub enum Stop {
    Differs(u32, u32),
    Ended(u32),
    Limit(u32),
}

// Runs the program of a container, whose instructions are in `program`, on the registers. They are left as the last step leaves them.
pub fn run<'a>(
    bytes: &'a [u8],
    registers: &mut [u32; REGISTERS],
    program: [Operation; MOST_INSTRUCTIONS],
    uniforms: &'a [u32],
    trace: &'a [u32],
    limit: u32,
) -> Stop
    requires { Ready bytes.now uniforms.now program }
    ensures answer { result ≡ run (program_of bytes.now) uniforms.now registers.old trace.now limit }
    ensures left { registers.new ≡ (at (program_of bytes.now) uniforms.now registers.old (steps_run result)).registers }
{
    let mut i = 0;
    for k in 0..limit {
        let o = program[i];
        let next = step(registers, o, i);
        if let Some(r) = difference(registers, trace, k) {
            return Stop::Differs(k, r as u32);
        }
        if o.ends {
            return Stop::Ended(k + 1);
        }
        i = next;
    }
    Stop::Limit(limit)
}
