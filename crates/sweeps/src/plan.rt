// What a sweep needs to know of each instruction, read from its word once.
ghost use Rattle.std.specs.Prelude.{◌≡◌, [], ◌<◌, length};
ghost use Rattle.bits.specs.Halves.{lower, upper, both};
ghost use Rattle.bits.specs.Outcomes.{passes, first};
ghost use Rattle.safety.specs.Program.{program_in, Worded};
ghost use Rattle.safety.specs.Verdict.{verdict_outcome, judge_word};
ghost use Rattle.sweeps.specs.Served.Plan.{step, Planned, Sized};

use bits::halves::Halves;
use flow::{branch_target, fills};
use record::instruction::Instruction;
use safety::verdict::{Verdict, refused};
use verifier::program::reading_at;

// The registers that an instruction kills, the halves that it fills, and where it goes on: the next instruction and the branch target, n
// where there is none, for a sweep compares each place with the length anyhow.
#[derive(Clone, Copy)]
pub struct Step {
    pub kills: u64,
    pub fills: Halves,
    pub falls: usize,
    pub jumps: usize,
}

// What a sweep needs of instruction i of n of a version.
pub(crate) fn step_of(version: u64, x: Instruction, i: usize, n: usize) -> Step
    requires { i < n }
    ensures { result ≡ step version x i n }
{
    let (falls, jumps) = if x.ends() {
        (n, n)
    } else if x.branches() {
        (i + 1, branch_target(i, x.offset, n))
    } else {
        (i + 1, n)
    };
    Step {
        kills: x.kills(),
        fills: fills(version, x),
        falls,
        jumps,
    }
}

// Reads the words, in order, into the plan; refuses the first that does not read. The plan is five lists, since a caller's memory for them
// is laid out so that none slows another.
pub fn make_plan(
    version: u64,
    words: &[u8],
    n: usize,
    kills: &mut [u64],
    lows: &mut [u64],
    highs: &mut [u64],
    falls: &mut [usize],
    jumps: &mut [usize],
) -> Verdict
    requires { Worded words.now n × Sized kills.old lows.old falls.old jumps.old n × (length highs.old ≡ n) }
    ensures outcome { verdict_outcome result ≡ first (judge_word words.now) n }
    ensures plan { verdict_outcome result ≡ passes → Planned (program_in version words.now [] n (both 0)) lower kills.new lows.new falls.new jumps.new n × Planned (program_in version words.now [] n (both 0)) upper kills.new highs.new falls.new jumps.new n }
{
    for i in 0..n {
        let x = match reading_at(words, n, i) {
            Ok(x) => x,
            Err(f) => return refused(f.number, f.place, i),
        };
        let s = step_of(version, x, i, n);
        kills[i] = s.kills;
        lows[i] = s.fills.low;
        highs[i] = s.fills.high;
        falls[i] = s.falls;
        jumps[i] = s.jumps;
    }
    Ok(())
}
