// Where an instruction goes, which halves of registers it leaves defined, and whether the annotations bear both out.
#![tactic(auto)]

ghost use Rattle.std.specs.Prelude.{◌≡◌, ◌+◌, ◌<◌, pos, ◌+ℤ◌};
ghost use Rattle.bits.specs.Outcomes.{each};
ghost use Rattle.record.specs.Registers.{kills as kills_of};
ghost use Rattle.safety.specs.Program.{successors, landing, fills, after, annotation_at, Annotated};
ghost use Rattle.safety.specs.Verdict.{verdict_outcome, judge_successor, judge_flow};

use bits::halves::{Halves, both};
use bits::sets::missing;
use container::format::format_of;
use container::header::halves_in;
use reasons::Reason;
use record::instruction::Instruction;
use safety::verdict::{Verdict, none_missing, refused};

// What an instruction makes defined, by version.
#[tactic(auto, unfolding(safety::specs::Program::fills))]
pub fn fills(version: u64, x: Instruction) -> Halves
    ensures { result ≡ fills version x }
{
    if version == 1 {
        both(x.defines())
    } else {
        x.writes()
    }
}

// What is defined after an instruction before which `held` is.
fn after(version: u64, x: Instruction, kills: u64, held: Halves) -> Halves
    requires { kills ≡ kills_of x }
    ensures { result ≡ after version x held }
{
    let f = fills(version, x);
    Halves {
        low: missing(held.low, kills) | f.low,
        high: missing(held.high, kills) | f.high,
    }
}

// The index i + 1 + offset, or n where that is outside 0 to n - 1: n and no `Option`, as the definition `landing` has it and callers test.
pub fn branch_target(i: usize, offset: i32, n: usize) -> usize
    ensures { result ≡ landing n (pos (i + 1) +ℤ offset) }
{
    if offset < 0 {
        let back = (-1 - offset) as usize;
        if i < back {
            return n;
        }
        if i - back < n { i - back } else { n }
    } else {
        let on = offset as usize;
        if n <= i {
            return n;
        }
        if on < n - i - 1 { i + 1 + on } else { n }
    }
}

// The annotation at index i.
pub fn annotation_at(version: u64, annotations: &[u8], n: usize, i: usize) -> Halves
    requires { Annotated version annotations.now n × (i < n) }
    ensures { result ≡ annotation_at version annotations.now i }
{
    let f = format_of(version);
    halves_in(annotations, f.annotation * i, f.high)
}

// The annotations of n instructions of a version.
#[derive(Clone, Copy)]
struct Notes<'a> {
    version: u64,
    bytes: &'a [u8],
    n: usize,
    ghost annotated: { Annotated version bytes.now n },
}

impl<'a> Notes<'a> {
    // The one at index i.
    fn at(self, i: usize) -> Halves
        requires { i < self.n }
        ensures { result ≡ annotation_at self.entry.version self.entry.bytes.now i }
    {
        annotation_at(self.version, self.bytes, self.n, i)
    }

    // Successor j of instruction i, after which `held` is defined.
    fn judge_successor(self, i: usize, held: Halves, j: usize) -> Verdict
        ensures { verdict_outcome result ≡ judge_successor self.entry.n (annotation_at self.entry.version self.entry.bytes.now) i held (pos j) }
    {
        if self.n <= j {
            return refused(Reason::SuccessorOutside as u8, 0, i);
        }
        none_missing(Reason::SuccessorMissing as u8, i, self.at(j), held)
    }

    // The successors of instruction i, the fall-through first, where `before` is defined before it.
    fn judge_successors(self, i: usize, x: Instruction, kills: u64, before: Halves) -> Verdict
        requires { (i < self.n) × (kills ≡ kills_of x) }
        ensures { verdict_outcome result ≡ each (judge_successor self.entry.n (annotation_at self.entry.version self.entry.bytes.now) i (after self.entry.version x before)) (successors x i) }
    {
        if x.ends() {
            return Ok(());
        }
        let held = after(self.version, x, kills, before);
        self.judge_successor(i, held, i + 1)?;
        if !x.branches() {
            return Ok(());
        }
        let j = branch_target(i, x.offset, self.n);
        self.judge_successor(i, held, j)
    }
}

// Instruction i of a container of a version, which is x, with its annotation taken as what is defined before it.
pub fn judge_flow(version: u64, annotations: &[u8], n: usize, i: usize, x: Instruction) -> Verdict
    requires { Annotated version annotations.now n × (i < n) }
    ensures { verdict_outcome result ≡ judge_flow version n (annotation_at version annotations.now) i x }
{
    let notes = Notes {
        version,
        bytes: annotations,
        n,
    };
    let before = notes.at(i);
    let u = x.uses();
    none_missing(Reason::ReadMissing as u8, i, both(u.reads), before)?;
    notes.judge_successors(i, x, u.kills, before)
}
