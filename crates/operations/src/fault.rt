// Which instructions can be replayed.
ghost use Rattle.std.specs.Prelude.{◌≡◌};
ghost use Rattle.rows.specs.Sources.{meaning};
ghost use Rattle.operations.specs.Replayable.{writes_whole, ordinary, supplied, all_three, replayable};
ghost use Rattle.operations.specs.Served.Operations.{op_whole, fault_reason};

use crate::op::Op;
use reasons::Reason;
use record::instruction::{Instruction, Modifiers};
use record::registers::has_destination;

const FULL: u8 = 3;

// The first source bytes of the uniforms, of the constants, and of the special constants.
const UNIFORMS: u8 = 128;

const CONSTANTS: u8 = 192;

const SPECIALS: u8 = 224;

// Whether what is written, if anything is, is a whole register.
#[tactic(auto, unfolding(crate::specs::Replayable::writes_whole))]
fn writes_whole(x: Instruction) -> bool
    ensures { result ≡ writes_whole x }
{
    !has_destination(x.row) || x.half_mask == FULL
}

// Whether combine and widen, where there are such modifiers, are none.
#[tactic(auto, unfolding(crate::specs::Served::Operations::op_whole))]
fn takes_whole(op: Op, m: Modifiers) -> bool
    ensures { result ≡ op_whole op m }
{
    match op {
        Op::Branchz => m.m37 == 0,
        Op::Fadd => m.m28 == 0 && m.m26 == 0,
        Op::Nop | Op::Mov | Op::Clz | Op::Popcount | Op::Bitrev | Op::Not | Op::Mux => true,
    }
}

// Whether of n uniforms there is the one that a source byte names on a page, if it names one.
#[tactic(auto, using(crate::proofs::ByteLaws::supplied_below, crate::proofs::ByteLaws::supplied_above, crate::proofs::ByteLaws::supplied_between))]
fn supplied(n: usize, page: u8, b: u8) -> bool
    ensures { result ≡ supplied n (meaning page b) }
{
    if b < UNIFORMS || CONSTANTS <= b {
        return true;
    }
    let u = usize::from(b - UNIFORMS) + 64 * usize::from(page);
    u < n
}

// Whether no source is a special constant.
#[tactic(auto, using(crate::proofs::ByteLaws::ordinary_byte))]
fn all_ordinary(x: Instruction) -> bool
    ensures { result ≡ all_three ordinary x }
{
    let s = x.sources;
    s.s0 < SPECIALS && s.s1 < SPECIALS && s.s2 < SPECIALS
}

// Whether no source names a uniform past n.
fn all_supplied(n: usize, x: Instruction) -> bool
    ensures { result ≡ all_three (supplied n) x }
{
    let s = x.sources;
    supplied(n, x.page, s.s0) && supplied(n, x.page, s.s1) && supplied(n, x.page, s.s2)
}

// Whether the machine can run an instruction.
#[tactic(auto, using(crate::proofs::OpLaws::runs_some, crate::proofs::OpLaws::runs_none, crate::proofs::OpLaws::whole_of), unfolding(crate::specs::Replayable::replayable))]
fn replayable(x: Instruction) -> bool
    ensures { result ≡ replayable x }
{
    match Op::of_row(x.row) {
        Some(op) => writes_whole(x) && takes_whole(op, x.modifiers) && all_ordinary(x),
        None => false,
    }
}

// Why an instruction is refused where there are n uniforms.
#[tactic(auto, unfolding(crate::specs::Served::Operations::fault_reason))]
pub(crate) fn fault_of(x: Instruction, n: usize) -> Option<Reason>
    ensures { result ≡ fault_reason n x }
{
    let runs = replayable(x);
    let has = all_supplied(n, x);
    if !runs {
        return Some(Reason::NotReplayable);
    }
    if !has {
        return Some(Reason::UniformMissing);
    }
    None
}
