// One step of a replay: the registers are lent, and changed in place.
#![tactic(auto)]

ghost use Rattle.std.specs.Prelude.{◌≡◌, ◌<◌, ℕ};
ghost use Rattle.operations.specs.Served.Operations.{operand_worth};
ghost use Rattle.machine.specs.Served.InPlace.{op_result, op_jumps, effect, effect_on, stored};

use operations::Operation;
use operations::op::Op;
use operations::operand::operand_worth;
use record::instruction::Modifiers;

// What an operation does: the number that it writes, and the index of the next instruction.
#[derive(Clone, Copy, Debug, PartialEq, Eq)]
pub struct Effect {
    pub number: u32,
    pub next: usize,
}

// What is written, from what the sources are worth; 0 where nothing is.
#[tactic(auto, unfolding(crate::specs::Served::InPlace::op_result))]
fn result(op: Op, m: Modifiers, a: u32, b: u32, c: u32) -> u32
    ensures { result ≡ op_result op m a b c }
{
    match op {
        Op::Nop | Op::Branchz => 0,
        Op::Mov => a,
        Op::Clz => ops::clz(a),
        Op::Popcount => ops::popcount(a),
        Op::Bitrev => ops::bitrev(a),
        Op::Not => ops::complement(a),
        Op::Fadd => fadd::fadd(m.m38 == 1, m.m39 == 1, m.m36 == 1, m.m37 == 1, m.m32, a, b),
        Op::Mux => ops::mux(m.m32, a, b, c),
    }
}

// Whether it jumps.
#[tactic(auto, unfolding(crate::specs::Served::InPlace::op_jumps))]
fn takes_branch(op: Op, m: Modifiers, a: u32) -> bool
    ensures { result ≡ op_jumps op m a }
{
    match op {
        Op::Branchz => ops::jumps(m.m36 == 1, a),
        _ => false,
    }
}

// What the second and the third source of an operation are worth, where it asks for them, else 0: to look up a source that is not asked for
// takes as long as to look up another.
#[tactic(auto, unfolding(crate::specs::Served::InPlace::op_result))]
fn others_worth(registers: &[u32; 64], o: Operation) -> (u32, u32)
    ensures { (a : ℕ) → op_result o.op o.modifiers a result.0 result.1 ≡ op_result o.op o.modifiers a (operand_worth registers.now o.b) (operand_worth registers.now o.c) }
{
    match o.op {
        Op::Nop | Op::Branchz | Op::Mov | Op::Clz | Op::Popcount | Op::Bitrev | Op::Not => (0, 0),
        Op::Fadd => (operand_worth(registers, o.b), 0),
        Op::Mux => (operand_worth(registers, o.b), operand_worth(registers, o.c)),
    }
}

// The step by value, from what the operands are worth.
#[tactic(auto, using(crate::proofs::StepLaws::jumps_write_none))]
fn stepped(o: Operation, i: usize, a: u32, b: u32, c: u32) -> Effect
    requires { i < 65536 }
    ensures { result ≡ effect o i a b c }
{
    let m = o.modifiers;
    if takes_branch(o.op, m, a) {
        // what jumps writes nothing
        return Effect {
            number: 0,
            next: o.jump,
        };
    }
    Effect {
        number: result(o.op, m, a, b, c),
        next: i + 1,
    }
}

// The step in place: the register that the operation writes, if it writes one, is changed, and the index of the next instruction is given.
pub fn step(registers: &mut [u32; 64], o: Operation, i: usize) -> usize
    requires { i < 65536 }
    ensures index { result ≡ (effect_on o i registers.old).next }
    ensures written { registers.new ≡ stored o i registers.old }
{
    let a = operand_worth(registers, o.a);
    let (b, c) = others_worth(registers, o);
    let e = stepped(o, i, a, b, c);
    if let Some(d) = o.register {
        if d < 64 {
            registers[d as usize] = e.number;
        }
    }
    e.next
}
