// The instructions of a program, made ready once, before a run.
#![tactic(auto)]

ghost use Rattle.std.specs.Prelude.{◌≡◌, ◌<◌};
ghost use Rattle.safety.specs.Program.{Worded, instruction_at};
ghost use Rattle.operations.specs.Served.Operations.{operation_of};
ghost use Rattle.decode.specs.Served.Decoded.{AllRead, Decoded};

use container::layout::MOST_INSTRUCTIONS;
use operations::op::Op;
use operations::operand::Operand;
use operations::{Operation, operation_of};
use record::instruction::Modifiers;
use verifier::program::reading_at;

// An operation that does nothing, for the places past the last instruction.
fn nothing() -> Operation {
    Operation {
        fault: None,
        op: Op::Nop,
        register: None,
        ends: true,
        modifiers: Modifiers::of([0; 14]),
        a: Operand::Fixed(0),
        b: Operand::Fixed(0),
        c: Operand::Fixed(0),
        jump: 0,
    }
}

// Instruction i of n words that all read, made ready.
fn operation_at<'a>(words: &'a [u8], uniforms: &'a [u32], n: usize, i: usize) -> Operation
    requires { Worded words.now n × (i < n) × AllRead words.now n }
    ensures { result ≡ operation_of uniforms.now n i (instruction_at words.now i) }
{
    let r = reading_at(words, n, i);
    match r {
        Ok(x) => operation_of(uniforms, n, i, x),
        Err(_) => nothing(),
    }
}

// All n of them.
pub fn decode<'a>(words: &'a [u8], uniforms: &'a [u32], n: usize) -> [Operation; MOST_INSTRUCTIONS]
    requires { Worded words.now n × AllRead words.now n }
    ensures { Decoded words.now uniforms.now n n result }
{
    let mut program = [nothing(); MOST_INSTRUCTIONS];
    for i in 0..n {
        program[i] = operation_at(words, uniforms, n, i);
    }
    program
}
