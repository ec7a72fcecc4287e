// Instructions made ready for a replay: why one is refused, and what of it stays the same for a whole run.
#![tactic(auto)]

pub mod fault;
pub mod op;
pub mod operand;

ghost use Rattle.std.specs.Prelude.{◌≡◌};
ghost use Rattle.operations.specs.Served.Operations.{written_register, operation_of};

use crate::fault::fault_of;
use crate::op::Op;
use crate::operand::{Operand, operand_of};
use flow::branch_target;
use reasons::Reason;
use record::instruction::{Instruction, Modifiers};
use record::registers::has_destination;

// An instruction as a run keeps it: why it is refused, if it is; what it does, which is nothing where it is refused for its row; the
// register that it writes, if it writes one; its operands, and where it jumps to, which is past the last where no jump leads.
#[derive(Clone, Copy, Debug, PartialEq, Eq)]
pub struct Operation {
    pub fault: Option<Reason>,
    pub op: Op,
    pub register: Option<u8>,
    pub ends: bool,
    pub modifiers: Modifiers,
    pub a: Operand,
    pub b: Operand,
    pub c: Operand,
    pub jump: usize,
}

// The register that an instruction writes.
fn written_register(x: Instruction) -> Option<u8>
    ensures { result ≡ written_register x }
{
    if has_destination(x.row) {
        Some(x.register)
    } else {
        None
    }
}

// Instruction i of n, made ready.
pub fn operation_of(uniforms: &[u32], n: usize, i: usize, x: Instruction) -> Operation
    ensures { result ≡ operation_of uniforms.now n i x }
{
    let s = x.sources;
    let modifiers = x.modifiers;
    let a = operand_of(uniforms, x.page, s.s0);
    let b = operand_of(uniforms, x.page, s.s1);
    let c = operand_of(uniforms, x.page, s.s2);
    Operation {
        fault: fault_of(x, uniforms.len()),
        op: Op::of_row(x.row).unwrap_or(Op::Nop),
        register: written_register(x),
        ends: x.ends(),
        modifiers,
        a,
        b,
        c,
        // a number, as `branch_target` gives it: a run of a checked program meets no jump outside
        jump: branch_target(i, x.offset, n),
    }
}
