// The rows of each opcode, asked for one by one: a line for each opcode to 1023, and for some more that no word can have, with k and row of
// each that is found.
#![tactic(auto)]

use opcoderows::row_with;
use std::io;

// The k-th row of an opcode, where there is one.
fn say_row(output: &impl Print, opcode: u64, k: u64) -> io::Result<()> {
    if let Some(row) = row_with(opcode, k) {
        print!(output; " {k}:{row}")?;
    }
    Ok(())
}

// The rows of an opcode, for all k to 30 and for k that are large.
fn say_opcode(output: &impl Print, opcode: u64) -> io::Result<()> {
    print!(output; "opcode {opcode}:")?;
    for k in 0..31 {
        say_row(output, opcode, k)?;
    }
    say_row(output, opcode, 1 << 32)?;
    say_row(output, opcode, u64::MAX)?;
    println!(output)
}

fn say_opcodes(output: &impl Print) -> io::Result<()> {
    for opcode in 0..1024 {
        say_opcode(output, opcode)?;
    }
    say_opcode(output, (1 << 32) + 144)?;
    say_opcode(output, u64::MAX)
}

fn main(rt: HostRuntime) {
    // The status is 0 also where the output cannot be written.
    let _ = say_opcodes(&rt.stdout());
}
