// Verifies each container of its standard input and writes a line for each, with the verdict: the run-only parcels of paper 01, and
// parcels of version 2. Each entry of the input is a container with a label of 32 bytes.
#![tactic(auto)]

use saying::{Entries, FindingText};
use std::io;
use verifier::verify;

const LABEL: usize = 32;

const MOST: usize = 131072;

fn say_verdict(output: &impl Print, container: &[u8]) -> io::Result<()> {
    match verify(container) {
        Ok(()) => println!(output; " ACCEPTED"),
        Err(finding) => println!(output; " {}", FindingText(finding)),
    }
}

fn say_verdicts(output: &impl Print, bytes: &[u8]) -> io::Result<()> {
    let entries = Entries {
        label: LABEL,
        rest: bytes,
    };
    for entry in entries {
        output.write_all(entry.label)?;
        say_verdict(output, entry.bytes)?;
    }
    Ok(())
}

fn main(rt: HostRuntime) {
    let mut buffer = [0u8; MOST];
    let n = input::read_full(&mut rt.stdin(), &mut buffer);
    // The status is 0 also where the output cannot be written.
    let _ = say_verdicts(&rt.stdout(), &buffer[..n]);
}
