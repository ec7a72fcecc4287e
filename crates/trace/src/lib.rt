// The recorded trace: 64 numbers a step.
#![tactic(auto)]

ghost use Rattle.std.specs.Prelude.{◌≡◌, ◌+◌, ◌*◌, ◌≤◌, length};
ghost use Rattle.bits.specs.Sets.{lowest_from};
ghost use Rattle.trace.specs.Trace.{unlike, difference, below_64};

// How many registers there are.
pub const REGISTERS: usize = 64;

// How many registers differ from what the trace has after step k, which it records. Without a way out of the loop it takes less time than
// looking for the lowest.
fn differing(registers: &[u32; REGISTERS], trace: &[u32], k: usize) -> u32
    requires { 64 * k + 64 ≤ length trace.now }
    ensures { result ≡ 0 → lowest_from (unlike registers.now trace.now k) 64 0 ≡ 64 }
{
    let base = REGISTERS * k;
    let mut n = 0;
    for r in 0..REGISTERS {
        n += u32::from(registers[r] != trace[base + r]);
    }
    n
}

// The lowest of them.
fn lowest_difference(registers: &[u32; REGISTERS], trace: &[u32], k: usize) -> Option<usize>
    requires { 64 * k + 64 ≤ length trace.now }
    ensures { result ≡ below_64 (lowest_from (unlike registers.now trace.now k) 64 0) }
{
    let base = REGISTERS * k;
    for r in 0..REGISTERS {
        if registers[r] != trace[base + r] {
            return Some(r);
        }
    }
    None
}

// The lowest register that differs after step k; none where none does, or where the trace ends before that step.
#[tactic(auto, unfolding(crate::specs::Trace::difference))]
pub fn difference(registers: &[u32; REGISTERS], trace: &[u32], k: u32) -> Option<usize>
    ensures { result ≡ below_64 (difference registers.now trace.now k) }
{
    let step = k as usize;
    if trace.len() / REGISTERS <= step {
        return None;
    }
    if differing(registers, trace, step) == 0 {
        return None;
    }
    lowest_difference(registers, trace, step)
}
