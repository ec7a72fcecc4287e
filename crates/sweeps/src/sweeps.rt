// The sweeps. A note is the set of halves at an index while they go on, a word of 64 bits for the low halves and one for the high; held is
// the paper's word for defined.
ghost use Rattle.std.specs.Prelude.{◌≡◌, not, length, get_or};
ghost use Rattle.bits.specs.Halves.{Half};
ghost use Rattle.safety.specs.Program.{Program};
ghost use Rattle.sweeps.specs.Served.Tracks.{same_sets};
ghost use Rattle.sweeps.specs.Served.Plan.{Sized, Begun, Rested, BothBegun, BothRested, narrow_at, swept_list};

use bits::sets::missing;
use container::layout::MOST_INSTRUCTIONS;

// The plan of one half: for each instruction the registers that it kills, those of which it fills that half, and the two places to which it
// can go on, the length of the lists where there is none. It stays four lists, as they are lent: each is read in its order.
#[derive(Clone, Copy)]
pub struct Plan<'a> {
    kills: &'a [u64],
    fills: &'a [u64],
    falls: &'a [usize],
    jumps: &'a [usize],
}

// Note j, where there is one, narrowed to what is held.
fn narrow(notes: &mut [u64], j: usize, held: u64)
    ensures { notes.new ≡ narrow_at notes.old j held }
{
    if j < notes.len() {
        notes[j] &= held;
    }
}

// Takes over other notes, and tells whether that changed any.
fn take_over(new: &[u64], notes: &mut [u64]) -> bool
    requires { length new.now ≡ length notes.old }
    ensures kept { notes.new ≡ new.now }
    ensures changed { result ≡ not (same_sets (length notes.old) (λ j. get_or new.now j 0) (λ j. get_or notes.old j 0)) }
{
    let changed = *notes != *new;
    notes.copy_from_slice(new);
    changed
}

impl<'a> Plan<'a> {
    // The most sweeps that a program takes.
    pub const MOST_SWEEPS: usize = MOST_INSTRUCTIONS + 1;

    // One sweep: each instruction narrows the notes of those that can follow it, by what it leaves held of its own old note.
    fn sweep(self, old: &[u64], new: &mut [u64])
        requires { Sized self.kills.now self.fills.now self.falls.now self.jumps.now (length old.now) }
        ensures { new.new ≡ swept_list self.entry.kills.now self.entry.fills.now self.entry.falls.now self.entry.jumps.now old.now new.old (length old.now) }
    {
        for i in 0..old.len() {
            let held = missing(old[i], self.kills[i]) | self.fills[i];
            narrow(new, self.falls[i], held);
            narrow(new, self.jumps[i], held);
        }
    }

    // Sweeps until nothing changes, and tells how many sweeps that took. Before and after each, `new` has the same notes as `notes`.
    // No program takes more than the limit.
    fn rest(self, new: &mut [u64], notes: &mut [u64]) -> usize
        requires { Sized self.kills.now self.fills.now self.falls.now self.jumps.now (length notes.old) × (length new.old ≡ length notes.old) }
        ensures { (p : Program) (h : Half) → Begun p h self.entry.kills.now self.entry.fills.now self.entry.falls.now self.entry.jumps.now notes.old → Rested p h result notes.new }
    {
        take_over(notes, new);
        for k in 0..Plan::MOST_SWEEPS {
            self.sweep(notes, new);
            if !take_over(new, notes) {
                return k + 1;
            }
        }
        Plan::MOST_SWEEPS
    }
}

// Sweeps both halves until nothing changes in either, and tells how many sweeps that took. Nothing of one half enters the other, so they
// come to rest one after the other. In version 1, where a set stands for both, the low ones are enough.
pub fn rest(
    version: u64,
    kills: &[u64],
    lows: &[u64],
    highs: &[u64],
    falls: &[usize],
    jumps: &[usize],
    new: &mut [u64],
    low_notes: &mut [u64],
    high_notes: &mut [u64],
) -> usize
    requires { Sized kills.now lows.now falls.now jumps.now (length low_notes.old) × (length highs.now ≡ length low_notes.old) × (length new.old ≡ length low_notes.old) × (length high_notes.old ≡ length low_notes.old) }
    ensures { (p : Program) → p.version ≡ version → BothBegun p kills.now lows.now highs.now falls.now jumps.now low_notes.old high_notes.old → BothRested p result low_notes.new high_notes.new }
{
    let plan = Plan {
        kills,
        fills: lows,
        falls,
        jumps,
    };
    let low = plan.rest(new, low_notes);
    if version == 1 {
        return low;
    }
    let plan = Plan {
        fills: highs,
        ..plan
    };
    let high = plan.rest(new, high_notes);
    low.max(high)
}
