// What an instruction does to registers, and where it goes. Sets are made by arithmetic with 0 and 1: whether a source is a register can't
// be foretold, and a branch on it would cost more.
ghost use Rattle.std.specs.Prelude.{◌≡◌, ◌&&◌, ◌≤◌, ◌<◌, ◌^◌, ◌%◌, ◌/◌, ◌*◌, ltb};
ghost use Rattle.bits.specs.Fields.{choose};
ghost use Rattle.rows.specs.Rows.{row_of};
ghost use Rattle.record.specs.Served.Counts.{counts_at};
ghost use Rattle.record.specs.Registers.{reads_register, reads, kills, defines, writes, ends, branches};

use crate::instruction::Instruction;
use bits::fields::bits_at;
use bits::halves::Halves;
use bits::sets::single;

// The row of the branch.
const BRANCH_ROW: u8 = 1;

// The first row that has a destination; so have all after it.
const FIRST_DESTINATION: u8 = 3;

// The flow after which nothing follows.
const END: u8 = 15;

// The half mask of both halves.
const FULL: u8 = 3;

// The registers that an instruction reads, and those of them that it releases.
#[derive(Clone, Copy, Debug, PartialEq, Eq)]
pub struct Uses {
    pub reads: u64,
    pub kills: u64,
}

// How many sources sixteen rows have, four bits each. A `match`, since a constant array that is indexed at run time is stored anew at each call.
fn counts(rows: u8) -> u64
    ensures { result ≡ counts_at rows }
{
    match rows {
        0 => 0x1111111111144210,
        1 => 0x1111111111111111,
        2 => 0x1111111111111111,
        3 => 0x3333333332211111,
        4 => 0x0003333333333333,
        _ => 0,
    }
}

// How many sources a row has.
pub fn source_count(row: u8) -> u64
    ensures { (result ≡ (row_of row).sources) × (result ≤ 4) }
{
    bits_at(counts(row / 16), u64::from(row % 16) * 4, 4)
}

// Whether a row has a destination.
pub fn has_destination(row: u8) -> bool
    ensures { result ≡ (row_of row).destination }
{
    FIRST_DESTINATION <= row && usize::from(row) < Instruction::ROWS
}

// The register that source j of so many reads, as a set: a byte below 128 reads one.
fn read_set(count: u64, j: u64, source: u8) -> u64
    requires { (count ≤ 4) × (j < 4) }
    ensures { result ≡ choose (ltb j count && reads_register source) (2 ^ (source % 64)) 0 }
{
    ((count + 3 - j) / 4 * (1 - u64::from(source) / 128)) << (source % 64)
}

// Of the register that a source reads, what it releases: all where its byte is from 64 up.
fn kill_set(read: u64, source: u8) -> u64
    ensures { result ≡ read * (source / 64 % 2) }
{
    read * (u64::from(source) / 64 % 2)
}

// A set, or the empty one.
fn set_if(t: bool, s: u64) -> u64
    ensures { result ≡ choose t s 0 }
{
    if t { s } else { 0 }
}

impl Instruction {
    // The registers that it reads, and those that it releases. Source by source, since only a row of four needs a look at the fourth; inlined,
    // so that it is part of the check's loop.
    #[inline(always)]
    pub fn uses(self) -> Uses
        ensures { (result.reads ≡ reads self) × (result.kills ≡ kills self) }
    {
        let n = source_count(self.row);
        let s = self.sources;
        let r0 = read_set(n, 0, s.s0);
        let r1 = read_set(n, 1, s.s1);
        let r2 = read_set(n, 2, s.s2);
        let reads = r0 | r1 | r2;
        let kills = kill_set(r0, s.s0) | kill_set(r1, s.s1) | kill_set(r2, s.s2);
        if n < 4 {
            return Uses { reads, kills };
        }
        let r3 = read_set(n, 3, s.s3);
        Uses {
            reads: reads | r3,
            kills: kills | kill_set(r3, s.s3),
        }
    }

    // Those that it releases, alone, for the maker, which does not ask what is read. `uses` is left to the check.
    pub fn kills(self) -> u64
        ensures { result ≡ kills self }
    {
        let n = source_count(self.row);
        let s = self.sources;
        let k0 = kill_set(read_set(n, 0, s.s0), s.s0);
        let k1 = kill_set(read_set(n, 1, s.s1), s.s1);
        let k2 = kill_set(read_set(n, 2, s.s2), s.s2);
        let k3 = kill_set(read_set(n, 3, s.s3), s.s3);
        k0 | k1 | k2 | k3
    }

    // The register that it fully writes, if there is one.
    #[tactic(auto, using(crate::proofs::RegisterLaws::no_destination, crate::proofs::RegisterLaws::half_write, crate::proofs::RegisterLaws::full_write))]
    pub fn defines(self) -> u64
        ensures { result ≡ defines self }
    {
        if has_destination(self.row) && self.half_mask == FULL {
            single(self.register)
        } else {
            0
        }
    }

    // The halves of its destination that it writes, if it has one.
    pub fn writes(self) -> Halves
        ensures { result ≡ writes self }
    {
        let s = set_if(has_destination(self.row), single(self.register));
        let mask = self.half_mask;
        Halves {
            low: set_if(mask % 2 == 1, s),
            high: set_if(mask / 2 % 2 == 1, s),
        }
    }

    // Whether its flow is `end`.
    pub fn ends(self) -> bool
        ensures { result ≡ ends self }
    {
        self.flow == END
    }

    // Whether it is a branch.
    pub fn branches(self) -> bool
        ensures { result ≡ branches self }
    {
        self.row == BRANCH_ROW
    }
}
