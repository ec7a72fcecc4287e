// A branch offset and its 27 bits, two's complement.
ghost use Rattle.std.specs.Prelude.{◌≡◌, ◌<◌};
ghost use Rattle.record.specs.Instructions.{offset_of, offset_number};

// Offsets are from -HALF to HALF - 1.
const HALF: i32 = 1 << 26;

// How many there are.
const SPAN: i32 = 2 * HALF;

// The offset that 27 bits give.
#[tactic(auto, unfolding(bits::specs::Signed::signed))]
pub fn offset_of(n: u64) -> i32
    requires { n < 134217728 }
    ensures { result ≡ offset_of n }
{
    let z = n as i32;
    if z < HALF { z } else { z - SPAN }
}

// The 27 bits of an offset; a larger number where it is out of range.
#[tactic(auto, unfolding(bits::specs::Signed::unsigned))]
pub fn offset_number(z: i32) -> u64
    ensures { result ≡ offset_number z }
{
    if !(-HALF..HALF).contains(&z) {
        return SPAN as u64;
    }
    if z < 0 { (z + SPAN) as u64 } else { z as u64 }
}
