// The rows on whole numbers.
#![tactic(auto)]

ghost use Rattle.std.specs.Prelude.{◌≡◌, ◌*◌, ◌/◌, ◌%◌, ◌^◌, ◌<◌};
ghost use Rattle.std.specs.Int.Bits.{bit_and, bit_or};
ghost use Rattle.ops.specs.Rows.{complement, clz, popcount, bitrev, passes, mux, jumps};

// NOT_OLD.i32
pub fn complement(x: u32) -> u32
    ensures { result ≡ complement x }
{
    !x
}

// CLZ.u32
pub fn clz(x: u32) -> u32
    ensures { result ≡ clz x }
{
    x.leading_zeros()
}

// POPCOUNT.i32
pub fn popcount(x: u32) -> u32
    ensures { result ≡ popcount x }
{
    x.count_ones()
}

// In each run of 2 s bits of x the lower s and the upper s change places; m has a 1 for each of the lower ones.
fn exchanged(s: u32, m: u32, x: u32) -> u32
    requires { s < 32 }
    ensures { result ≡ bit_or (bit_and (x / 2 ^ s) m) (bit_and x m * 2 ^ s % 2 ^ 32) }
{
    ((x >> s) & m) | ((x & m) << s)
}

// BITREV.i32: the halves change places, then the halves of each, and so on down to single bits. These are five steps; std's `reverse_bits` goes
// bit by bit, in 32.
pub fn bitrev(x: u32) -> u32
    ensures { result ≡ bitrev x }
{
    let a = exchanged(16, 0x0000_FFFF, x);
    let b = exchanged(8, 0x00FF_00FF, a);
    let c = exchanged(4, 0x0F0F_0F0F, b);
    let d = exchanged(2, 0x3333_3333, c);
    exchanged(1, 0x5555_5555, d)
}

// The condition of MUX.i32 on its mask, in the modes that choose a whole number.
fn passes(mode: u8, m: u32) -> bool
    ensures { result ≡ passes mode m }
{
    match mode {
        0 => m >= 0x8000_0000,
        1 => m == 0,
        _ => m % 0x8000_0000 == 0,
    }
}

// MUX.i32
#[tactic(auto, unfolding(crate::specs::Rows::mux))]
pub fn mux(mode: u8, a: u32, b: u32, m: u32) -> u32
    ensures { result ≡ mux mode a b m }
{
    if mode == 3 {
        (a & m) | (b & !m)
    } else if passes(mode, m) {
        a
    } else {
        b
    }
}

// Whether BRANCHZ jumps on a source.
#[tactic(auto, unfolding(crate::specs::Rows::jumps))]
pub fn jumps(eq: bool, s: u32) -> bool
    ensures { result ≡ jumps eq s }
{
    if eq { s == 0 } else { s != 0 }
}
