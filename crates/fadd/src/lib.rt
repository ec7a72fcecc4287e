// FADD.f32 on bit patterns, for every pattern.
#![tactic(auto)]

ghost use Rattle.std.specs.Prelude.{◌≡◌};
ghost use Rattle.std.specs.Float.{binary32};
ghost use Rattle.std.specs.Float.Ieee.{of_bits};
ghost use Rattle.fadd.specs.Single.{cleared, flipped, lower, upper, larger, smaller, clamped, recorded, sum, fadd};

// A source's bits without their sign, where absolute is asked for.
#[tactic(auto, unfolding(crate::specs::Single::cleared))]
fn cleared(absolute: bool, b: u32) -> u32
    ensures { result ≡ cleared absolute b }
{
    if absolute { b % 0x8000_0000 } else { b }
}

// A source's bits with the other sign, where negate is asked for.
#[tactic(auto, using(crate::proofs::Signs::flip_sign), unfolding(crate::specs::Single::flipped))]
fn flipped(negate: bool, b: u32) -> u32
    ensures { result ≡ flipped negate b }
{
    if negate { b ^ 0x8000_0000 } else { b }
}

// The number that a pattern stands for. `from_bits` is not defined at a pattern of a not-a-number.
fn float_of(b: u32) -> f32
    ensures { result ≡ of_bits binary32 b }
{
    if b % 0x8000_0000 > 0x7F80_0000 {
        f32::NAN
    } else {
        f32::from_bits(b)
    }
}

// The pattern that is recorded of a number. `to_bits` is not defined at a not-a-number.
fn bits_of(x: f32) -> u32
    ensures { result ≡ recorded x }
{
    if x.is_nan() { 0x7FC0_0000 } else { x.to_bits() }
}

// The lower bound of a clamp other than none.
fn lower(c: u8) -> f32
    ensures { result ≡ lower c }
{
    if c == 2 { -1.0 } else { 0.0 }
}

// Its upper bound.
fn upper(c: u8) -> f32
    ensures { result ≡ upper c }
{
    if c == 1 { f32::INFINITY } else { 1.0 }
}

// x, or the bound where x is not above it. `f32::max` leaves open which of two zeros it gives; here -0 is not above 0.
#[tactic(auto, unfolding(crate::specs::Single::larger))]
fn larger(x: f32, l: f32) -> f32
    ensures { result ≡ larger x l }
{
    if l < x { x } else { l }
}

// x, or the bound where x is not below it, by `<` as above.
#[tactic(auto, unfolding(crate::specs::Single::smaller))]
fn smaller(x: f32, h: f32) -> f32
    ensures { result ≡ smaller x h }
{
    if x < h { x } else { h }
}

// x between the bounds of a clamp, and x itself for none.
#[tactic(auto, unfolding(crate::specs::Single::clamped))]
fn clamped(c: u8, x: f32) -> f32
    ensures { result ≡ clamped c x }
{
    if c == 0 {
        x
    } else {
        smaller(larger(x, lower(c)), upper(c))
    }
}

// The clamped sum of two sources, as their modifiers leave them.
#[tactic(auto, unfolding(crate::specs::Single::sum))]
fn sum(c: u8, a: u32, b: u32) -> u32
    ensures { result ≡ sum c a b }
{
    let s = float_of(a) + float_of(b);
    bits_of(clamped(c, s))
}

// What FADD.f32 leaves in its destination: n0 and a0 are negate and absolute of source 0, whose pattern is a; n1 and a1 those of source 1.
#[tactic(auto, unfolding(crate::specs::Single::fadd))]
pub fn fadd(n0: bool, a0: bool, n1: bool, a1: bool, clamp: u8, a: u32, b: u32) -> u32
    ensures { result ≡ fadd n0 a0 n1 a1 clamp a b }
{
    let x = flipped(n0, cleared(a0, a));
    let y = flipped(n1, cleared(a1, b));
    sum(clamp, x, y)
}
