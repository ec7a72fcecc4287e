// A set of halves of registers as text.
#![tactic(auto)]

ghost use Rattle.std.specs.Prelude.{◌≡◌, ◌++◌, ◌+◌, ◌<◌, ◌≤◌, length};
ghost use Rattle.bits.specs.Sets.{lowest as lowest_of};
ghost use Rattle.bits.specs.Halves.{either as either_of};
ghost use Rattle.text.specs.Text.{number_text, Put};
ghost use Rattle.registertext.specs.Registers.{mask_at, mask_letter, same_before, same_after, member_text, registers_text, longest_registers};

use bits::fields::bits_at;
use bits::halves::{Halves, either};
use bits::sets::lowest;
use text::put::{put_byte, put_labelled, put_text};

const REGISTERS: u64 = 64;

// No set has more bytes as text.
pub const LONGEST: usize = 5 * REGISTERS as usize;

// Which halves of register r are in a set.
#[tactic(auto, unfolding(crate::specs::Registers::mask_at))]
fn mask_at(s: Halves, r: u64) -> u64
    requires { r < 64 }
    ensures { result ≡ mask_at s r }
{
    bits_at(s.low, r, 1) + 2 * bits_at(s.high, r, 1)
}

// Whether the register before r has the same.
fn same_before(s: Halves, r: u64) -> bool
    requires { r < 64 }
    ensures { result ≡ same_before s r }
{
    r != 0 && mask_at(s, r - 1) == mask_at(s, r)
}

// Whether the one after it has.
fn same_after(s: Halves, r: u64) -> bool
    requires { r < 64 }
    ensures { result ≡ same_after s r }
{
    r < REGISTERS - 1 && mask_at(s, r + 1) == mask_at(s, r)
}

// The letter where there is only one half. A mask can also say both, as the half of a verdict can not.
#[tactic(auto, unfolding(crate::specs::Registers::mask_letter, rows::specs::Names::ascii))]
fn put_letter(mask: u64, out: &mut [u8]) -> usize
    requires { 1 ≤ length out.old }
    ensures { Put (mask_letter mask) out.old out.new result × (result ≤ 1) }
{
    match mask {
        1 => put_byte(b'L', out),
        2 => put_byte(b'H', out),
        _ => 0,
    }
}

// A text, a register's number and the letter of its half.
fn put_register(label: &[u8], r: u64, mask: u64, out: &mut [u8]) -> usize
    requires { length label.now + 3 ≤ length out.old }
    ensures { Put (label.now ++ number_text 10 2 r ++ mask_letter mask) out.old out.new result × (result ≤ length label.now + 3) }
{
    let at = put_labelled(label, r, 10, 2, out);
    at + put_letter(mask, &mut out[at..])
}

// What register r adds to the text of a set whose lowest register is `low`.
#[tactic(auto, unfolding(crate::specs::Registers::member_text, rows::specs::Names::ascii))]
fn put_member(s: Halves, low: u32, r: u64, out: &mut [u8]) -> usize
    requires { (low ≡ lowest_of (either_of s)) × (r < 64) × (5 ≤ length out.old) }
    ensures { Put (member_text s r) out.old out.new result × (result ≤ 5) }
{
    let mask = mask_at(s, r);
    if mask == 0 {
        return 0;
    }
    if same_before(s, r) {
        if same_after(s, r) {
            return 0;
        }
        return put_register(b"-r", r, mask, out);
    }
    if r == low as u64 {
        return put_register(b"r", r, mask, out);
    }
    put_register(b",r", r, mask, out)
}

pub fn put_registers(s: Halves, out: &mut [u8]) -> usize
    requires { longest_registers ≤ length out.old }
    ensures { Put (registers_text s) out.old out.new result × (result ≤ longest_registers) }
{
    let any = either(s);
    if any == 0 {
        return put_text(b"none", out);
    }
    let low = lowest(any);
    let mut at = 0;
    for r in 0..REGISTERS {
        at += put_member(s, low, r, &mut out[at..]);
    }
    at
}
