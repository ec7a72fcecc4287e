// What the calls from C answer: the numbers and the texts, what the header promises of them, and refusals as one number.
#![tactic(auto)]

ghost use Rattle.std.specs.Prelude.{◌≡◌, ◌<◌, ◌≤◌};
ghost use Rattle.codes.specs.Codes.{code, half_number, packed, unread_code};

use differences::answer::{Side, Unread};
use record::answer::Refusal;
use safety::verdict::{Finding, Reported};

// A refusal as one number: number + 2^8 place.
pub fn refusal_code(f: Refusal) -> u32
    ensures { result ≡ code f }
{
    u32::from(f.number) + (u32::from(f.place) << 8)
}

// A half as C's number.
fn half_number(half: Reported) -> u64
    ensures { (result ≡ half_number half) × (result ≤ 2) }
{
    match half {
        Reported::Neither => 0,
        Reported::Low => 1,
        Reported::High => 2,
    }
}

// A finding as one number: number + 2^8 place + 2^16 index + 2^32 register + 2^40 half.
pub fn finding_code(f: Finding) -> u64
    requires { (f.index < 65536) × (f.register < 256) }
    ensures { (result ≡ packed f) × (result < 281474976710656) }
{
    let low = f.number as u64 + ((f.place as u64) << 8) + ((f.index as u64) << 16);
    low + ((f.register as u64) << 32) + (half_number(f.half) << 40)
}

// A container that cannot be compared as one number: the finding, and 2^48 for the first or 2^49 for the second.
pub fn unread_code(u: Unread) -> u64
    requires { (u.finding.index < 65536) × (u.finding.register < 256) }
    ensures { result ≡ unread_code u }
{
    match u.side {
        Side::First => finding_code(u.finding) + (1 << 48),
        Side::Second => finding_code(u.finding) + (2 << 48),
    }
}
