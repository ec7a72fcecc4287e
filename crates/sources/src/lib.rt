// What source bytes mean, and which of them are legal.
#![tactic(auto)]

ghost use Rattle.std.specs.Prelude.{◌≡◌, not, ◌<◌};
ghost use Rattle.sources.specs.SourceMeaning.{source_meaning};
ghost use Rattle.rows.specs.Sources.{is_reserved, special_at, pair_meaning, constant_meaning, meaning, source_legal};
ghost use Rattle.rows.specs.Served.Table.{page_word};

use bits::fields::bits_at;

// What a source byte means.
#[derive(Clone, Copy, Debug, PartialEq, Eq)]
pub enum Source {
    // A register, read plainly.
    Read(u8),
    // A register, read for the last time and released.
    Released(u8),
    // A uniform, by its number.
    Uniform(u16),
    // An immediate, by its value.
    Immediate(u32),
    // The low and the high word of a special constant, by its number in the page's enumeration.
    SpecialLow(u8),
    SpecialHigh(u8),
    // No legal source.
    Refused,
}

// The values of the immediates, entries 0 to 31 of the constants.
const IMMEDIATES: [u32; 32] = [
    0x00000000, 0xFFFFFFFF, 0x7FFFFFFF, 0xFAFCFDFE, 0x01000000, 0x80002000, 0x70605030, 0xC0B0A090,
    0x03020100, 0x07060504, 0x0B0A0908, 0x0F0E0D0C, 0x13121110, 0x17161514, 0x1B1A1918, 0x1F1E1D1C,
    0x3F800000, 0x3DCCCCCD, 0x3EA2F983, 0x3F317218, 0x40490FDB, 0x00000000, 0x477FFF00, 0x5C005BF8,
    0x2E660000, 0x34000000, 0x38000000, 0x3C000000, 0x40000000, 0x44000000, 0x48000000, 0x42480000,
];

// The values of a page's enumeration that are not reserved, as a set: bit i for value i. A `match`, since a constant array that is indexed at
// run time is stored anew at each call, and each word read asks here.
fn specials(page: u64) -> u64
    ensures { result ≡ page_word page }
{
    match page {
        0 => 0xFF74,
        1 => 0x008A,
        3 => 0x800A,
        _ => 0x0000,
    }
}

// Whether value i of a page's enumeration is a special constant and not reserved.
fn is_special(page: u64, i: u64) -> bool
    requires { i < 16 }
    ensures { result ≡ not (is_reserved (special_at page i)) }
{
    bits_at(specials(page), i, 1) == 1
}

// Is a source byte legal on a page?
pub fn source_ok(page: u64, b: u64) -> bool
    requires { b < 256 }
    ensures { result ≡ source_legal page b }
{
    if b < 224 {
        return true;
    }
    is_special(page, (b - 224) / 2)
}

// What entry 32 + d of the constants means on a page.
fn pair_entry(page: u8, d: u8) -> Source
    requires { d < 32 }
    ensures { source_meaning page result ≡ pair_meaning page d }
{
    let i = d / 2;
    if !is_special(u64::from(page), u64::from(i)) {
        return Source::Refused;
    }
    if d % 2 == 0 {
        Source::SpecialLow(i)
    } else {
        Source::SpecialHigh(i)
    }
}

// What entry e of the constants means on a page.
fn constant(page: u8, e: u8) -> Source
    requires { e < 64 }
    ensures { source_meaning page result ≡ constant_meaning page e }
{
    if e < 32 {
        return Source::Immediate(IMMEDIATES[usize::from(e)]);
    }
    pair_entry(page, e - 32)
}

// What a source byte means on a page.
pub fn meaning(page: u8, b: u8) -> Source
    ensures { source_meaning page result ≡ meaning page b }
{
    if b < 64 {
        return Source::Read(b);
    }
    if b < 128 {
        return Source::Released(b - 64);
    }
    if b < 192 {
        return Source::Uniform(u16::from(b - 128) + 64 * u16::from(page));
    }
    constant(page, b - 192)
}
