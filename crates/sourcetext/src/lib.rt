// A source of an instruction: what its byte means, its signs, and its swizzle.
#![tactic(auto)]

ghost use Rattle.std.specs.Prelude.{◌≡◌, ◌++◌, ◌+◌, ◌≤◌, length};
ghost use Rattle.rows.specs.Sources.{special_at, meaning as meaning_of};
ghost use Rattle.text.specs.Text.{Put};
ghost use Rattle.fieldtext.specs.Enumerations.{special_text, special_width};
ghost use Rattle.fieldtext.specs.Served.Coded.{value_list};
ghost use Rattle.sourcetext.specs.SourceText.{meaning_text, longest_source};
ghost use Rattle.sourcetext.specs.Served.SourcePlaces.{sign_places, swizzle_places, coded_source};

use fieldtext::modifiers::put_modifiers;
use fieldtext::specials::put_special;
use fieldtext::values::{Kind, Names};
use sources::{Source, meaning};
use text::put::{put_labelled, put_text};

// A word of a special constant.
fn put_part(page: u8, i: u8, part: &[u8], out: &mut [u8]) -> usize
    requires { special_width + length part.now ≤ length out.old }
    ensures { Put (special_text (special_at page i) ++ part.now) out.old out.new result × (result ≤ special_width + length part.now) }
{
    let at = put_special(page, i, out);
    at + put_text(part, &mut out[at..])
}

// What a source byte means.
#[tactic(auto, unfolding(rows::specs::Names::ascii))]
fn put_meaning(page: u8, byte: u8, out: &mut [u8]) -> usize
    requires { special_width + 3 ≤ length out.old }
    ensures { Put (meaning_text (meaning_of page byte)) out.old out.new result × (result ≤ special_width + 3) }
{
    match meaning(page, byte) {
        Source::Read(r) => put_labelled(b"r", r as u64, 10, 3, out),
        Source::Released(r) => put_labelled(b"^r", r as u64, 10, 3, out),
        Source::Uniform(u) => put_labelled(b"u", u as u64, 10, 5, out),
        Source::Immediate(v) => put_labelled(b"0x", v as u64, 16, 8, out),
        Source::SpecialLow(i) => put_part(page, i, b".w0", out),
        Source::SpecialHigh(i) => put_part(page, i, b".w1", out),
        Source::Refused => put_text(b"?", out),
    }
}

// Which modifiers are negate and absolute of source k.
fn sign_places(k: usize) -> [u8; 2]
    ensures { result ≡ sign_places k }
{
    match k {
        0 => [12, 13],
        1 => [10, 11],
        2 => [8, 9],
        _ => [14, 14],
    }
}

// Which can be its swizzle.
fn swizzle_places(k: usize) -> [u8; 3]
    ensures { result ≡ swizzle_places k }
{
    match k {
        0 => [5, 10, 11],
        1 => [4, 14, 14],
        2 => [3, 14, 14],
        _ => [14, 14, 14],
    }
}

// Source k, whose byte is given, of an instruction with modifiers of these kinds and values.
pub fn put_source(
    names: &Names,
    kinds: &[u8],
    values: &[u8],
    page: u8,
    byte: u8,
    k: usize,
    out: &mut [u8],
) -> usize
    requires { (names.now ≡ value_list) × (length kinds.now ≡ 14) × (length values.now ≡ 14) × (longest_source ≤ length out.old) }
    ensures { Put (coded_source kinds.now values.now page byte k) out.old out.new result × (result ≤ longest_source) }
{
    let signs = sign_places(k);
    let swizzles = swizzle_places(k);
    let mut at = put_meaning(page, byte, out);
    at += put_modifiers(
        names,
        Kind::Negate as u8,
        Kind::Absolute as u8,
        kinds,
        values,
        &signs,
        &mut out[at..],
    );
    at += put_modifiers(
        names,
        Kind::Widen as u8,
        Kind::Combine as u8,
        kinds,
        values,
        &swizzles,
        &mut out[at..],
    );
    at
}
