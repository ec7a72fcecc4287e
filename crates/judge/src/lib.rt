// What a word gets, judged by the line of the row that it fits. It is compared with no other line.
#![tactic(auto)]

ghost use Rattle.std.specs.Prelude.{◌≡◌, true, ℕ, ◌+◌, ◌*◌, ◌/◌, ◌<◌};
ghost use Rattle.std.specs.Int.Bits.{bit_and};
ghost use Rattle.bits.specs.Fields.{bits};
ghost use Rattle.bits.specs.Sets.{has};
ghost use Rattle.rows.specs.Rows.{rows};
ghost use Rattle.rows.specs.Layout.{find};
ghost use Rattle.reading.specs.Reader.{lowest_stray};
ghost use Rattle.reasons.specs.Numbers.{number_of};
ghost use Rattle.judge.specs.Served.Judge.{refused, judged_sources, Fitted, Judges};
ghost use Rattle.judge.specs.Served.Windows.{modifiers_ok, refused_modifier};

use bits::fields::bits_at;
use bits::sets::{lowest, missing};
use lookup::{Line, line_of};
use reasons::Reason;
use record::answer::Refusal;
use sources::source_ok;

// What is known of a word that reads: its row's shape, with the row number from bit 48 up; its sources; the widths of its row's modifiers.
#[derive(Clone, Copy, Debug, PartialEq, Eq)]
pub struct Fit {
    pub shape: u64,
    pub sources: u64,
    pub modifiers: u64,
}

// The half mask that names no half, which is refused.
const NO_HALF: u64 = 0;

// The flows that are not reserved.
const FLOWS: u64 = 0xA7FF;

fn refuse(reason: Reason, place: u8) -> Result<Fit, Refusal>
    ensures { result ≡ refused (number_of reason) place }
{
    let number = reason.number();
    Err(Refusal { number, place })
}

// Whether a set has v.
fn has(set: u64, v: u64) -> bool
    requires { v < 64 }
    ensures { result ≡ has set v }
{
    bits_at(set, v, 1) == 1
}

// Whether each of the four lowest bytes is below 224: not all of its three highest bits are 1.
fn all_low(v: u64) -> bool
    ensures { result ≡ true → (j : ℕ) → j < 4 → bits v (8 * j) 8 < 224 }
{
    v & (v / 2) & (v / 4) & 0x20202020 == 0
}

// Whether no modifier of a word is illegal.
fn modifiers_ok(l: Line, w: u64) -> bool
    ensures { result ≡ modifiers_ok l.limits l.pairs w }
{
    if has(l.limits, bits_at(w, 26, 4)) {
        return false;
    }
    if has(l.limits, 16 + bits_at(w, 36, 4)) {
        return false;
    }
    w & (w / 2) & l.pairs == 0
}

// The refusal of a word of which a modifier is illegal: of the lowest.
fn refuse_modifier(l: Line, w: u64) -> Result<Fit, Refusal>
    ensures { result ≡ refused_modifier l.limits l.modifiers l.pairs w }
{
    let low = bits_at(w, 26, 4);
    let high = bits_at(w, 36, 4);
    let both = w & (w / 2) & l.pairs;
    if bits_at(both, 8, 1) == 1 {
        return refuse(Reason::IllegalModifier, 8);
    }
    if has(l.limits, bits_at(low, 0, bits_at(l.modifiers, 16, 3))) {
        return refuse(Reason::IllegalModifier, 26);
    }
    if has(l.limits, low) {
        return refuse(Reason::IllegalModifier, 28);
    }
    if both != 0 {
        return refuse(Reason::IllegalModifier, 32);
    }
    if has(l.limits, 16 + bits_at(high, 0, bits_at(l.modifiers, 40, 3))) {
        return refuse(Reason::IllegalModifier, 36);
    }
    refuse(Reason::IllegalModifier, 37)
}

// The refusal of the first source that isn't legal on the word's page, else what is known.
fn judge_sources(f: Fit, w: u64) -> Result<Fit, Refusal>
    ensures { result ≡ judged_sources f w }
{
    let page = bits_at(w, 57, 2);
    for j in 0..4 {
        if !source_ok(page, bits_at(f.sources, 8 * j, 8)) {
            return refuse(Reason::IllegalSource, j as u8);
        }
    }
    Ok(f)
}

// What a word gets whose row and bits are right: the first of the refusals 4 to 7, or what is known of it.
fn judge_fields(l: Line, w: u64) -> Result<Fit, Refusal>
    requires { Fitted w l × (bit_and w l.fixed_bits ≡ l.fixed) }
    ensures { Judges w result }
{
    if !has(FLOWS, bits_at(w, 59, 4)) {
        return refuse(Reason::ReservedFlow, 0);
    }
    if bits_at(w | l.shape, 46, 2) == NO_HALF {
        return refuse(Reason::NoHalf, 0);
    }
    if !modifiers_ok(l, w) {
        return refuse_modifier(l, w);
    }
    let s = (w & l.shape) % 4294967296;
    let f = Fit {
        shape: l.shape,
        sources: s,
        modifiers: l.modifiers,
    };
    if all_low(s) {
        return Ok(f);
    }
    judge_sources(f, w)
}

// The lowest bit of a word that is 1 and that its row leaves unassigned: among the bits that the row fixes, the lowest that is 1 in the word and
// not in the row. It is asked only where there is one.
fn lowest_stray(l: Line, w: u64) -> u8
    requires { Fitted w l }
    ensures { result ≡ lowest_stray (find rows 0 w) w }
{
    lowest(missing(w & l.fixed_bits, l.fixed)) as u8
}

// What a word gets: the first of the refusals 2 to 7, or what is known of it.
pub fn judge_word(w: u64) -> Result<Fit, Refusal>
    ensures { Judges w result }
{
    let Some(l) = line_of(w) else {
        return refuse(Reason::NoRow, 0);
    };
    if w & l.fixed_bits == l.fixed {
        return judge_fields(l, w);
    }
    refuse(Reason::StrayBit, lowest_stray(l, w))
}
