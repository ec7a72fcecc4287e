// The modifiers of an instruction and of its sources.
ghost use Rattle.std.specs.Prelude.{◌≡◌, ◌*◌, ◌<◌, ◌≤◌, length};
ghost use Rattle.text.specs.Text.{Put};
ghost use Rattle.fieldtext.specs.Enumerations.{value_width};
ghost use Rattle.fieldtext.specs.Served.Coded.{value_list, coded_text, coded_texts};

use crate::values::{Names, put_value};
use record::instruction::MODIFIERS;

// The modifier at a place, if the number of its kind is one of these.
fn put_modifier(
    names: &Names,
    first: u8,
    last: u8,
    kinds: &[u8],
    values: &[u8],
    place: u8,
    out: &mut [u8],
) -> usize
    requires { (names.now ≡ value_list) × (0 < first) × (last < 26) × (length kinds.now ≡ 14) × (length values.now ≡ 14) × (value_width ≤ length out.old) }
    ensures { Put (coded_text first last kinds.now values.now place) out.old out.new result × (result ≤ value_width) }
{
    let at = place as usize;
    if MODIFIERS <= at {
        return 0;
    }
    let kind = kinds[at];
    if kind < first || last < kind {
        return 0;
    }
    put_value(names, kind, values[at], out)
}

// Those at some places, one after another.
pub fn put_modifiers(
    names: &Names,
    first: u8,
    last: u8,
    kinds: &[u8],
    values: &[u8],
    places: &[u8],
    out: &mut [u8],
) -> usize
    requires { (names.now ≡ value_list) × (0 < first) × (last < 26) × (length kinds.now ≡ 14) × (length values.now ≡ 14) × (value_width * length places.now ≤ length out.old) }
    ensures { Put (coded_texts first last kinds.now values.now places.now) out.old out.new result × (result ≤ value_width * length places.now) }
{
    let mut at = 0;
    for place in places.iter() {
        at += put_modifier(names, first, last, kinds, values, *place, &mut out[at..]);
    }
    at
}
