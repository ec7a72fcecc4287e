// The modifiers of a word.
ghost use Rattle.std.specs.Prelude.{◌≡◌, ◌<◌};
ghost use Rattle.record.specs.Lists.{modifiers_of};
ghost use Rattle.record.specs.Served.Modifiers.{modifier_in, modifiers_in};

use crate::instruction::{MODIFIERS, Modifiers};
use bits::fields::bits_at;

// Modifier j of a word, whose lowest bit is `low`; the widths are its row's.
fn modifier_in(widths: u64, w: u64, low: u64, j: u64) -> u8
    requires { (low < 64) × (j < 14) }
    ensures { result ≡ modifier_in widths w low j }
{
    bits_at(w, low, bits_at(widths, 4 * j, 3)) as u8
}

// The modifiers of a word; the widths are its row's.
pub fn modifiers_in(widths: u64, w: u64) -> Modifiers
    ensures { result ≡ modifiers_of (modifiers_in widths w) }
{
    if widths == 0 {
        return Modifiers::of([0; MODIFIERS]);
    }
    Modifiers {
        m8: modifier_in(widths, w, 8, 0),
        m10: modifier_in(widths, w, 10, 1),
        m11: modifier_in(widths, w, 11, 2),
        m24: modifier_in(widths, w, 24, 3),
        m26: modifier_in(widths, w, 26, 4),
        m28: modifier_in(widths, w, 28, 5),
        m30: modifier_in(widths, w, 30, 6),
        m32: modifier_in(widths, w, 32, 7),
        m34: modifier_in(widths, w, 34, 8),
        m35: modifier_in(widths, w, 35, 9),
        m36: modifier_in(widths, w, 36, 10),
        m37: modifier_in(widths, w, 37, 11),
        m38: modifier_in(widths, w, 38, 12),
        m39: modifier_in(widths, w, 39, 13),
    }
}
