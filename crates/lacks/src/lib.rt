// Which bit of a word is 1 and unassigned, and what its row lacks there.
#![tactic(auto)]

ghost use Rattle.std.specs.Prelude.{◌≡◌, ◌≤◌, length};
ghost use Rattle.rows.specs.Names.{name_of, name_width};
ghost use Rattle.rows.specs.Rows.{rows};
ghost use Rattle.rows.specs.Layout.{find};
ghost use Rattle.text.specs.Text.{Put};
ghost use Rattle.lacks.specs.Lacks.{stray_text, lack_at, lack_text};

use lookup::line_of;
use text::name::put_name;
use text::put::{put_enclosed, put_labelled, put_text};

// The first bits of source 3, of the modifiers above the sources, of the destination, and of what every word has.
const SOURCE_3: u8 = 24;

const MODIFIERS: u8 = 32;

const DESTINATION: u8 = 40;

const OPCODE: u8 = 48;

// The name of the row that a word fits, if there is one.
fn put_row(w: u64, out: &mut [u8]) -> usize
    requires { name_width ≤ length out.old }
    ensures { Put (name_of (find rows 0 w)) out.old out.new result × (result ≤ name_width) }
{
    let names = rows::names::all();
    match line_of(w) {
        Some(l) => put_name(&names, (l.shape >> 48) as usize, out),
        None => 0,
    }
}

#[tactic(auto, unfolding(crate::specs::Lacks::lack_at, rows::specs::Names::ascii))]
fn put_lack(place: u8, out: &mut [u8]) -> usize
    requires { 31 ≤ length out.old }
    ensures { Put (lack_text (lack_at place)) out.old out.new result × (result ≤ 31) }
{
    if place < SOURCE_3 {
        return put_labelled(b"no source ", (place / 8) as u64, 10, 1, out);
    }
    if place < MODIFIERS {
        return put_text(b"neither a source nor a modifier", out);
    }
    if place < DESTINATION {
        return put_text(b"no modifier", out);
    }
    if place < OPCODE {
        return put_text(b"no destination", out);
    }
    put_text(b"nothing", out)
}

pub fn put_stray(w: u64, place: u8, out: &mut [u8]) -> usize
    requires { 80 ≤ length out.old }
    ensures { Put (stray_text w place) out.old out.new result × (result ≤ 80) }
{
    let mut at = put_enclosed(b"bit ", place as u64, 3, b" is 1, where ", out);
    at += put_row(w, &mut out[at..]);
    at += put_text(b" has ", &mut out[at..]);
    at += put_lack(place, &mut out[at..]);
    at
}
