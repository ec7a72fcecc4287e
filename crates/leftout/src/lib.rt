// The name that 002 has for the instruction of a word, where the scope leaves it out.
#![tactic(auto)]

mod table;

ghost use Rattle.std.specs.Prelude.{◌≡◌, ◌≤◌, length, position};
ghost use Rattle.text.specs.Text.{Put};
ghost use Rattle.leftout.specs.Omitted.{longest_omitted};
ghost use Rattle.leftout.specs.LeftOut.{left_out};
ghost use Rattle.leftout.specs.Served.Tables.{key_fits, key_table, before_filling, unfilled};

use text::put::put_text;

// The most bytes that a name has.
pub const LONGEST: usize = table::LONGEST;

// The number of the first that a word fits.
fn first_fit(w: u64) -> Option<usize>
    ensures { result ≡ position (λ key. key_fits key w) key_table }
{
    table::keys().iter().position(|key| table::fits(*key, w))
}

// How many bytes stand before the spaces at the end.
fn before_filling(s: &[u8]) -> usize
    ensures { (result ≡ before_filling s.now) × (result ≤ length s.now) }
{
    for n in (0..s.len()).rev() {
        if s[n] != b' ' {
            return n + 1;
        }
    }
    0
}

// A text that is filled with spaces, without them.
fn put_unfilled(s: &[u8], out: &mut [u8]) -> usize
    requires { length s.now ≤ length out.old }
    ensures { Put (unfilled s.now) out.old out.new result × (result ≤ length s.now) }
{
    let n = before_filling(s);
    put_text(&s[..n], out)
}

// The name of a word; nothing where it has none.
pub fn put_left_out(w: u64, out: &mut [u8]) -> usize
    requires { longest_omitted ≤ length out.old }
    ensures { Put (left_out w) out.old out.new result × (result ≤ longest_omitted) }
{
    let Some(k) = first_fit(w) else {
        return 0;
    };
    let names = table::names();
    let at = k * LONGEST;
    put_unfilled(&names[at..at + LONGEST], out)
}
