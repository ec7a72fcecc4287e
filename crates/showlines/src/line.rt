// The lines for the words of a program.
ghost use Rattle.std.specs.Prelude.{◌≡◌, [], ◌∷◌, ◌++◌, ◌*◌, ◌<◌, ◌≤◌, length};
ghost use Rattle.container.specs.Formats.{most_instructions};
ghost use Rattle.rows.specs.Names.{ascii};
ghost use Rattle.safety.specs.Program.{Worded};
ghost use Rattle.text.specs.Text.{decimal, hex, Put};
ghost use Rattle.wordtext.specs.Columns.{column_of, longest_column};
ghost use Rattle.showlines.specs.Lines.{number_in, widest, padded, mark_text, line_text, longest_line};

use bits::bytes::load64;
use bits::halves::Halves;
use container::layout::WORD_LENGTH;
use registertext::put_registers;
use text::put::{put_byte, put_digits, put_spaces, put_text};
use wordtext::column::put_column;

const TITLE: usize = 11;

// The most bytes that a line has.
pub const LONGEST: usize = 1
    + 4
    + 2
    + 16
    + 2
    + wordtext::column::LONGEST
    + 2
    + registertext::LONGEST
    + 1;

// The word at index i of n words.
pub fn number_at(bytes: &[u8], n: usize, i: usize) -> u64
    requires { (length bytes.now ≡ 8 * n) × (n ≤ most_instructions) × (i < n) }
    ensures { result ≡ number_in bytes.now i }
{
    let start = WORD_LENGTH * i;
    load64(&bytes[start..start + WORD_LENGTH])
}

// The width of the column for the text of instructions.
pub fn widest(words: &[u8], n: usize) -> usize
    requires { Worded words.now n }
    ensures { (result ≡ widest words.now n n) × (result ≤ longest_column) }
{
    let mut column = [0u8; wordtext::column::LONGEST];
    let mut most = TITLE;
    for i in 0..n {
        most = most.max(put_column(n, i, number_at(words, n, i), &mut column));
    }
    most
}

// What stands for the word w at index i of n, in its column.
fn put_wide(n: usize, i: usize, w: u64, width: usize, out: &mut [u8]) -> usize
    requires { (width ≤ longest_column) × (longest_column ≤ length out.old) }
    ensures { Put (padded width (column_of n i w)) out.old out.new result × (result ≤ longest_column) }
{
    let at = put_column(n, i, w, out);
    at + put_spaces(width.saturating_sub(at), &mut out[at..])
}

#[tactic(auto, unfolding(rows::specs::Names::ascii))]
fn mark_byte(mark: bool) -> u8
    ensures { (result ∷ []) ≡ mark_text mark }
{
    if mark { b'>' } else { b' ' }
}

// The mark, the index, the word.
fn put_front(mark: bool, i: usize, w: u64, out: &mut [u8]) -> usize
    requires { 25 ≤ length out.old }
    ensures { Put (mark_text mark ++ decimal 4 i ++ ascii "  " ++ hex 16 w ++ ascii "  ") out.old out.new result × (result ≤ 25) }
{
    let mut at = put_byte(mark_byte(mark), out);
    at += put_digits(i as u64, 10, 4, &mut out[at..]);
    at += put_text(b"  ", &mut out[at..]);
    at += put_digits(w, 16, 16, &mut out[at..]);
    at += put_text(b"  ", &mut out[at..]);
    at
}

// The line of the word w at index i of n, with its note.
pub fn put_line(
    mark: bool,
    n: usize,
    width: usize,
    i: usize,
    w: u64,
    note: Halves,
    out: &mut [u8],
) -> usize
    requires { (width ≤ longest_column) × (longest_line ≤ length out.old) }
    ensures { Put (line_text mark n width i w note) out.old out.new result × (result ≤ longest_line) }
{
    let mut at = put_front(mark, i, w, out);
    at += put_wide(n, i, w, width, &mut out[at..]);
    at += put_text(b"  ", &mut out[at..]);
    at += put_registers(note, &mut out[at..]);
    at += put_byte(b'\n', &mut out[at..]);
    at
}
