// A program line by line, with the line above that names the columns.
ghost use Rattle.std.specs.Prelude.{◌≡◌, [], ◌++◌, ◌+◌, ◌*◌, ◌<◌, ◌≤◌, eqb, length};
ghost use Rattle.bits.specs.Fields.{choose};
ghost use Rattle.safety.specs.Program.{Worded, Annotated};
ghost use Rattle.safety.specs.Verdict.{verdict_outcome};
ghost use Rattle.text.specs.Text.{Put};
ghost use Rattle.wordtext.specs.Columns.{longest_column};
ghost use Rattle.showlines.specs.Lines.{line, lines, title, longest_line};
ghost use Rattle.verdicttext.specs.Words.{longest_fault};
ghost use Rattle.show.specs.Show.{program_text, longest_title};
ghost use Rattle.showlines.specs.Served.Marks.{marks_of};

use container::layout::MOST_INSTRUCTIONS;
use flow::annotation_at;
use safety::verdict::Verdict;
use showlines::line::{number_at, put_line, widest};
use showlines::targets::targets;
use text::put::{put_byte, put_spaces, put_text};
use verdicttext::words::{LONGEST_FAULT, fault_index, put_fault};

// The length of a title.
const TITLE: usize = 11;

// The names of the columns.
fn put_title(width: usize, out: &mut [u8]) -> usize
    requires { (width ≤ longest_column) × (longest_title ≤ length out.old) }
    ensures { Put (title width) out.old out.new result × (result ≤ longest_title) }
{
    let mut at = put_text(b"       word              instruction", out);
    at += put_spaces(width.saturating_sub(TITLE), &mut out[at..]);
    at += put_text(b"  note\n", &mut out[at..]);
    at
}

// The line of instruction i of n, and the text more where it is at fault.
fn put_entry(
    version: u64,
    marks: &[bool; MOST_INSTRUCTIONS],
    words: &[u8],
    notes: &[u8],
    n: usize,
    width: usize,
    faulty: usize,
    fault: &[u8],
    i: usize,
    out: &mut [u8],
) -> usize
    requires { (marks.now ≡ marks_of words.now n n) × Worded words.now n × Annotated version notes.now n × (width ≤ longest_column) × (length fault.now ≤ longest_fault) × (i < n) × (longest_line + longest_fault ≤ length out.old) }
    ensures { Put (line version words.now notes.now n width i ++ choose (eqb i faulty) fault.now []) out.old out.new result × (result ≤ longest_line + longest_fault) }
{
    let w = number_at(words, n, i);
    let note = annotation_at(version, notes, n, i);
    let at = put_line(marks[i], n, width, i, w, note, out);
    if i != faulty {
        return at;
    }
    at + put_text(fault, &mut out[at..])
}

// The lines.
fn put_lines(
    version: u64,
    marks: &[bool; MOST_INSTRUCTIONS],
    words: &[u8],
    notes: &[u8],
    n: usize,
    width: usize,
    faulty: usize,
    fault: &[u8],
    out: &mut [u8],
) -> usize
    requires { (marks.now ≡ marks_of words.now n n) × Worded words.now n × Annotated version notes.now n × (width ≤ longest_column) × (length fault.now ≤ longest_fault) × ((longest_line + longest_fault) * n ≤ length out.old) }
    ensures { Put (lines version words.now notes.now n width faulty fault.now n) out.old out.new result × (result ≤ (longest_line + longest_fault) * n) }
{
    let mut at = 0;
    for i in 0..n {
        at += put_entry(
            version,
            marks,
            words,
            notes,
            n,
            width,
            faulty,
            fault,
            i,
            &mut out[at..],
        );
    }
    at
}

// The program of n words and notes of a version, with a verdict on it.
pub(crate) fn put_program(
    version: u64,
    words: &[u8],
    notes: &[u8],
    n: usize,
    v: Verdict,
    out: &mut [u8],
) -> usize
    requires { Worded words.now n × Annotated version notes.now n × (longest_title + (longest_line + longest_fault) * n + 1 ≤ length out.old) }
    ensures { Put (program_text version words.now notes.now n (verdict_outcome v)) out.old out.new result × (result ≤ longest_title + (longest_line + longest_fault) * n + 1) }
{
    let mut fault = [0u8; LONGEST_FAULT];
    let k = put_fault(v, &mut fault);
    let marks = targets(words, n);
    let width = widest(words, n);
    let mut at = put_title(width, out);
    at += put_lines(
        version,
        &marks,
        words,
        notes,
        n,
        width,
        fault_index(v),
        &fault[..k],
        &mut out[at..],
    );
    at += put_byte(b'\n', &mut out[at..]);
    at
}
