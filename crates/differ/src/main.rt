// Reads two containers from standard input, and writes what differs between them to standard output, line by line. A program here has no exit
// status, so standard error tells which of them does not open or read, and why, or what failed.
#![tactic(auto)]

ghost use Rattle.std.specs.Prelude.{◌≡◌, ◌+◌, ◌-◌, ◌≤◌, min, length, drop, Some, Ok};
ghost use Rattle.bits.specs.Lists.{kth};
ghost use Rattle.bits.specs.Outcomes.{refuses};
ghost use Rattle.differences.specs.Differences.{content_lines, differences};
ghost use Rattle.diffparts.specs.Served.Parts.{Both, Counted};
ghost use Rattle.linetext.specs.Lines.{line_text};
ghost use Rattle.input.specs.Input.{Within};
ghost use Rattle.verdictline.specs.VerdictLine.{verdict_line};
ghost use Rattle.differ.specs.Comparing.{length_length, most_read, length_in, ready, listed, side_line, Parted};

use bits::bytes::load64;
use container::layout::LONGEST_CONTAINER;
use diff::both_read;
use diff::cursor::{At, Contents, advance};
use differences::answer::{Side, Unread};
use differences::line::{FIELDS, Line};
use differences::numbers::MOST_LINES;
use diffparts::single::version_line;
use difftext::write_line;
use input::Input;
use safety::verdict::Verdict;
use std::io::Read;
use verdictline::{LONGEST_VERDICT, write_verdict};
use view::open_count;

const LENGTH_LENGTH: usize = 8;

// One byte more than the longest container: what is longer is refused by this part alone.
const CONTAINER: usize = LONGEST_CONTAINER + 1;

const MOST: usize = LENGTH_LENGTH + 2 * CONTAINER;

// Reads two such parts and the length, or all where there is less. What is proved of a program is said of its own functions, so it has this one.
fn read_part(reader: &mut impl Read, buffer: &mut [u8]) -> Input
    requires { length buffer.old ≡ most_read }
    ensures { Within result most_read }
{
    input::fill(reader, buffer)
}

fn tell(errors: &impl Print, text: &[u8]) -> bool {
    errors.write_all(text).is_ok()
}

// The one way to standard output: the text of line k of what differs. It is written until all of it is, or until a write fails.
fn send(output: &impl Print, bytes: &[u8], input: Input, k: usize, line: Line, text: &[u8]) -> bool
    requires { (input ≡ Ok (length bytes.now)) × (kth (listed bytes.now) k ≡ Some line) × (text.now ≡ line_text line) }
{
    output.write_all(text).is_ok()
}

// So many lines are all that there are.
fn all_sent(bytes: &[u8], k: usize) -> bool
    requires { k ≡ length (listed bytes.now) }
{
    true
}

// Sends line k.
fn send_line(output: &impl Print, bytes: &[u8], input: Input, k: usize, line: Line) -> bool
    requires { (input ≡ Ok (length bytes.now)) × (kth (listed bytes.now) k ≡ Some line) }
{
    let mut text = [0u8; difftext::LONGEST];
    let n = write_line(line, &mut text);
    send(output, bytes, input, k, line, &text[..n])
}

// Sends the lines from line `from` on in turn, those of what the containers hold, until all are sent or a write fails.
fn walk<'a>(
    output: &impl Print,
    bytes: &'a [u8],
    input: Input,
    first: &'a [u8],
    n: usize,
    second: &'a [u8],
    m: usize,
    from: usize,
    xs: &mut Contents,
    ys: &mut Contents,
) -> bool
    requires { Parted input bytes.now first.now second.now × Counted first.now n second.now m × (from ≤ length (differences first.now second.now)) × (content_lines first.now second.now ≡ drop from (differences first.now second.now)) }
{
    let mut at = At::START;
    for k in from..MOST_LINES {
        let Some((line, next)) = advance(first, n, second, m, at, xs, ys) else {
            return all_sent(bytes, k);
        };
        if !send_line(output, bytes, input, k, line) {
            return false;
        }
        at = next;
    }
    all_sent(bytes, MOST_LINES)
}

// Sends all lines: first that of the versions, where they differ.
fn send_all<'a>(
    output: &impl Print,
    bytes: &'a [u8],
    input: Input,
    first: &'a [u8],
    n: usize,
    second: &'a [u8],
    m: usize,
    xs: &mut Contents,
    ys: &mut Contents,
) -> bool
    requires { Parted input bytes.now first.now second.now × Counted first.now n second.now m }
{
    match version_line(first, second) {
        Some(line) => {
            if !send_line(output, bytes, input, 0, line) {
                return false;
            }
            walk(output, bytes, input, first, n, second, m, 1, xs, ys)
        }
        None => walk(output, bytes, input, first, n, second, m, 0, xs, ys),
    }
}

// Lists what differs between two containers that open and read.
fn list<'a>(
    output: &impl Print,
    errors: &impl Print,
    bytes: &'a [u8],
    input: Input,
    first: &'a [u8],
    second: &'a [u8],
)
    requires { Parted input bytes.now first.now second.now × Both first.now second.now }
{
    let mut xs = [0; FIELDS];
    let mut ys = [0; FIELDS];
    let n = open_count(first);
    let m = open_count(second);
    if !send_all(output, bytes, input, first, n, second, m, &mut xs, &mut ys) {
        tell(errors, b"differ: standard output cannot be written\n");
    }
}

fn tell_refusal<'a>(
    errors: &impl Print,
    bytes: &'a [u8],
    input: Input,
    u: Unread,
    side: &'a [u8],
    line: &'a [u8],
)
    requires { (input ≡ Ok (length bytes.now)) × (ready bytes.now ≡ refuses u) × (side.now ≡ side_line u.side) × (line.now ≡ verdict_line (refuses u.finding)) }
{
    tell(errors, side);
    tell(errors, line);
}

// Tells which one does not open or read, and why.
fn refuse(errors: &impl Print, bytes: &[u8], input: Input, u: Unread)
    requires { (input ≡ Ok (length bytes.now)) × (ready bytes.now ≡ refuses u) }
{
    let side = u.side;
    let finding = u.finding;
    let mut line = [0u8; LONGEST_VERDICT];
    let n = write_verdict(Err(finding), &mut line);
    match side {
        Side::First => tell_refusal(errors, bytes, input, u, b"differ: first\n", &line[..n]),
        Side::Second => tell_refusal(errors, bytes, input, u, b"differ: second\n", &line[..n]),
    }
}

fn compare<'a>(
    output: &impl Print,
    errors: &impl Print,
    bytes: &'a [u8],
    input: Input,
    first: &'a [u8],
    second: &'a [u8],
)
    requires { Parted input bytes.now first.now second.now }
{
    match both_read(first, second) {
        Ok(()) => list(output, errors, bytes, input, first, second),
        Err(u) => refuse(errors, bytes, input, u),
    }
}

// Where the first container ends: after as many bytes as are given, or where the input ends.
fn first_end(bytes: &[u8]) -> usize
    requires { length_length ≤ length bytes.now }
    ensures { result ≡ length_length + min (length_in bytes.now) (length bytes.now - length_length) }
{
    let n = load64(&bytes[..LENGTH_LENGTH]) as usize;
    LENGTH_LENGTH + n.min(bytes.len() - LENGTH_LENGTH)
}

// Compares what was read. An input that is too short for a length has two empty containers.
fn report(output: &impl Print, errors: &impl Print, bytes: &[u8], input: Input)
    requires { input ≡ Ok (length bytes.now) }
{
    if bytes.len() < LENGTH_LENGTH {
        compare(output, errors, bytes, input, &bytes[..0], &bytes[..0]);
        return;
    }
    let end = first_end(bytes);
    compare(
        output,
        errors,
        bytes,
        input,
        &bytes[LENGTH_LENGTH..end],
        &bytes[end..],
    );
}

fn main(rt: HostRuntime) {
    let output = rt.stdout();
    let errors = rt.stderr();
    let mut buffer = [0u8; MOST];
    let input = read_part(&mut rt.stdin(), &mut buffer);
    match input {
        Ok(n) => report(&output, &errors, &buffer[..n], input),
        Err(_) => {
            tell(&errors, b"differ: standard input cannot be read\n");
        }
    }
}
