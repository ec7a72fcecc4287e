// Reads a version, an entry set and words from standard input, and writes the container of them and of the annotations that are proposed to
// standard output. A program here has no exit status, so standard error tells how many sweeps that took, or the refusal, or what failed.
#![tactic(auto)]

ghost use Rattle.std.specs.Prelude.{◌≡◌, length};
ghost use Rattle.bits.specs.Outcomes.{gives, refuses};
ghost use Rattle.input.specs.Input.{Within};
ghost use Rattle.verdictline.specs.VerdictLine.{verdict_line};
ghost use Rattle.maker.specs.Making.{read_length, answer_to, made, Read, Parted};

use bits::bytes::load64;
use bits::halves::Halves;
use container::format::{container_length, format_of};
use container::header::halves_in;
use container::layout::{LONGEST_ANNOTATION, LONGEST_CONTAINER, MOST_INSTRUCTIONS, WORD_LENGTH};
use infer::infer;
use input::Input;
use packing::pack;
use reasons::Reason;
use safety::verdict::{Finding, plain};
use std::io::Read;
use verdictline::{LONGEST_VERDICT, write_verdict};

// What stands before the words: the version, and from byte 8 on the entry set, its low halves and its high halves.
const FRONT_LENGTH: usize = 24;

const ENTRY: usize = 8;

// One byte more than that and the most words: what is longer is refused by this part alone.
const MOST: usize = FRONT_LENGTH + WORD_LENGTH * MOST_INSTRUCTIONS + 1;

// Reads that part, or all where there is less. What is proved of a program is said of its own functions, so each has this one.
fn read_part(reader: &mut impl Read, buffer: &mut [u8]) -> Input
    requires { length buffer.old ≡ read_length }
    ensures { Within result read_length }
{
    input::fill(reader, buffer)
}

fn tell(errors: &impl Print, text: &[u8]) -> bool {
    errors.write_all(text).is_ok()
}

// The one way to standard output: the text is the container that is made of what was read. It is written until all of it is, or until a
// write fails.
fn send(output: &impl Print, bytes: &[u8], input: Input, k: usize, text: &[u8]) -> bool
    requires { Read input bytes.now × (answer_to bytes.now ≡ gives k) × (text.now ≡ made bytes.now) }
{
    output.write_all(text).is_ok()
}

fn tell_sweeps(errors: &impl Print, bytes: &[u8], input: Input, k: usize)
    requires { Read input bytes.now × (answer_to bytes.now ≡ gives k) }
{
    let _ = println!(errors; "maker: {k} sweeps");
}

fn tell_verdict(errors: &impl Print, bytes: &[u8], input: Input, f: Finding, line: &[u8])
    requires { Read input bytes.now × (answer_to bytes.now ≡ refuses f) × (line.now ≡ verdict_line (refuses f)) }
{
    tell(errors, line);
}

// Tells why nothing is proposed.
fn refuse(errors: &impl Print, bytes: &[u8], input: Input, f: Finding)
    requires { Read input bytes.now × (answer_to bytes.now ≡ refuses f) }
{
    let mut line = [0u8; LONGEST_VERDICT];
    let n = write_verdict(Err(f), &mut line);
    tell_verdict(errors, bytes, input, f, &line[..n]);
}

// Packs what is proposed for the words, and sends it, or tells why nothing is.
fn make<'a>(
    output: &impl Print,
    errors: &impl Print,
    bytes: &'a [u8],
    input: Input,
    version: u64,
    entry: Halves,
    words: &'a [u8],
)
    requires { Read input bytes.now × Parted bytes.now version entry words.now }
{
    let n = words.len() / WORD_LENGTH;
    let mut notes = [0u8; LONGEST_ANNOTATION * MOST_INSTRUCTIONS];
    let mut out = [0u8; LONGEST_CONTAINER];
    let notes = &mut notes[..format_of(version).annotation * n];
    let out = &mut out[..container_length(version, n)];
    match infer(version, words, entry, notes) {
        Ok(k) => {
            // What is proposed has the lengths of a container, so this packs it.
            let _ = pack(version, entry, words, notes, out);
            if send(output, bytes, input, k, out) {
                tell_sweeps(errors, bytes, input, k);
            } else {
                tell(errors, b"maker: standard output cannot be written\n");
            }
        }
        Err(f) => refuse(errors, bytes, input, f),
    }
}

// Makes a container of what was read. An input that is too short for what stands before the words is refused like words of a wrong length:
// 12, index 0 and no register.
fn report(output: &impl Print, errors: &impl Print, bytes: &[u8], input: Input)
    requires { Read input bytes.now }
{
    if bytes.len() < FRONT_LENGTH {
        refuse(errors, bytes, input, plain(Reason::WrongLength as u8, 0, 0));
        return;
    }
    let version = load64(&bytes[..ENTRY]);
    let entry = halves_in(bytes, ENTRY, 8);
    make(
        output,
        errors,
        bytes,
        input,
        version,
        entry,
        &bytes[FRONT_LENGTH..],
    );
}

fn main(rt: HostRuntime) {
    let output = rt.stdout();
    let errors = rt.stderr();
    let mut buffer = [0u8; MOST];
    let input = read_part(&mut rt.stdin(), &mut buffer);
    match input {
        Ok(n) => report(&output, &errors, &buffer[..n], input),
        Err(_) => {
            tell(&errors, b"maker: standard input cannot be read\n");
        }
    }
}
