// Reads a container from standard input and writes its listing to standard output: a line for each instruction where all words read, then
// the verdict. A program here has no exit status, so what fails is told on standard error.
#![tactic(auto)]

ghost use Rattle.std.specs.Prelude.{◌≡◌, length, Ok};
ghost use Rattle.input.specs.Input.{Within};
ghost use Rattle.listing.specs.Cut.{read_length};
ghost use Rattle.listing.specs.Listing.{listing};

use container::layout::LONGEST_CONTAINER;
use input::Input;
use listing::LONGEST;
use std::io::Read;

// One byte more than the longest container: what is longer is refused by this part alone.
const MOST: usize = LONGEST_CONTAINER + 1;

// Reads that part, or all where there is less. What is proved of a program is said of its own functions, so each has this one.
fn read_part(reader: &mut impl Read, buffer: &mut [u8]) -> Input
    requires { length buffer.old ≡ read_length }
    ensures { Within result read_length }
{
    input::fill(reader, buffer)
}

fn complain(errors: &impl Print, text: &[u8]) -> bool {
    errors.write_all(text).is_ok()
}

// The one way to standard output: the text is the listing of the bytes. It is written until all of it is, or until a write fails.
fn send(output: &impl Print, bytes: &[u8], text: &[u8]) -> bool
    requires { text.now ≡ listing bytes.now }
{
    output.write_all(text).is_ok()
}

// Writes the listing of the bytes, which are as many as were read.
fn list(output: &impl Print, bytes: &[u8], input: Input) -> bool
    requires { input ≡ Ok (length bytes.now) }
{
    let mut out = [0u8; LONGEST];
    let n = listing::write(bytes, &mut out);
    send(output, bytes, &out[..n])
}

// Lists what was read.
fn report(output: &impl Print, errors: &impl Print, bytes: &[u8], input: Input)
    requires { input ≡ Ok (length bytes.now) }
{
    if !list(output, bytes, input) {
        complain(errors, b"lister: standard output cannot be written\n");
    }
}

fn main(rt: HostRuntime) {
    let output = rt.stdout();
    let errors = rt.stderr();
    let mut buffer = [0u8; MOST];
    let input = read_part(&mut rt.stdin(), &mut buffer);
    match input {
        Ok(n) => report(&output, &errors, &buffer[..n], input),
        Err(_) => {
            complain(&errors, b"lister: standard input cannot be read\n");
        }
    }
}
