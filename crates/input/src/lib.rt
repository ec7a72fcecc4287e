// Standard input, read into a buffer that the caller lends until it is full or the input ends.
#![tactic(auto)]

mod partial;

ghost use Rattle.std.specs.Prelude.{◌≡◌, Ok, length};
ghost use Rattle.input.specs.Input.{taken, Within};

pub use partial::read_full;
use std::io;
use std::io::Read;

// A read of the input failed.
#[derive(Clone, Copy, Debug, PartialEq, Eq)]
pub struct ReadFailed;

// How many bytes were read, or that a read failed.
pub type Input = Result<usize, ReadFailed>;

// What one read gave: an error is a failure.
fn input_of(got: io::Result<usize>) -> Input
    ensures { result ≡ taken got }
{
    match got {
        Ok(n) => Ok(n),
        Err(_) => Err(ReadFailed),
    }
}

// One read; no bytes at the end of the input.
fn read_some<R: Read>(reader: &mut R, buffer: &mut [u8]) -> Input
    ensures { Within result (length buffer.old) }
{
    input_of(reader.read(buffer))
}

// So many bytes are all that there are: the last read gave none.
fn ended(at: usize, last: usize) -> Input
    requires { last ≡ 0 }
    ensures { result ≡ Ok at }
{
    Ok(at)
}

// So many bytes are all that there is room for.
fn full(at: usize, room: usize) -> Input
    requires { at ≡ room }
    ensures { result ≡ Ok at }
{
    Ok(at)
}

// Reads until the buffer is full or the input ends. Each read says itself how far it went, so the loop has nothing to count by.
pub fn fill<R: Read>(reader: &mut R, buffer: &mut [u8]) -> Input
    ensures { Within result (length buffer.old) }
{
    let mut at = 0;
    while at < buffer.len() {
        let n = read_some(reader, &mut buffer[at..])?;
        if n == 0 {
            return ended(at, n);
        }
        at += n;
    }
    full(at, buffer.len())
}
