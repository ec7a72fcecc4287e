// Reading as `fill` does, but a failed read counts as the end of the input.
ghost use Rattle.std.specs.Prelude.{◌≤◌, length};

use crate::read_some;
use std::io::Read;

// Reads until the buffer is full, the input ends or a read fails, and gives how many bytes it put at the buffer's start. Each read says itself
// how far it went, so the loop has nothing to count by.
pub fn read_full<R: Read>(reader: &mut R, buffer: &mut [u8]) -> usize
    ensures { result ≤ length buffer.new }
{
    let mut at = 0;
    while at < buffer.len() {
        let n = read_some(reader, &mut buffer[at..]).unwrap_or(0);
        if n == 0 {
            return at;
        }
        at += n;
    }
    at
}
