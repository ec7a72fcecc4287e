// Reads the words of its standard input, eight bytes each, and writes a line for each: the word, and its name or the refusal.
#![tactic(auto)]

use codec::read_word;
use saying::ReadingText;
use std::io;

const MOST: usize = 4096;

// The words that stand there whole.
fn say_words(output: &impl Print, bytes: &[u8]) -> io::Result<()> {
    let (words, _) = bytes.as_chunks::<8>();
    for word in words {
        let read = read_word(word);
        let number = u64::from_le_bytes(*word);
        println!(output; "{number:016x} {}", ReadingText(read))?;
    }
    Ok(())
}

fn main(rt: HostRuntime) {
    let mut buffer = [0u8; MOST];
    let n = input::read_full(&mut rt.stdin(), &mut buffer);
    // The status is 0 also where the output cannot be written.
    let _ = say_words(&rt.stdout(), &buffer[..n]);
}
