// The run-only examples of paper 01 on words and records: a line for each, with the answer.
#![tactic(auto)]

ghost use Rattle.std.specs.Prelude.{◌<◌};
ghost use Rattle.rows.specs.Rows.{row_count};

mod meaning;

use codec::{read_word, write_word};
use meaning::Meaning;
use record::answer::Refusal;
use record::instruction::Instruction;
use saying::{ReadingText, RefusalText, RowName};
use std::io;

// What each byte of a buffer is before a record is written to it.
const BLANK: u8 = 0xA5;

// What bytes read as.
fn reads(output: &impl Print, label: &str, bytes: &[u8]) -> io::Result<()> {
    println!(output; "read {label}: {}", ReadingText(read_word(bytes)))
}

fn reads_word(output: &impl Print, word: u64) -> io::Result<()> {
    let read = read_word(&word.to_le_bytes());
    println!(output; "read {word:016x}: {}", ReadingText(read))
}

// What was done, or the refusal.
fn say_answer(output: &impl Print, done: &str, refusal: Option<Refusal>) -> io::Result<()> {
    match refusal {
        None => print!(output; "{done}"),
        Some(refusal) => print!(output; "{}", RefusalText(refusal)),
    }
}

// Whether each byte of a buffer is as it was.
fn kept(buffer: &[u8]) -> &'static str {
    if buffer.iter().all(|byte| *byte == BLANK) {
        "kept"
    } else {
        "changed"
    }
}

// What writing a record into a blank buffer gives.
fn writes(output: &impl Print, label: &str, i: Instruction, buffer: &mut [u8]) -> io::Result<()> {
    print!(output; "write {label}: ")?;
    say_answer(output, "done", write_word(i, buffer).err())?;
    println!(output; ", buffer {}", kept(buffer))
}

// A row's default.
fn fresh(row: usize) -> Instruction
    requires { row < row_count }
{
    Instruction::fresh(row).unwrap()
}

// The word of BRANCHZ on r0 with an offset.
fn writes_branch(output: &impl Print, offset: i32) -> io::Result<()> {
    let mut i = fresh(1);
    i.sources.s0 = 0;
    i.offset = offset;
    let mut buffer = [BLANK; 8];
    print!(output; "write offset {offset}: ")?;
    match write_word(i, &mut buffer) {
        Ok(()) => println!(output; "{:016x}", u64::from_le_bytes(buffer)),
        Err(refusal) => println!(output; "{}, buffer {}", RefusalText(refusal), kept(&buffer)),
    }
}

fn offsets(output: &impl Print) -> io::Result<()> {
    for offset in [67108864, 67108863, -67108864, -67108865] {
        writes_branch(output, offset)?;
    }
    Ok(())
}

// Row 77 is none.
fn past_the_table(output: &impl Print) -> io::Result<()> {
    let mut i = fresh(0);
    i.row = 77;
    writes(output, "row 77", i, &mut [BLANK; 8])?;
    print!(output; "fresh 77: ")?;
    say_answer(output, "made", Instruction::fresh(77).err())?;
    println!(output)
}

fn lengths(output: &impl Print) -> io::Result<()> {
    let bytes = [0u8; 16];
    reads(output, "0 bytes", &bytes[..0])?;
    reads(output, "7 bytes", &bytes[..7])?;
    reads(output, "9 bytes", &bytes[..9])?;
    reads(output, "16 bytes", &bytes)?;
    let i = fresh(0);
    writes(output, "into 0 bytes", i, &mut [])?;
    writes(output, "into 7 bytes", i, &mut [BLANK; 7])?;
    writes(output, "into 9 bytes", i, &mut [BLANK; 9])
}

// FADD.f32 with a stray bit, a reserved flow, an empty half mask, a refused widening and a refused source, mended one by one.
fn faults(output: &impl Print) -> io::Result<()> {
    let words = [
        0xD8A40000300002E0,
        0x58A40000300002E0,
        0x00A40000300002E0,
        0x00A4C000300002E0,
        0x00A4C000000002E0,
        0x00A4C00000000201,
    ];
    for word in words {
        reads_word(output, word)?;
    }
    Ok(())
}

// What MOV.i32 with an entry of the constants as its source reads as, and what the entry means.
fn special_entry(output: &impl Print, page: u8, entry: u8) -> io::Result<()> {
    let word = 0x0091C100000000C0 | u64::from(entry) | u64::from(page) << 57;
    print!(output; "page {page}, entry {entry}: ")?;
    say_answer(output, "read", read_word(&word.to_le_bytes()).err())?;
    let byte = 192 | entry;
    println!(output; ", {}", Meaning { page, byte })
}

fn special_entries(output: &impl Print) -> io::Result<()> {
    for page in 0..4 {
        for entry in 32..64 {
            special_entry(output, page, entry)?;
        }
    }
    Ok(())
}

fn say_meaning(output: &impl Print, page: u8, byte: u8) -> io::Result<()> {
    println!(output; "page {page}, byte {byte}: {}", Meaning { page, byte })
}

// The first and the last byte of registers, released registers and uniforms.
fn ends(output: &impl Print, page: u8) -> io::Result<()> {
    for byte in [0, 63, 64, 127, 128, 191] {
        say_meaning(output, page, byte)?;
    }
    Ok(())
}

fn immediates(output: &impl Print) -> io::Result<()> {
    for byte in 192..224 {
        say_meaning(output, 2, byte)?;
    }
    Ok(())
}

// The word that a record is written as; 0 where it is refused.
fn written(i: Instruction) -> [u8; 8] {
    let mut word = [0u8; 8];
    let _ = write_word(i, &mut word);
    word
}

// A row's default, written and read back: its number, its name, its word, and whether what was read is written as the same word.
fn row_default(output: &impl Print, row: usize) -> io::Result<()>
    requires { row < row_count }
{
    let word = written(fresh(row));
    print!(output; "{row} {} {:016x} ", RowName(row), u64::from_le_bytes(word))?;
    match read_word(&word) {
        Ok(i) if written(i) == word => println!(output; "again"),
        Ok(_) => println!(output; "other"),
        Err(refusal) => println!(output; "{}", RefusalText(refusal)),
    }
}

fn defaults(output: &impl Print) -> io::Result<()> {
    for row in 0..Instruction::ROWS {
        row_default(output, row)?;
    }
    Ok(())
}

fn examples(output: &impl Print) -> io::Result<()> {
    lengths(output)?;
    reads_word(output, 0x0091C10000000102)?;
    reads_word(output, 0x0091010000000002)?;
    past_the_table(output)?;
    offsets(output)?;
    faults(output)?;
    special_entries(output)?;
    ends(output, 0)?;
    ends(output, 3)?;
    immediates(output)?;
    defaults(output)
}

fn main(rt: HostRuntime) {
    // The status is 0 also where the output cannot be written.
    let _ = examples(&rt.stdout());
}
