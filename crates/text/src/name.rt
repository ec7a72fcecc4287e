// The names of instructions.
ghost use Rattle.std.specs.Prelude.{◌≡◌, ◌∷◌, ◌+◌, ◌≤◌, length};
ghost use Rattle.reader.specs.Answers.{reading};
ghost use Rattle.rows.specs.Names.{name_of, name_width, names as all_names};
ghost use Rattle.text.specs.Text.{space, Put};
ghost use Rattle.text.specs.Name.{name_in};

use crate::put::{put_byte, put_padded};
use record::answer::Refusal;
use record::instruction::Instruction;
use rows::names::WIDTH;

pub type Names = [u8; WIDTH * Instruction::ROWS];

// The name of a row; nothing where there is no such row.
pub fn put_name(names: &Names, row: usize, out: &mut [u8]) -> usize
    requires { (names.now ≡ all_names) × (name_width ≤ length out.old) }
    ensures { Put (name_of row) out.old out.new result × (result ≤ name_width) }
{
    if Instruction::ROWS <= row {
        return 0;
    }
    let at = row * WIDTH;
    let end = at + WIDTH;
    let all = &names[..];
    put_padded(&all[at..end], out)
}

// A space, and the name of the instruction that was read.
pub fn put_reading(names: &Names, r: Result<Instruction, Refusal>, out: &mut [u8]) -> usize
    requires { (names.now ≡ all_names) × (1 + name_width ≤ length out.old) }
    ensures { Put (space ∷ name_in (reading r)) out.old out.new result × (result ≤ 1 + name_width) }
{
    let at = put_byte(b' ', out);
    match r {
        Ok(x) => at + put_name(names, x.row as usize, &mut out[at..]),
        Err(_) => at,
    }
}
