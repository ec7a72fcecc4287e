// The text of a decoded instruction, in the syntax of Mesa's Valhall disassembler, made in a buffer that the caller lends.
#![tactic(auto)]

ghost use Rattle.std.specs.Prelude.{◌≡◌, ◌≤◌, length};
ghost use Rattle.rows.specs.Names.{name_width};
ghost use Rattle.rows.specs.Rows.{row_of};
ghost use Rattle.record.specs.Lists.{modifier_list};
ghost use Rattle.text.specs.Text.{Put};
ghost use Rattle.fieldtext.specs.Served.Coded.{value_list, row_kinds};
ghost use Rattle.disasm.specs.Assembly.{row_text, opcode_text, instruction_text, longest_opcode, longest_text};

use crate::operands::put_operands;
use fieldtext::kinds::kinds_of;
use fieldtext::modifiers::put_modifiers;
use fieldtext::values::{Kind, Names, put_value};
use record::instruction::Instruction;
use rows::names::WIDTH;
use text::name::put_name;
use text::put::put_text;

mod operands;

const OWN: usize = 7;

// Which modifiers these can be, in the order in which they are written: those at bits 8, 10, 11, 35, 36, 32 and 30.
const OWN_PLACES: [u8; OWN] = [0, 1, 2, 9, 10, 7, 6];

// The most bytes that a source has, and that the operands have.
const SOURCE: usize = 2 + fieldtext::specials::WIDTH + 3 + 5 * fieldtext::values::WIDTH;

const OPERANDS: usize = 6 + fieldtext::values::WIDTH + 4 * SOURCE + 20;

// The most bytes that a text has.
pub const LONGEST: usize = WIDTH + (OWN + 1) * fieldtext::values::WIDTH + OPERANDS;

// The name of a row, or a question mark.
fn put_row(row: u8, out: &mut [u8]) -> usize
    requires { name_width ≤ length out.old }
    ensures { Put (row_text row) out.old out.new result × (result ≤ name_width) }
{
    let at = row as usize;
    if Instruction::ROWS <= at {
        return put_text(b"?", out);
    }
    let names = rows::names::all();
    put_name(&names, at, out)
}

// The name, the instruction's own modifiers, and the flow.
fn put_opcode(names: &Names, kinds: &[u8], values: &[u8], x: Instruction, out: &mut [u8]) -> usize
    requires { (names.now ≡ value_list) × (kinds.now ≡ row_kinds (row_of x.row)) × (values.now ≡ modifier_list x.modifiers) × (longest_opcode ≤ length out.old) }
    ensures { Put (opcode_text x) out.old out.new result × (result ≤ longest_opcode) }
{
    let mut at = put_row(x.row, out);
    at += put_modifiers(
        names,
        Kind::NanMode as u8,
        Kind::Saturate as u8,
        kinds,
        values,
        &OWN_PLACES,
        &mut out[at..],
    );
    at += put_value(names, Kind::Flow as u8, x.flow, &mut out[at..]);
    at
}

pub fn put_instruction(x: Instruction, out: &mut [u8]) -> usize
    requires { longest_text ≤ length out.old }
    ensures { Put (instruction_text x) out.old out.new result × (result ≤ longest_text) }
{
    let names = fieldtext::values::all();
    let kinds = kinds_of(x.row);
    let m = x.modifiers;
    let values = m.list();
    let at = put_opcode(&names, &kinds, &values, x, out);
    at + put_operands(&names, &kinds, &values, x, &mut out[at..])
}

// Puts the text of an instruction at the front of a buffer that has room for any, and answers how many bytes it has.
pub fn write(x: Instruction, out: &mut [u8; LONGEST]) -> usize
    ensures { Put (instruction_text x) out.old out.new result × (result ≤ longest_text) }
{
    put_instruction(x, out)
}
