// The 32-byte form of a decoded instruction.
#![tactic(auto)]

ghost use Rattle.std.specs.Prelude.{◌≡◌};
ghost use Rattle.form.specs.Form.{form_of, instruction_of_form, padded};

use record::instruction::{Instruction, MODIFIERS, Modifiers, Sources};

// The form of an instruction.
pub fn form_of(i: Instruction) -> [u8; 32]
    ensures { result ≡ form_of i }
{
    let s = i.sources;
    let mut f = [0u8; 32];
    f[..9].copy_from_slice(&[
        i.row,
        i.page,
        i.flow,
        i.register,
        i.half_mask,
        s.s0,
        s.s1,
        s.s2,
        s.s3,
    ]);
    f[24..28].copy_from_slice(&i.offset.to_le_bytes());
    f[9..23].copy_from_slice(&i.modifiers.list());
    f
}

// Whether a padding byte of a form isn't 0.
pub fn padded(f: [u8; 32]) -> bool
    ensures { result ≡ padded f }
{
    [f[23], f[28], f[29], f[30], f[31]] != [0; 5]
}

// The instruction of a form.
pub fn instruction_of_form(f: [u8; 32]) -> Instruction
    ensures { result ≡ instruction_of_form f }
{
    let mut modifiers = [0u8; MODIFIERS];
    modifiers.copy_from_slice(&f[9..23]);
    Instruction {
        row: f[0],
        page: f[1],
        flow: f[2],
        register: f[3],
        half_mask: f[4],
        sources: Sources {
            s0: f[5],
            s1: f[6],
            s2: f[7],
            s3: f[8],
        },
        modifiers: Modifiers::of(modifiers),
        offset: i32::from_le_bytes([f[24], f[25], f[26], f[27]]),
    }
}
