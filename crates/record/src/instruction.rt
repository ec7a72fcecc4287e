// Decoded instructions.
ghost use Rattle.std.specs.Prelude.{◌≡◌};
ghost use Rattle.record.specs.Lists.{modifier_list, modifiers_of};

use rows::table;

// How many modifiers an instruction has places for.
pub const MODIFIERS: usize = 14;

// The source bytes.
#[derive(Clone, Copy, Debug, PartialEq, Eq)]
pub struct Sources {
    pub s0: u8,
    pub s1: u8,
    pub s2: u8,
    pub s3: u8,
}

// The modifiers, each named by its lowest bit.
#[derive(Clone, Copy, Debug, PartialEq, Eq)]
pub struct Modifiers {
    pub m8: u8,
    pub m10: u8,
    pub m11: u8,
    pub m24: u8,
    pub m26: u8,
    pub m28: u8,
    pub m30: u8,
    pub m32: u8,
    pub m34: u8,
    pub m35: u8,
    pub m36: u8,
    pub m37: u8,
    pub m38: u8,
    pub m39: u8,
}

// A decoded instruction (the paper's record). Places that its row does not use are 0.
#[derive(Clone, Copy, Debug, PartialEq, Eq)]
pub struct Instruction {
    pub row: u8,
    pub page: u8,
    pub flow: u8,
    pub register: u8,
    pub half_mask: u8,
    pub sources: Sources,
    pub modifiers: Modifiers,
    pub offset: i32,
}

impl Instruction {
    // How many rows the instruction table has.
    pub const ROWS: usize = table::ROWS;
}

impl Modifiers {
    // The modifiers in the order of their lowest bits.
    pub fn list(self) -> [u8; MODIFIERS]
        ensures { result ≡ modifier_list self }
    {
        [
            self.m8, self.m10, self.m11, self.m24, self.m26, self.m28, self.m30, self.m32,
            self.m34, self.m35, self.m36, self.m37, self.m38, self.m39,
        ]
    }

    // The modifiers of such a list.
    pub fn of(l: [u8; MODIFIERS]) -> Modifiers
        ensures { result ≡ modifiers_of l }
    {
        Modifiers {
            m8: l[0],
            m10: l[1],
            m11: l[2],
            m24: l[3],
            m26: l[4],
            m28: l[5],
            m30: l[6],
            m32: l[7],
            m34: l[8],
            m35: l[9],
            m36: l[10],
            m37: l[11],
            m38: l[12],
            m39: l[13],
        }
    }
}
