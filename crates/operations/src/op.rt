// The rows that the machine runs.
ghost use Rattle.std.specs.Prelude.{◌≡◌};
ghost use Rattle.operations.specs.Served.Operations.{op_of};

// What an operation does: one of the nine rows.
#[derive(Clone, Copy, Debug, PartialEq, Eq)]
pub enum Op {
    Nop,
    Branchz,
    Mov,
    Clz,
    Popcount,
    Bitrev,
    Not,
    Fadd,
    Mux,
}

impl Op {
    // That of a row, if it is one of the nine.
    #[tactic(auto, unfolding(crate::specs::Served::Operations::op_of))]
    pub(crate) fn of_row(row: u8) -> Option<Op>
        ensures { result ≡ op_of row }
    {
        match row {
            0 => Some(Op::Nop),
            1 => Some(Op::Branchz),
            30 => Some(Op::Mov),
            31 => Some(Op::Clz),
            37 => Some(Op::Popcount),
            38 => Some(Op::Bitrev),
            39 => Some(Op::Not),
            53 => Some(Op::Fadd),
            55 => Some(Op::Mux),
            _ => None,
        }
    }
}
