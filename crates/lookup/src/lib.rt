// The row that a word fits, found among those of its opcode by the secondary opcode, as the numbers by which the word is judged. A `match`
// compiles to constant data; a constant array that is indexed at run time is stored anew at every call.
#![tactic(auto)]

ghost use Rattle.std.specs.Prelude.{◌≡◌, option_map};
ghost use Rattle.opcoderows.specs.Opcodes.{row_for};
ghost use Rattle.lookup.specs.Served.Lines.{line_from, line_of, OwnRow};
ghost use Rattle.lookup.specs.Served.Index.{group, group_at, row_under};

use bits::fields::bits_at;
use opcoderows::slot_of;
use rows::table;

#[derive(Clone, Copy, Debug, PartialEq, Eq)]
pub struct Line {
    // the bits that the row fixes, opcodes and unassigned ones, and what they are
    pub fixed_bits: u64,
    pub fixed: u64,
    // the bits that are not 1 together with the next one
    pub pairs: u64,
    // the numbers of the row's line in the table: what modifiers may not hold, the modifiers, and the shape, with the row number from bit 48
    pub limits: u64,
    pub modifiers: u64,
    pub shape: u64,
}

// The rows of an opcode: where the secondary opcode stands, which ones they have, as a set, and the cell of secondary opcode 0.
#[derive(Clone, Copy, Debug, PartialEq, Eq)]
pub struct Group {
    pub low: u64,
    pub mask: u64,
    pub seconds: u64,
    pub cell: u64,
}

// A cell with no row. It is no `Option`, since a group without secondary opcodes leads to no cell.
const EMPTY: u64 = 255;

// A line from a row of the table.
fn line_with(row: u64, v: table::Row) -> Line
    ensures { result ≡ line_from row v }
{
    Line {
        fixed_bits: v.fixed_bits,
        fixed: v.opcode << 48 | v.second << bits_at(v.shape, 33, 6),
        pairs: v.pairs,
        limits: v.limits,
        modifiers: v.modifiers,
        shape: v.shape | row << 48,
    }
}

// A group from its numbers, so that each arm below stands on one line.
fn grouped(low: u64, mask: u64, seconds: u64, cell: u64) -> Group
    ensures { result ≡ group low mask seconds cell }
{
    Group {
        low,
        mask,
        seconds,
        cell,
    }
}

// The group in a slot of the index; an empty one has no secondary opcodes.
fn group_at(slot: u64) -> Group
    ensures { result ≡ group_at slot }
{
    match slot {
        1 => grouped(0, 0, 0x1, 0),
        3 => grouped(0, 0, 0x1, 1),
        5 => grouped(0, 0, 0x1, 2),
        7 => grouped(16, 31, 0x56BFFEBF, 5),
        8 => grouped(16, 15, 0x7771, 37),
        9 => grouped(16, 15, 0x3, 53),
        10 => grouped(16, 15, 0xF575, 69),
        12 => grouped(16, 15, 0x1, 85),
        13 => grouped(16, 15, 0x1, 101),
        15 => grouped(0, 0, 0x1, 117),
        16 => grouped(0, 0, 0x1, 118),
        17 => grouped(0, 0, 0x1, 119),
        18 => grouped(24, 15, 0x3, 120),
        20 => grouped(0, 0, 0x1, 136),
        21 => grouped(0, 0, 0x1, 137),
        22 => grouped(24, 15, 0x3, 138),
        24 => grouped(24, 3, 0x3, 154),
        25 => grouped(24, 3, 0x3, 158),
        26 => grouped(24, 3, 0x3, 162),
        27 => grouped(24, 3, 0x3, 166),
        28 => grouped(24, 3, 0x3, 170),
        29 => grouped(24, 3, 0x1, 174),
        30 => grouped(24, 3, 0x1, 178),
        31 => grouped(24, 3, 0x1, 182),
        33 => grouped(0, 0, 0x1, 3),
        34 => grouped(0, 0, 0x1, 4),
        _ => grouped(0, 0, 0, EMPTY),
    }
}

// The line in a cell; in an empty one, to which no word leads, that of no row.
fn line_at(cell: u64) -> Line
    ensures { result ≡ line_of (row_under cell) }
{
    match cell {
        0 => line_with(0, table::NOP),
        1 => line_with(1, table::BRANCHZ),
        2 => line_with(2, table::DISCARD_F32),
        3 => line_with(3, table::CSEL_F32),
        4 => line_with(4, table::CSEL_V2F16),
        5 => line_with(20, table::S8_TO_S32),
        6 => line_with(21, table::S8_TO_F32),
        7 => line_with(24, table::V2S8_TO_V2S16),
        8 => line_with(25, table::V2S8_TO_V2F16),
        9 => line_with(9, table::S16_TO_S32),
        10 => line_with(10, table::S16_TO_F32),
        12 => line_with(5, table::V2S16_TO_V2F16),
        14 => line_with(7, table::S32_TO_F32),
        15 => line_with(17, table::F16_TO_S32),
        16 => line_with(19, table::F16_TO_F32),
        17 => line_with(13, table::F32_TO_S32),
        18 => line_with(28, table::FROUND_F32),
        19 => line_with(15, table::V2F16_TO_V2S16),
        20 => line_with(29, table::FROUND_V2F16),
        21 => line_with(22, table::U8_TO_U32),
        22 => line_with(23, table::U8_TO_F32),
        23 => line_with(26, table::V2U8_TO_V2U16),
        24 => line_with(27, table::V2U8_TO_V2F16),
        25 => line_with(11, table::U16_TO_U32),
        26 => line_with(12, table::U16_TO_F32),
        28 => line_with(6, table::V2U16_TO_V2F16),
        30 => line_with(8, table::U32_TO_F32),
        31 => line_with(18, table::F16_TO_U32),
        33 => line_with(14, table::F32_TO_U32),
        35 => line_with(16, table::V2F16_TO_V2U16),
        37 => line_with(30, table::MOV_I32),
        41 => line_with(31, table::CLZ_U32),
        42 => line_with(32, table::CLZ_V2U16),
        43 => line_with(33, table::CLZ_V4U8),
        45 => line_with(34, table::IABS_S32),
        46 => line_with(35, table::IABS_V2S16),
        47 => line_with(36, table::IABS_V4S8),
        49 => line_with(37, table::POPCOUNT_I32),
        50 => line_with(38, table::BITREV_I32),
        51 => line_with(39, table::NOT_OLD_I32),
        53 => line_with(40, table::FLUSH_F32),
        54 => line_with(41, table::FLUSH_V2F16),
        69 => line_with(42, table::FRCP_F32),
        71 => line_with(43, table::FRSQ_F32),
        73 => line_with(49, table::FSIN_TABLE_U6),
        74 => line_with(50, table::FCOS_TABLE_U6),
        75 => line_with(51, table::FSINCOS_OFFSET_U6),
        77 => line_with(44, table::FLOGD_F32),
        79 => line_with(45, table::FPCLASS_F32),
        81 => line_with(46, table::FLOG_TABLE_F32),
        82 => line_with(52, table::FEXP_TABLE_U4),
        83 => line_with(47, table::FRCP_APPROX_F32),
        84 => line_with(48, table::FRSQ_APPROX_F32),
        85 => line_with(53, table::FADD_F32),
        101 => line_with(54, table::FADD_V2F16),
        117 => line_with(55, table::MUX_I32),
        118 => line_with(56, table::MUX_V2I16),
        119 => line_with(57, table::MUX_V4I8),
        120 => line_with(58, table::CUBE_SSEL),
        121 => line_with(59, table::CUBE_TSEL),
        136 => line_with(60, table::CUBEFACE1),
        137 => line_with(61, table::CUBEFACE2_V9),
        138 => line_with(62, table::IDP_V4S8),
        139 => line_with(63, table::IDP_V4U8),
        154 => line_with(64, table::ICMP_OR_U32),
        155 => line_with(67, table::ICMP_AND_U32),
        158 => line_with(65, table::ICMP_OR_V2U16),
        159 => line_with(68, table::ICMP_AND_V2U16),
        162 => line_with(66, table::ICMP_OR_V4U8),
        163 => line_with(69, table::ICMP_AND_V4U8),
        166 => line_with(70, table::FCMP_OR_F32),
        167 => line_with(72, table::FCMP_AND_F32),
        170 => line_with(71, table::FCMP_OR_V2F16),
        171 => line_with(73, table::FCMP_AND_V2F16),
        174 => line_with(74, table::ICMP_OR_S32),
        178 => line_with(75, table::ICMP_OR_V2S16),
        182 => line_with(76, table::ICMP_OR_V4S8),
        _ => line_with(table::ROWS as u64, table::NOP),
    }
}

// The line of the row that a word fits, looked for among the rows of its opcode only, or none.
pub fn line_of(w: u64) -> Option<Line>
    ensures answer { result ≡ option_map line_of (row_for w) }
    ensures own { OwnRow w result }
{
    let g = group_at(slot_of(bits_at(w, 48, 9)));
    let second = (w >> g.low % 64) & g.mask;
    if bits_at(g.seconds, second, 1) == 0 {
        return None;
    }
    Some(line_at(g.cell + second))
}
