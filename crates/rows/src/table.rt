// The instruction table: a constant for each row, and all of them in their order.
ghost use Rattle.std.specs.Prelude.{◌≡◌, ◌<◌};
ghost use Rattle.rows.specs.Rows.{row_of, row_count};
ghost use Rattle.rows.specs.Served.Table.{row_words, table};

// How many rows there are.
pub const ROWS: usize = 77;

// A row of the table, in numbers.
#[derive(Clone, Copy, Debug, PartialEq, Eq)]
pub struct Row {
    pub opcode: u64,
    // the secondary opcode
    pub second: u64,
    // the bits that are the same in all of its words
    pub fixed_bits: u64,
    pub shape: u64,
    pub modifiers: u64,
    // what modifiers may not hold, and their defaults
    pub limits: u64,
    // the bits that may not be 1 together with the next one
    pub pairs: u64,
}

// A row on one line: its numbers in the order of the fields.
macro_rules! row {
    ($opcode:expr, $second:expr, $fixed_bits:expr, $shape:expr, $modifiers:expr, $limits:expr, $pairs:expr) => {
        Row {
            opcode: $opcode,
            second: $second,
            fixed_bits: $fixed_bits,
            shape: $shape,
            modifiers: $modifiers,
            limits: $limits,
            pairs: $pairs,
        }
    };
}

// Shapes. Bits 0 to 31: the sources' bits. Bit 32: there is an offset. From bit 33 the lowest bit of the secondary opcode, from bit 39 its
// width. Bit 47: there is no destination. ONE_5: one source, and a secondary opcode of five bits.
const BARE: u64 = 1 << 47;

// Of the branch, and of the discard.
const JUMP: u64 = ONE | OFFSET | BARE;

const TEST: u64 = TWO | BARE;

const OFFSET: u64 = 1 << 32;

const ONE: u64 = 0xFF;

const TWO: u64 = 0xFFFF;

const TRI: u64 = 0xFFFFFF;

const FOUR: u64 = 0xFFFFFFFF;

const ONE_5: u64 = ONE | 16 << 33 | 5 << 39;

const ONE_4: u64 = ONE | 16 << 33 | 4 << 39;

const TWO_4: u64 = TWO | 16 << 33 | 4 << 39;

const TRI_4: u64 = TRI | 24 << 33 | 4 << 39;

const TRI2: u64 = TRI | 24 << 33 | 2 << 39;

// Modifiers: four bits for each, by lowest bit (8, 10, 11, 24, 26, 28, 30, 32, 34 to 39), with its width. The names are the paper's
// letters; a letter once is for source 0, twice for sources 0 and 1.
const R: u64 = 2 << 24;

const T: u64 = R;

const SAT: u64 = 1 << 24;

const N: u64 = 1 << 48 | 1 << 52;

const NN: u64 = N | 1 << 40 | 1 << 44;

const NNN: u64 = NN | 1 << 32 | 1 << 36;

const F: u64 = 2 << 20;

const FF: u64 = F | 2 << 16;

const H: u64 = F;

const HH: u64 = FF;

const HHH: u64 = HH | 2 << 12;

const LANE: u64 = F;

const BIT: u64 = 1 << 20;

const W32: u64 = 4 << 40;

const WW32: u64 = W32 | 4 << 16;

const W16: u64 = W32;

const WW16: u64 = WW32;

const WW8: u64 = WW32;

const HALVES: u64 = W32;

const C: u64 = 3 << 28;

const I: u64 = C;

const X: u64 = 2 << 28;

const CLAMP: u64 = X;

const FLUSH: u64 = 2 | 1 << 4 | 1 << 8;

const BRANCH: u64 = 1 << 36 | 1 << 40 | 3 << 44;

// What modifiers may not hold, by the same letters: the values of bits 26 to 29 that are illegal, and from bit 16 up those of bits 36 to 39.
// From bit 32 up the defaults, as they stand in a word from bit 24 up.
const L_F: u64 = 0xF000;

const L_FF: u64 = L_F | 0x8888;

const L_H: u64 = 2 << 36;

const L_HH: u64 = L_H | 2 << 34;

const L_HHH: u64 = L_HH | 2 << 32;

const L_W32: u64 = 0xFF02 << 16;

const L_WW32: u64 = L_W32 | 0xFF02;

const L_W16: u64 = 0xC000 << 16 | 2 << 44;

const L_WW16: u64 = L_W16 | 0xC000 | 2 << 34;

const L_WW8: u64 = 0xF000 << 16 | 0xF000;

const L_X: u64 = 1 << 40;

const L_COMBINE: u64 = 0xFC00 << 16;

// Bits that may not be 1 together with the next one: of the NaN mode, and of a condition of integers.
const P_N: u64 = 1 << 8;

const P_I: u64 = 1 << 33;

// The rows, as the paper lists them.
pub const NOP: Row = row!(0x00, 0, 0x81FFFFFFFFFFFFFF, BARE, 0, 0, 0);

pub const BRANCHZ: Row = row!(0x1F, 0, 0x81FFFF0000000000, JUMP, BRANCH, L_COMBINE, 0);

pub const DISCARD_F32: Row = row!(0x20, 0, 0x81FFFF08C3FF0000, TEST, NN | FF | C, L_FF, 0);

pub const CSEL_F32: Row = row!(0x154, 0, 0x81FF00F800000000, FOUR, C, 0, 0);

pub const CSEL_V2F16: Row = row!(0x155, 0, 0x81FF00F800000000, FOUR, C, 0, 0);

pub const V2S16_TO_V2F16: Row = row!(0x90, 0x7, 0x81FF000F3FFFFF00, ONE_5, R | W16, L_W16, 0);

pub const V2U16_TO_V2F16: Row = row!(0x90, 0x17, 0x81FF000F3FFFFF00, ONE_5, R | W16, L_W16, 0);

pub const S32_TO_F32: Row = row!(0x90, 0x9, 0x81FF000F3FFFFF00, ONE_5, R | W32, L_W32, 0);

pub const U32_TO_F32: Row = row!(0x90, 0x19, 0x81FF000F3FFFFF00, ONE_5, R | W32, L_W32, 0);

pub const S16_TO_S32: Row = row!(0x90, 0x4, 0x81FF00FFCFFFFF00, ONE_5, H, L_H, 0);

pub const S16_TO_F32: Row = row!(0x90, 0x5, 0x81FF00FFCFFFFF00, ONE_5, H, L_H, 0);

pub const U16_TO_U32: Row = row!(0x90, 0x14, 0x81FF00FFCFFFFF00, ONE_5, H, L_H, 0);

pub const U16_TO_F32: Row = row!(0x90, 0x15, 0x81FF00FFCFFFFF00, ONE_5, H, L_H, 0);

pub const F32_TO_S32: Row = row!(0x90, 0xC, 0x81FF003F3FFFFF00, ONE_5, R | N, 0, 0);

pub const F32_TO_U32: Row = row!(0x90, 0x1C, 0x81FF003F3FFFFF00, ONE_5, R | N, 0, 0);

pub const V2F16_TO_V2S16: Row = row!(0x90, 0xE, 0x81FF003F0FFFFF00, ONE_5, R | N | H, L_H, 0);

pub const V2F16_TO_V2U16: Row = row!(0x90, 0x1E, 0x81FF003F0FFFFF00, ONE_5, R | N | H, L_H, 0);

pub const F16_TO_S32: Row = row!(0x90, 0xA, 0x81FF003F0FFFFF00, ONE_5, R | N | H, L_H, 0);

pub const F16_TO_U32: Row = row!(0x90, 0x1A, 0x81FF003F0FFFFF00, ONE_5, R | N | H, L_H, 0);

pub const F16_TO_F32: Row = row!(0x90, 0xB, 0x81FF003F2FFFFF00, ONE_5, R | N | BIT, 0, 0);

pub const S8_TO_S32: Row = row!(0x90, 0x0, 0x81FF00FFCFFFFF00, ONE_5, LANE, 0, 0);

pub const S8_TO_F32: Row = row!(0x90, 0x1, 0x81FF00FFCFFFFF00, ONE_5, LANE, 0, 0);

pub const U8_TO_U32: Row = row!(0x90, 0x10, 0x81FF00FFCFFFFF00, ONE_5, LANE, 0, 0);

pub const U8_TO_F32: Row = row!(0x90, 0x11, 0x81FF00FFCFFFFF00, ONE_5, LANE, 0, 0);

pub const V2S8_TO_V2S16: Row = row!(0x90, 0x2, 0x81FF000FFFFFFF00, ONE_5, HALVES, 0, 0);

pub const V2S8_TO_V2F16: Row = row!(0x90, 0x3, 0x81FF000FFFFFFF00, ONE_5, HALVES, 0, 0);

pub const V2U8_TO_V2U16: Row = row!(0x90, 0x12, 0x81FF000FFFFFFF00, ONE_5, HALVES, 0, 0);

pub const V2U8_TO_V2F16: Row = row!(0x90, 0x13, 0x81FF000FFFFFFF00, ONE_5, HALVES, 0, 0);

pub const FROUND_F32: Row = row!(0x90, 0xD, 0x81FF003F0FFFFF00, ONE_5, R | N | F, L_F, 0);

pub const FROUND_V2F16: Row = row!(0x90, 0xF, 0x81FF003F0FFFFF00, ONE_5, R | N | H, L_H, 0);

pub const MOV_I32: Row = row!(0x91, 0, 0x81FF00FFFFFFFF00, ONE_4, 0, 0, 0);

pub const CLZ_U32: Row = row!(0x91, 4, 0x81FF00FFFFFFFF00, ONE_4, 0, 0, 0);

pub const CLZ_V2U16: Row = row!(0x91, 5, 0x81FF00FFCFFFFF00, ONE_4, H, L_H, 0);

pub const CLZ_V4U8: Row = row!(0x91, 6, 0x81FF00FFFFFFFF00, ONE_4, 0, 0, 0);

pub const IABS_S32: Row = row!(0x91, 8, 0x81FF000FFFFFFF00, ONE_4, W32, L_W32, 0);

pub const IABS_V2S16: Row = row!(0x91, 9, 0x81FF000FFFFFFF00, ONE_4, W16, L_W16, 0);

pub const IABS_V4S8: Row = row!(0x91, 10, 0x81FF00FFFFFFFF00, ONE_4, 0, 0, 0);

pub const POPCOUNT_I32: Row = row!(0x91, 12, 0x81FF00FFFFFFFF00, ONE_4, 0, 0, 0);

pub const BITREV_I32: Row = row!(0x91, 13, 0x81FF00FFFFFFFF00, ONE_4, 0, 0, 0);

pub const NOT_OLD_I32: Row = row!(0x91, 14, 0x81FF00FFFFFFFF00, ONE_4, 0, 0, 0);

pub const FLUSH_F32: Row = row!(0x98, 0, 0x81FF003FCFFFF000, ONE_4, N | FLUSH | F, L_F, P_N);

pub const FLUSH_V2F16: Row = row!(0x98, 1, 0x81FF003FCFFFF000, ONE_4, N | FLUSH | H, L_H, P_N);

pub const FRCP_F32: Row = row!(0x9C, 0, 0x81FF003FCFFFFF00, ONE_4, N | F, L_F, 0);

pub const FRSQ_F32: Row = row!(0x9C, 2, 0x81FF003FCFFFFF00, ONE_4, N | F, L_F, 0);

pub const FLOGD_F32: Row = row!(0x9C, 8, 0x81FF003FCFFFFF00, ONE_4, N | F, L_F, 0);

pub const FPCLASS_F32: Row = row!(0x9C, 10, 0x81FF003FCFFFFF00, ONE_4, N | F, L_F, 0);

pub const FLOG_TABLE_F32: Row = row!(0x9C, 12, 0x81FF003FCFFFFF00, ONE_4, N | F, L_F, 0);

pub const FRCP_APPROX_F32: Row = row!(0x9C, 14, 0x81FF003FCFFFFF00, ONE_4, N | F, L_F, 0);

pub const FRSQ_APPROX_F32: Row = row!(0x9C, 15, 0x81FF003FCFFFFF00, ONE_4, N | F, L_F, 0);

pub const FSIN_TABLE_U6: Row = row!(0x9C, 4, 0x81FF00FFFFFFFF00, ONE_4, 0, 0, 0);

pub const FCOS_TABLE_U6: Row = row!(0x9C, 5, 0x81FF00FFFFFFFF00, ONE_4, 0, 0, 0);

pub const FSINCOS_OFFSET_U6: Row = row!(0x9C, 6, 0x81FF00FFFFFFFF00, ONE_4, 0, 0, 0);

pub const FEXP_TABLE_U4: Row = row!(0x9C, 13, 0x81FF00FFFFFFFF00, ONE_4, 0, 0, 0);

pub const FADD_F32: Row = row!(0xA4, 0, 0x81FF000CC3FF0000, TWO_4, NN | CLAMP | FF, L_FF, 0);

pub const FADD_V2F16: Row = row!(0xA5, 0, 0x81FF000CC3FF0000, TWO_4, NN | CLAMP | HH, L_HH, 0);

pub const MUX_I32: Row = row!(0xB8, 0, 0x81FF00FCFF000000, TRI, X, L_X, 0);

pub const MUX_V2I16: Row = row!(0xB9, 0, 0x81FF00FCC0000000, TRI, X | HHH, L_X | L_HHH, 0);

pub const MUX_V4I8: Row = row!(0xBA, 0, 0x81FF00FCFF000000, TRI, X, L_X, 0);

pub const CUBE_SSEL: Row = row!(0xBC, 0, 0x81FF000FFF000000, TRI_4, NN, 0, 0);

pub const CUBE_TSEL: Row = row!(0xBC, 1, 0x81FF000FFF000000, TRI_4, NN, 0, 0);

pub const CUBEFACE1: Row = row!(0xC0, 0, 0x81FF0003FF000000, TRI, NNN, 0, 0);

pub const CUBEFACE2_V9: Row = row!(0xC1, 0, 0x81FF0003FF000000, TRI, NNN, 0, 0);

pub const IDP_V4S8: Row = row!(0xC2, 0, 0x81FF00FFBF000000, TRI_4, SAT, 0, 0);

pub const IDP_V4U8: Row = row!(0xC2, 1, 0x81FF00FFBF000000, TRI_4, SAT, 0, 0);

pub const ICMP_OR_U32: Row = row!(0xF0, 0, 0x81FF000803000000, TRI2, I | T | WW32, L_WW32, P_I);

pub const ICMP_OR_V2U16: Row = row!(0xF1, 0, 0x81FF000803000000, TRI2, I | T | WW16, L_WW16, P_I);

pub const ICMP_OR_V4U8: Row = row!(0xF2, 0, 0x81FF000803000000, TRI2, I | T | WW8, L_WW8, P_I);

pub const ICMP_AND_U32: Row = row!(0xF0, 1, 0x81FF000803000000, TRI2, I | T | WW32, L_WW32, P_I);

pub const ICMP_AND_V2U16: Row = row!(0xF1, 1, 0x81FF000803000000, TRI2, I | T | WW16, L_WW16, P_I);

pub const ICMP_AND_V4U8: Row = row!(0xF2, 1, 0x81FF000803000000, TRI2, I | T | WW8, L_WW8, P_I);

pub const FCMP_OR_F32: Row = row!(0xF4, 0, 0x81FF000803000000, TRI2, C | T | NN | FF, L_FF, 0);

pub const FCMP_OR_V2F16: Row = row!(0xF5, 0, 0x81FF000803000000, TRI2, C | T | NN | HH, L_HH, 0);

pub const FCMP_AND_F32: Row = row!(0xF4, 1, 0x81FF000803000000, TRI2, C | T | NN | FF, L_FF, 0);

pub const FCMP_AND_V2F16: Row = row!(0xF5, 1, 0x81FF000803000000, TRI2, C | T | NN | HH, L_HH, 0);

pub const ICMP_OR_S32: Row = row!(0xF8, 0, 0x81FF000803000000, TRI2, I | T | WW32, L_WW32, P_I);

pub const ICMP_OR_V2S16: Row = row!(0xF9, 0, 0x81FF000803000000, TRI2, I | T | WW16, L_WW16, P_I);

pub const ICMP_OR_V4S8: Row = row!(0xFA, 0, 0x81FF000803000000, TRI2, I | T | WW8, L_WW8, P_I);

pub const TABLE: [Row; ROWS] = [
    NOP,
    BRANCHZ,
    DISCARD_F32,
    CSEL_F32,
    CSEL_V2F16,
    V2S16_TO_V2F16,
    V2U16_TO_V2F16,
    S32_TO_F32,
    U32_TO_F32,
    S16_TO_S32,
    S16_TO_F32,
    U16_TO_U32,
    U16_TO_F32,
    F32_TO_S32,
    F32_TO_U32,
    V2F16_TO_V2S16,
    V2F16_TO_V2U16,
    F16_TO_S32,
    F16_TO_U32,
    F16_TO_F32,
    S8_TO_S32,
    S8_TO_F32,
    U8_TO_U32,
    U8_TO_F32,
    V2S8_TO_V2S16,
    V2S8_TO_V2F16,
    V2U8_TO_V2U16,
    V2U8_TO_V2F16,
    FROUND_F32,
    FROUND_V2F16,
    MOV_I32,
    CLZ_U32,
    CLZ_V2U16,
    CLZ_V4U8,
    IABS_S32,
    IABS_V2S16,
    IABS_V4S8,
    POPCOUNT_I32,
    BITREV_I32,
    NOT_OLD_I32,
    FLUSH_F32,
    FLUSH_V2F16,
    FRCP_F32,
    FRSQ_F32,
    FLOGD_F32,
    FPCLASS_F32,
    FLOG_TABLE_F32,
    FRCP_APPROX_F32,
    FRSQ_APPROX_F32,
    FSIN_TABLE_U6,
    FCOS_TABLE_U6,
    FSINCOS_OFFSET_U6,
    FEXP_TABLE_U4,
    FADD_F32,
    FADD_V2F16,
    MUX_I32,
    MUX_V2I16,
    MUX_V4I8,
    CUBE_SSEL,
    CUBE_TSEL,
    CUBEFACE1,
    CUBEFACE2_V9,
    IDP_V4S8,
    IDP_V4U8,
    ICMP_OR_U32,
    ICMP_OR_V2U16,
    ICMP_OR_V4U8,
    ICMP_AND_U32,
    ICMP_AND_V2U16,
    ICMP_AND_V4U8,
    FCMP_OR_F32,
    FCMP_OR_V2F16,
    FCMP_AND_F32,
    FCMP_AND_V2F16,
    ICMP_OR_S32,
    ICMP_OR_V2S16,
    ICMP_OR_V4S8,
];

// The numbers of a row.
pub fn row_at(row: usize) -> Row
    requires { row < row_count }
    ensures { result ≡ row_words (row_of row) }
{
    TABLE[row]
}
