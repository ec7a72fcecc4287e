// The index by opcode, and the rows of an opcode, one by one.
#![tactic(auto)]

ghost use Rattle.std.specs.Prelude.{◌≡◌};
ghost use Rattle.opcoderows.specs.Opcodes.{row_with};
ghost use Rattle.opcoderows.specs.Served.Slots.{block, block_at, slot_of};
ghost use Rattle.opcoderows.specs.Served.Runs.{run, run_at, row_in};

use bits::fields::bits_at;

// Sixteen opcodes: four bits for each one, from the lowest up, lead from the first slot to its own; 0 where no row has the opcode, since the
// first slot is empty.
#[derive(Clone, Copy, Debug, PartialEq, Eq)]
pub struct Block {
    pub steps: u64,
    pub first: u64,
}

// Where the rows of an opcode stand in the order of rows by opcode, and how many there are.
#[derive(Clone, Copy, Debug, PartialEq, Eq)]
pub struct Run {
    pub first: u64,
    pub count: u64,
}

// A block and a run from their numbers, so that each arm below stands on one line. The arms are a `match`, which compiles to constant data; a
// constant array that is indexed at run time is stored anew at every call.
fn block_with(steps: u64, first: u64) -> Block
    ensures { result ≡ block steps first }
{
    Block { steps, first }
}

fn run_with(first: u64, count: u64) -> Run
    ensures { result ≡ run first count }
{
    Run { first, count }
}

// The block of the opcodes from 16 times `high` on.
fn block_at(high: u64) -> Block
    ensures { result ≡ block_at high }
{
    match high {
        0x00 => block_with(0x1, 0),
        0x01 => block_with(0x1000000000000000, 2),
        0x02 => block_with(0x1, 4),
        0x09 => block_with(0x4000300000021, 6),
        0x0A => block_with(0x210000, 11),
        0x0B => block_with(0x4032100000000, 14),
        0x0C => block_with(0x321, 19),
        0x0F => block_with(0x87600540321, 23),
        0x15 => block_with(0x210000, 32),
        _ => block_with(0, 0),
    }
}

// An opcode's slot in the index: its own, or an empty one where no row has the opcode.
pub fn slot_of(opcode: u64) -> u64
    ensures { result ≡ slot_of opcode }
{
    let block = block_at(opcode / 16);
    block.first + bits_at(block.steps, opcode % 16 * 4, 4)
}

// The run in a slot; an empty one has no rows.
fn run_at(slot: u64) -> Run
    ensures { result ≡ run_at slot }
{
    match slot {
        1 => run_with(0, 1),
        3 => run_with(1, 1),
        5 => run_with(2, 1),
        7 => run_with(5, 25),
        8 => run_with(30, 10),
        9 => run_with(40, 2),
        10 => run_with(42, 11),
        12 => run_with(53, 1),
        13 => run_with(54, 1),
        15 => run_with(55, 1),
        16 => run_with(56, 1),
        17 => run_with(57, 1),
        18 => run_with(58, 2),
        20 => run_with(60, 1),
        21 => run_with(61, 1),
        22 => run_with(62, 2),
        24 => run_with(64, 2),
        25 => run_with(66, 2),
        26 => run_with(68, 2),
        27 => run_with(70, 2),
        28 => run_with(72, 2),
        29 => run_with(74, 1),
        30 => run_with(75, 1),
        31 => run_with(76, 1),
        33 => run_with(3, 1),
        34 => run_with(4, 1),
        _ => run_with(0, 0),
    }
}

// The row at a place of the order, which is the table's but for rows 64 to 73.
fn row_in(place: u64) -> u64
    ensures { result ≡ row_in place }
{
    match place {
        64 => 64,
        65 => 67,
        66 => 65,
        67 => 68,
        68 => 66,
        69 => 69,
        70 => 70,
        71 => 72,
        72 => 71,
        73 => 73,
        _ => place,
    }
}

// The k-th row that has an opcode, from 0 in row order, or none.
pub fn row_with(opcode: u64, k: u64) -> Option<u8>
    ensures { result ≡ row_with opcode k }
{
    let run = run_at(slot_of(opcode));
    if run.count <= k {
        return None;
    }
    Some(row_in(run.first + k) as u8)
}
