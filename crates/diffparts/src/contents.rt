// What the fields of an instruction hold.
ghost use Rattle.std.specs.Prelude.{◌≡◌};
ghost use Rattle.reading.specs.Reader.{read_number};
ghost use Rattle.safety.specs.Program.{instruction_in};
ghost use Rattle.differences.specs.Records.{at_bit_8, contents};

use differences::line::FIELDS;
use reader::read_number;
use record::instruction::Instruction;
use record::offset::offset_number;

// What stands at bit 8: the bits of the branch offset, or a modifier.
fn at_bit_8(i: Instruction) -> u64
    ensures { result ≡ at_bit_8 i }
{
    if i.branches() {
        return offset_number(i.offset);
    }
    u64::from(i.modifiers.m8)
}

// The contents in the order of the list.
#[tactic(auto, unfolding(differences::specs::Records::contents))]
fn contents(i: Instruction) -> [u64; FIELDS]
    ensures { result ≡ contents i }
{
    let s = i.sources;
    let m = i.modifiers;
    [
        u64::from(i.row),
        u64::from(i.page),
        u64::from(i.flow),
        u64::from(i.register) + 64 * u64::from(i.half_mask),
        u64::from(s.s0),
        u64::from(s.s1),
        u64::from(s.s2),
        u64::from(s.s3),
        at_bit_8(i),
        u64::from(m.m10),
        u64::from(m.m11),
        u64::from(m.m24),
        u64::from(m.m26),
        u64::from(m.m28),
        u64::from(m.m30),
        u64::from(m.m32),
        u64::from(m.m34),
        u64::from(m.m35),
        u64::from(m.m36),
        u64::from(m.m37),
        u64::from(m.m38),
        u64::from(m.m39),
    ]
}

// Takes those of the instruction that a word says; of a word that does not read, which no container has that is compared, those of NOP.
pub fn take_contents(w: u64, out: &mut [u64; FIELDS])
    ensures { out.new ≡ contents (instruction_in (read_number w)) }
{
    match read_number(w) {
        Ok(i) => *out = contents(i),
        Err(_) => *out = [0; FIELDS],
    }
}
