// The reasons for which something is refused, and the number that the rules give each.
#![tactic(auto)]

ghost use Rattle.std.specs.Prelude.{◌≡◌};
ghost use Rattle.reasons.specs.Numbers.{number_of};

// Why something is refused. Numbers that no reason has are refusals of nothing.
#[derive(Clone, Copy, Debug, PartialEq, Eq)]
pub enum Reason {
    // a word to read that is not 8 bytes long
    WordLength = 1,
    // no row of the instruction table fits, or there is no row of that number
    NoRow = 2,
    // a bit is 1 that the row leaves unassigned
    StrayBit = 3,
    // the flow is a reserved one
    ReservedFlow = 4,
    // the half mask names no half of the destination
    NoHalf = 5,
    // a modifier has an illegal value
    IllegalModifier = 6,
    // a source is a word of a reserved constant
    IllegalSource = 7,
    // the room to write a word to is not 8 bytes long
    RoomLength = 8,
    // a value of an instruction has no room in its row's word
    NoRoom = 9,
    // the mark of a container is wrong
    WrongMark = 10,
    // there is no such version of a container
    WrongVersion = 11,
    // a length, or the count of instructions, is wrong
    WrongLength = 12,
    // the byte of a header that is to be 0 is not
    NotZero = 13,
    // there is no word at that index
    NoWord = 14,
    // the word written would not read as the instruction
    NotTheSame = 15,
    // an instruction reads what its annotation does not name
    ReadMissing = 20,
    // an instruction can go on to a place outside the program
    SuccessorOutside = 21,
    // an instruction can go on to one whose annotation names what it does not leave defined
    SuccessorMissing = 22,
    // the first annotation names what the entry set does not have
    EntryMissing = 23,
    // no annotations at all would be accepted
    NoneAcceptable = 24,
    // a replay does not run such an instruction
    NotReplayable = 30,
    // the list of uniforms does not have the one that an instruction reads
    UniformMissing = 31,
    // the trace is no whole number of steps
    TraceLength = 32,
}

impl Reason {
    // Its number.
    pub fn number(self) -> u8
        ensures { result ≡ number_of self }
    {
        self as u8
    }
}
