// Why a call is refused, and the number that each refusal has in the papers.
#![tactic(auto)]

ghost use Rattle.std.specs.Prelude.{◌≡◌};
ghost use Rattle.refusals.specs.Refusals.{number_of, refusal_number};

// What a call answers with that refuses nothing.
pub const ACCEPTED: u64 = 0;

// What the papers refuse, each with its number; specs/Numbers.antt and the headers for C have the same names.
#[derive(Clone, Copy, Debug, PartialEq, Eq)]
pub enum Refusal {
    // The key length is neither 32 nor 64.
    KeyLength = 1,

    // The IV length is not 32.
    IvLength = 2,

    // The size mark is neither 256 nor 512.
    SizeMark = 3,

    // The position is above the last one.
    PositionAbove = 4,

    // The target is shorter than the source.
    TargetShorter = 5,

    // The window ends past the end of the buffer.
    WindowPastEnd = 6,

    // The new position would be above the last one.
    NewPositionAbove = 7,

    // The new position would be below 0.
    NewPositionBelow = 8,

    // The length of the key target is not an eighth of the size mark.
    KeyTargetLength = 9,

    // No key of that size with that IV leads to this state.
    NoKeyLeads = 10,

    // The text, or the part, is not of the grammar.
    NotCsv = 11,

    // A row's field count differs from the first row's.
    RaggedRow = 12,

    // A row has more than 32 fields.
    TooManyFields = 13,

    // The key's bytes are all zero.
    ZeroKey = 14,

    // The length of the key, the source or the target of a block call is not 32.
    BlockLength = 15,
}

impl Refusal {
    // The refusal's number.
    pub fn number(self) -> u64
        ensures { result ≡ refusal_number self }
    {
        self as u64
    }
}

// The number of an answer: 0 where the call is accepted, and else that of the refusal.
pub fn number_of<T: Drop>(answer: Result<T, Refusal>) -> u64
    ensures { result ≡ number_of answer }
{
    match answer {
        Ok(_) => ACCEPTED,
        Err(refusal) => refusal.number(),
    }
}
