// RFC 4180 text: what a reading of it answers, and the part of a text where a field stands. The grammar itself is in specs/.
#![tactic(auto)]

use refusals::Refusal;

// The rows of a text, and the fields of its first row.
#[derive(Clone, Copy, Debug, PartialEq, Eq)]
pub struct Counts {
    pub rows: usize,
    pub columns: usize,
}

// Why a text, or a part of one, is refused, and the place of that.
#[derive(Clone, Copy, Debug, PartialEq, Eq)]
pub struct Fault {
    pub refusal: Refusal,
    pub at: usize,
}

// A part of a text: from its start up to its end. No `Range`, which is not `Copy`: a part is used more than once, and the theorems name both ends.
#[derive(Clone, Copy, Debug, PartialEq, Eq)]
pub struct Span {
    pub start: usize,
    pub end: usize,
}
