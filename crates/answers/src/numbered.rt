// The papers' answer, a number and a state; and a refusal's, of any number. In a module of its own, since Rattle has no two names in one that differ in
// capitals alone, as `refused` and `Refused`.
ghost use Rattle.std.specs.Prelude.{◌≡◌};

use generator::State;

// The number of the refusal, 0 where the call is accepted, and the state. What the `Result` of a call says of both is `answered`.
#[derive(Clone, Copy)]
pub struct Answer {
    pub number: u64,
    pub state: State,
}

// A refusal: its number, and the state as it came.
pub fn refused(number: u64, s: State) -> Answer
    ensures { result ≡ record { number = number; state = s } }
{
    Answer { number, state: s }
}
