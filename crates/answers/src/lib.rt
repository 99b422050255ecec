// What all calls share: the answer, a refused call's error, the last position, the tests of a state, and what a refusal gives back.
#![tactic(auto)]

pub mod numbered;

ghost use Rattle.refusals.specs.Refusals.{number_of};
ghost use Rattle.refusals.specs.Tests.{returned};
ghost use Rattle.std.specs.Prelude.{◌≡◌};
ghost use Rattle.answers.specs.Tests.{state_tests};

use generator::State;
pub use numbered::Answer;
use refusals::Refusal;

// The last byte position.
pub const LIMIT: u64 = 16777216;

// Why a call is refused, and the state that it gives back.
#[derive(Clone, Copy)]
pub struct Refused {
    pub refusal: Refusal,
    pub state: State,
}

// Whether a state is well-formed: 3 or 4 where it is not.
pub fn check_state(s: State) -> Result<(), Refusal>
    ensures { number_of result ≡ returned (state_tests s) }
{
    match s.size {
        256 | 512 => {
            if s.position > LIMIT {
                return Err(Refusal::PositionAbove);
            }
            Ok(())
        }
        _ => Err(Refusal::SizeMark),
    }
}

// A refusal, with the state as it came.
pub fn refuse(refusal: Refusal, s: State) -> Refused
    ensures { result ≡ record { refusal = refusal; state = s } }
{
    Refused { refusal, state: s }
}
