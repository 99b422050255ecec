// Moving a state forward or back.
#![tactic(auto)]

ghost use Rattle.std.specs.Prelude.{◌≡◌, IfOk, nat_abs};
ghost use Rattle.refusals.specs.Refusals.{number_of};
ghost use Rattle.refusals.specs.Tests.{returned};
ghost use Rattle.answers.specs.Answers.{answered};
ghost use Rattle.answers.specs.Tests.{new_position};
ghost use Rattle.moving.specs.Moving.{moving_tests, moved};

use answers::{LIMIT, Refused, check_state, refuse};
use generator::State;
use positions::move_to;
use refusals::Refusal;

// The position distance bytes on, or back where it is negative; or 3, 4, 7 or 8. Of a well-formed state the sum is never too large for 64 bits.
fn new_position(s: State, distance: i64) -> Result<u64, Refusal>
    ensures number { number_of result ≡ returned (moving_tests s distance) }
    ensures position { IfOk result (λ to. to ≡ nat_abs (new_position s distance)) }
{
    check_state(s)?;
    let to = s
        .position
        .checked_add_signed(distance)
        .ok_or(Refusal::NewPositionBelow)?;
    if to > LIMIT {
        return Err(Refusal::NewPositionAbove);
    }
    Ok(to)
}

// The state distance bytes on, or back where it is negative; or a refusal, with the state as it came.
pub fn move_by(s: State, distance: i64) -> Result<State, Refused>
    ensures { answered result ≡ moved s distance }
{
    let to = new_position(s, distance).map_err(|refusal| refuse(refusal, s))?;
    Ok(move_to(s, to))
}
