// The window call with the state lent, for firmware: as `&mut`, exported for C, and by value above that.
// Buffer, start and count are parameters of their own, as the header for C has them.
#![tactic(auto)]

ghost use Rattle.std.specs.Prelude.{◌≡◌};
ghost use Rattle.refusals.specs.Refusals.{number_of};
ghost use Rattle.answers.specs.Answers.{answered};
ghost use Rattle.applying.specs.Applying.{windowed, windowed_buffer};

use answers::{Refused, refuse};
use applying::window;
use generator::State;
use refusals::{Refusal, number_of};

// The keystream over count bytes of the buffer from start on, and the state found moved on afterwards; or a refusal, with both as they were.
fn window_lent(s: &mut State, buffer: &mut [u8], start: usize, count: usize) -> Result<(), Refusal>
    ensures value { number_of result ≡ (windowed s.old buffer.old start count).number }
    ensures state_after { s.new ≡ (windowed s.old buffer.old start count).state }
    ensures buffer_after { buffer.new ≡ windowed_buffer s.old buffer.old start count }
{
    *s = window(*s, buffer, start, count).map_err(|refused| refused.refusal)?;
    Ok(())
}

// The same call for C, with its number.
#[unsafe(no_mangle)]
pub extern "C" fn strumok_window_mut(
    state: &mut State,
    buffer: &mut [u8],
    start: usize,
    count: usize,
) -> u64
    ensures value { result ≡ (windowed state.old buffer.old start count).number }
    ensures state_after { state.new ≡ (windowed state.old buffer.old start count).state }
    ensures buffer_after { buffer.new ≡ windowed_buffer state.old buffer.old start count }
{
    number_of(window_lent(state, buffer, start, count))
}

// The same call with the state by value, lent from here: whoever calls this makes no reference to a state.
pub fn window_through(
    s: State,
    buffer: &mut [u8],
    start: usize,
    count: usize,
) -> Result<State, Refused>
    ensures value { answered result ≡ windowed s buffer.old start count }
    ensures buffer_after { buffer.new ≡ windowed_buffer s buffer.old start count }
{
    let mut t = s;
    window_lent(&mut t, buffer, start, count).map_err(|refusal| refuse(refusal, t))?;
    Ok(t)
}
