// Applying the keystream from a source to a target, and over a window of one buffer: with tables that the caller lends, or with the cipher's.
// Source and target, and a window's buffer, start and count, are parameters of their own, as README and the header for C have them.
#![tactic(auto)]

ghost use Rattle.std.specs.Prelude.{◌≡◌, ◌+◌, ◌≤◌, [], ◌∷◌, pos, length};
ghost use Rattle.generator.specs.declared.Kind.TheVariants.{Ordinary};
ghost use Rattle.generator.specs.Functions.{next_in};
ghost use Rattle.refusals.specs.Refusals.{number_of};
ghost use Rattle.refusals.specs.Tests.{returned};
ghost use Rattle.answers.specs.Answers.{answered};
ghost use Rattle.answers.specs.Tests.{limit, new_position, new_position_above_test};
ghost use Rattle.applying.specs.Applying.{applying_tests, applied, applied_target, window_tests, windowed, windowed_buffer};
ghost use Rattle.applying.specs.AnyStep.{advanced_by, with_keystream_by, applied_by, applied_target_by, windowed_by, windowed_buffer_by};

use answers::{LIMIT, Refused, check_state, refuse};
use columns::step_tables;
use generator::State;
use keystream::apply_keystream;
use refusals::Refusal;

// The keystream over the whole buffer, in place, by the tables that are lent, and the state moved on by its length.
fn advance(s: State, tables: &[[u64; 256]; 10], buffer: &mut [u8]) -> State
    requires { s.position + length buffer.old ≤ limit }
    ensures value { result ≡ advanced_by (next_in tables.now Ordinary) s (length buffer.old) }
    ensures buffer_after { buffer.new ≡ with_keystream_by (next_in tables.now Ordinary) s buffer.old }
{
    let n = buffer.len() as u64;
    let mut t = apply_keystream(s, tables, buffer);
    t.position = s.position + n;
    t
}

// Whether there is a position n bytes on: 7 where there is none.
fn check_count(s: State, n: usize) -> Result<(), Refusal>
    ensures { number_of result ≡ returned (new_position_above_test (new_position s (pos n)) ∷ []) }
{
    if s.position.saturating_add(n as u64) > LIMIT {
        return Err(Refusal::NewPositionAbove);
    }
    Ok(())
}

// Portions and windows test by `if let`: with `map_err(..)?`, which moves states more often, and one pair of number and state in `twenty_words::leave`, a
// portion of 16 bytes took twice the instructions.

// ---- from a source to a target

// Whether a source of n bytes may be applied to a target of len: 3, 4, 5 or 7, in this order, where it may not.
fn check_portion(s: State, n: usize, len: usize) -> Result<(), Refusal>
    ensures { number_of result ≡ returned (applying_tests s n len) }
{
    check_state(s)?;
    if n > len {
        return Err(Refusal::TargetShorter);
    }
    check_count(s, n)
}

// The same as `apply`, by the tables that are lent: `columns::step_tables` has the cipher's.
pub fn apply_with(
    s: State,
    tables: &[[u64; 256]; 10],
    source: &[u8],
    target: &mut [u8],
) -> Result<State, Refused>
    ensures value { answered result ≡ applied_by (next_in tables.now Ordinary) s source.now target.old }
    ensures target_after { target.new ≡ applied_target_by (next_in tables.now Ordinary) s source.now target.old }
{
    let n = source.len();
    if let Err(refusal) = check_portion(s, n, target.len()) {
        return Err(refuse(refusal, s));
    }
    copying::copy(source, target);
    Ok(advance(s, tables, &mut target[..n]))
}

// The source with the keystream applied, to the front of the target; or a refusal, with the state as it came and nothing written.
pub fn apply(s: State, source: &[u8], target: &mut [u8]) -> Result<State, Refused>
    ensures value { answered result ≡ applied s source.now target.old }
    ensures target_after { target.new ≡ applied_target s source.now target.old }
{
    apply_with(s, step_tables(), source, target)
}

// ---- the window

// Whether a window of a buffer of len bytes may be worked over: 3, 4, 6 or 7, in this order, where it may not.
fn check_window(s: State, len: usize, start: usize, count: usize) -> Result<(), Refusal>
    ensures { number_of result ≡ returned (window_tests s len start count) }
{
    check_state(s)?;
    match start.checked_add(count) {
        Some(end) if end <= len => check_count(s, count),
        _ => Err(Refusal::WindowPastEnd),
    }
}

// The same as `window`, by the tables that are lent: `columns::step_tables` has the cipher's.
pub fn window_with(
    s: State,
    tables: &[[u64; 256]; 10],
    buffer: &mut [u8],
    start: usize,
    count: usize,
) -> Result<State, Refused>
    ensures value { answered result ≡ windowed_by (next_in tables.now Ordinary) s buffer.old start count }
    ensures buffer_after { buffer.new ≡ windowed_buffer_by (next_in tables.now Ordinary) s buffer.old start count }
{
    if let Err(refusal) = check_window(s, buffer.len(), start, count) {
        return Err(refuse(refusal, s));
    }
    Ok(advance(s, tables, &mut buffer[start..start + count]))
}

// The keystream over count bytes of the buffer from start on, the others kept; or a refusal, with the state as it came and nothing written.
pub fn window(s: State, buffer: &mut [u8], start: usize, count: usize) -> Result<State, Refused>
    ensures value { answered result ≡ windowed s buffer.old start count }
    ensures buffer_after { buffer.new ≡ windowed_buffer s buffer.old start count }
{
    window_with(s, step_tables(), buffer, start, count)
}
