// Checking a stored state against an IV.
#![tactic(auto)]

ghost use Rattle.std.specs.Prelude.{◌≡◌, ◌&&◌};
ghost use Rattle.generator.specs.Registers.{registers_of, with_registers};
ghost use Rattle.loading.specs.Loading.{load};
ghost use Rattle.refusals.specs.Refusals.{number_of};
ghost use Rattle.refusals.specs.Tests.{returned};
ghost use Rattle.answers.specs.Answers.{answered};
ghost use Rattle.opening.specs.Opening.{opening_accepts};
ghost use Rattle.checking.specs.Checking.{loaded_of, same_registers, tests_before10, checked, checked_target};
ghost use Rattle.checking.specs.CheckingLaws.{ChecksExactly};

use answers::{Refused, check_state, refuse};
use cells::load_cells;
use generator::{Kind, State};
use opening::check_key_and_iv;
use positions::back_tables;
use recovering::recover_key;
use refusals::Refusal;
use walks::backward;

// Whether a state may be checked with this IV and a key target of len bytes: 2, 3, 4 or 9, in this order, where it may not.
fn check_lengths(s: State, iv: &[u8], len: usize) -> Result<(), Refusal>
    ensures { number_of result ≡ returned (tests_before10 s iv.now len) }
{
    if iv.len() != 32 {
        return Err(Refusal::IvLength);
    }
    check_state(s)?;
    if len as u64 != s.size / 8 {
        return Err(Refusal::KeyTargetLength);
    }
    Ok(())
}

// Back to the registers that were loaded, if any key leads to this state.
fn walk_to_loading(s: State) -> State
    ensures { result ≡ with_registers s (loaded_of s) }
{
    let tables = back_tables();
    let n = s.position / 8 + 1;
    let t = backward(Kind::Ordinary, s, n, tables);
    backward(Kind::Initial, t, 32, tables)
}

// Whether the registers are those that the key and the IV load.
fn is_loading(t: State, key: &[u8], iv: &[u8]) -> bool
    ensures { result ≡ same_registers (load key.now iv.now) (registers_of t) }
{
    [0, 0] == [t.r1, t.r2] && load_cells(key, iv) == t.cells
}

// Whether the registers are those that the key and the IV load, and opening accepts these.
fn leads(t: State, key: &[u8], iv: &[u8]) -> bool
    ensures { result ≡ (same_registers (load key.now iv.now) (registers_of t) && opening_accepts key.now iv.now) }
{
    is_loading(t, key, iv) && check_key_and_iv(key, iv).is_ok()
}

// The key that leads to the state with this IV, to the target; or a refusal, with nothing written. The state comes back as it came.
pub fn check(s: State, iv: &[u8], target: &mut [u8]) -> Result<State, Refused>
    ensures value { answered result ≡ checked s iv.now target.old }
    ensures target_after { target.new ≡ checked_target s iv.now target.old }
    ensures checks_exactly { ChecksExactly s iv.now target.old }
{
    let n = target.len();
    check_lengths(s, iv, n).map_err(|refusal| refuse(refusal, s))?;
    let t = walk_to_loading(s);
    let mut room = [0; 64];
    recover_key(t.cells, iv, &mut room[..n]);
    let key = &room[..n];
    if !leads(t, key, iv) {
        return Err(refuse(Refusal::NoKeyLeads, s));
    }
    target.copy_from_slice(key);
    Ok(s)
}
