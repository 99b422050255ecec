// Opening a state from key and IV, two parameters in README and in the header for C.
#![tactic(auto)]

ghost use Rattle.std.specs.Prelude.{◌≡◌};
ghost use Rattle.generator.specs.Registers.{registers_of, with_registers};
ghost use Rattle.loading.specs.Loading.{initialised};
ghost use Rattle.refusals.specs.Refusals.{number_of};
ghost use Rattle.refusals.specs.Tests.{returned};
ghost use Rattle.answers.specs.Answers.{answered};
ghost use Rattle.opening.specs.Opening.{all_zero, opening_tests, opened};

use answers::{Refused, refuse};
use cells::load_cells;
use columns::step_tables;
use generator::{Kind, State};
use refusals::Refusal;
use walks::forward;

// The blank state: all of it 0.
const BLANK: State = State {
    cells: [0; 16],
    r1: 0,
    r2: 0,
    size: 0,
    position: 0,
};

// Whether every byte is 0; all are looked at, whatever they hold.
fn all_zero(bytes: &[u8]) -> bool
    ensures { result ≡ all_zero bytes.now }
{
    bytes.iter().fold(0, |bits, byte| bits | *byte) == 0
}

// Whether opening accepts a key and an IV: 1, 2 or 14, in this order, where it does not.
pub fn check_key_and_iv(key: &[u8], iv: &[u8]) -> Result<(), Refusal>
    ensures { number_of result ≡ returned (opening_tests key.now iv.now) }
{
    match key.len() {
        32 | 64 => {
            if iv.len() != 32 {
                return Err(Refusal::IvLength);
            }
            if all_zero(key) {
                return Err(Refusal::ZeroKey);
            }
            Ok(())
        }
        _ => Err(Refusal::KeyLength),
    }
}

// From the loaded registers to those of S_0: 32 steps of initialisation and 1 ordinary step.
fn initialise(s: State) -> State
    ensures { result ≡ with_registers s (initialised (registers_of s)) }
{
    let tables = step_tables();
    let t = forward(Kind::Initial, s, 32, tables);
    forward(Kind::Ordinary, t, 1, tables)
}

// The state of a key of 32 or 64 bytes, not all of them zero, and an IV of 32, at position 0; or a refusal, with the blank state.
pub fn open(key: &[u8], iv: &[u8]) -> Result<State, Refused>
    ensures { answered result ≡ opened key.now iv.now }
{
    check_key_and_iv(key, iv).map_err(|refusal| refuse(refusal, BLANK))?;
    let loaded = State {
        cells: load_cells(key, iv),
        r1: 0,
        r2: 0,
        size: 8 * (key.len() as u64),
        position: 0,
    };
    Ok(initialise(loaded))
}
