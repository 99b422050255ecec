// What the programs that run edges, checks and steps share: keys and IVs, and the state of a key and an IV at a position.
#![tactic(auto)]

pub mod tables;

ghost use Rattle.std.specs.Prelude.{◌≡◌};
ghost use Rattle.opening.specs.Opening.{opened};
ghost use Rattle.moving.specs.Moving.{moved};

use generator::State;
use printing::number_and_state;
use strumok::{move_by, open};

// The state of key and IV at a position. A refused call hands over the state that it gives back: the contract says which.
pub fn opened_at(key: &[u8], iv: &[u8], position: i64) -> State
    ensures { result ≡ (moved (opened key.now iv.now).state position).state }
{
    let (_, s) = number_and_state(open(key, iv));
    let (_, at) = number_and_state(move_by(s, position));
    at
}
