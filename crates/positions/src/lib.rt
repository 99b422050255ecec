// A state at another position: its registers walked to that position's word, forward or back, with the cipher's tables.
#![tactic(auto)]

ghost use Rattle.std.specs.Prelude.{◌≡◌};
ghost use Rattle.galois.specs.Alpha.{alpha_inverse_table};
ghost use Rattle.sboxes.specs.Sboxes.{pi_inverse};
ghost use Rattle.substitution.specs.Substitution.{matrix_inverse_tables};
ghost use Rattle.positions.specs.Positions.{moved_to};

use columns::{matrix_inverse_tables, step_tables};
use galois::alpha_inverse_table;
use generator::{BackTables, Kind, State};
use sboxes::pi_inverse_tables;
use walks::{backward, forward};

// The cipher's tables of a step back.
pub fn back_tables() -> BackTables<'static>
    ensures columns { result.columns.now ≡ matrix_inverse_tables }
    ensures bytes { result.bytes.now ≡ pi_inverse }
    ensures inverse { result.inverse.now ≡ alpha_inverse_table }
{
    BackTables {
        columns: matrix_inverse_tables(),
        bytes: pi_inverse_tables(),
        inverse: alpha_inverse_table(),
    }
}

// The state at another position, its registers walked to that position's word.
pub fn move_to(s: State, to: u64) -> State
    ensures { result ≡ moved_to s to }
{
    let here = s.position / 8;
    let there = to / 8;
    let t = if here <= there {
        forward(Kind::Ordinary, s, there - here, step_tables())
    } else {
        backward(Kind::Ordinary, s, here - there, back_tables())
    };
    State { position: to, ..t }
}
