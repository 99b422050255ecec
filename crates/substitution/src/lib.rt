// The substitution T: plainly, through eight tables, and inverted.
#![tactic(auto)]

ghost use Rattle.std.specs.Prelude.{◌≡◌};
ghost use Rattle.substitution.specs.Substitution.{substitute, substitute_inverse, look_up, look_up_through};

use matrix::{circulant_times, matrix_inverse_row, matrix_row};
use sboxes::{pi_inverse_tables, pi_tables, through_tables};

// T plainly: π, then M in the byte field.
#[tactic(auto, unfolding(crate::specs::Substitution::substitute))]
pub fn substitute_word(w: u64) -> u64
    ensures { result ≡ substitute w }
{
    circulant_times(matrix_row(), through_tables(w, pi_tables()))
}

// T inverted: the inverse of M, then that of π.
#[tactic(auto, unfolding(crate::specs::Substitution::substitute_inverse))]
pub fn substitute_word_inverse(w: u64) -> u64
    ensures { result ≡ substitute_inverse w }
{
    through_tables(
        circulant_times(matrix_inverse_row(), w),
        pi_inverse_tables(),
    )
}

// T through the eight tables that are lent.
pub fn substitute_word_by_tables(w: u64, tables: &[[u64; 256]; 8]) -> u64
    ensures { result ≡ look_up tables.now w }
{
    let mut sum = 0;
    for (j, byte) in w.to_le_bytes().iter().enumerate() {
        sum ^= tables[j][usize::from(*byte)];
    }
    sum
}

// T inverted through the tables that are lent: eight of the inverse of M, then four of the inverse of π.
pub fn substitute_word_inverse_by_tables(
    w: u64,
    columns: &[[u64; 256]; 8],
    bytes: &[[u8; 256]; 4],
) -> u64
    ensures { result ≡ look_up_through columns.now bytes.now w }
{
    through_tables(substitute_word_by_tables(w, columns), bytes)
}
