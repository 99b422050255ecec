// The eight tables of T, those of the inverse of M, and the ten of a step, each lent for as long as the program runs.
#![tactic(auto)]

ghost use Rattle.std.specs.Prelude.{◌≡◌};
ghost use Rattle.substitution.specs.Substitution.{substitution_tables, matrix_inverse_tables, step_tables};

mod tables;

pub use tables::{MATRIX_INVERSE, SUBSTITUTION};

// Each has a function of its own, since the contract of each is all that it has to say: which rule's tables the constant holds.

// The eight tables of T: table j holds, for each byte c, column j of M times what π sends c to as byte j.
pub fn substitution_tables() -> &'static [[u64; 256]; 8]
    ensures { result.now ≡ substitution_tables }
{
    &tables::SUBSTITUTION
}

// The eight tables of the inverse of M: table j holds, for each byte c, column j of it times c.
pub fn matrix_inverse_tables() -> &'static [[u64; 256]; 8]
    ensures { result.now ≡ matrix_inverse_tables }
{
    &tables::MATRIX_INVERSE
}

// The ten tables of a step: the eight of T, then that of α, then that of its inverse.
pub fn step_tables() -> &'static [[u64; 256]; 10]
    ensures { result.now ≡ step_tables }
{
    &tables::STEP
}
