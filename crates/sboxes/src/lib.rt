// The four tables of π and their inverses, and the bytes of a word through four tables.
#![tactic(auto)]

ghost use Rattle.std.specs.Prelude.{◌≡◌};
ghost use Rattle.sboxes.specs.Sboxes.{pi, pi_inverse, through};

mod tables;

// ---- the tables

// Each has a function of its own, since the contract of each is all that it has to say: which tables the constant holds.

// The four tables of π.
pub fn pi_tables() -> &'static [[u8; 256]; 4]
    ensures { result.now ≡ pi }
{
    &tables::PI
}

// The four tables of the inverse of π.
pub fn pi_inverse_tables() -> &'static [[u8; 256]; 4]
    ensures { result.now ≡ pi_inverse }
{
    &tables::PI_INVERSE
}

// ---- a word through tables

// Each byte of w through its table: byte j through table j mod 4.
pub fn through_tables(w: u64, tables: &[[u8; 256]; 4]) -> u64
    ensures { result ≡ through tables.now w }
{
    let mut bytes = w.to_le_bytes();
    for (j, byte) in bytes.iter_mut().enumerate() {
        *byte = tables[j % 4][usize::from(*byte)];
    }
    u64::from_le_bytes(bytes)
}
