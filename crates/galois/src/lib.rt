// Bytes and words, the byte field, the tables of α and of its inverse, and the products of a word with α and its inverse by table.
#![tactic(auto)]

ghost use Rattle.std.specs.Prelude.{◌≡◌, ◌+◌, ◌*◌, ◌%◌, ◌^◌};
ghost use Rattle.galois.specs.Words.{byte, at};
ghost use Rattle.galois.specs.Field.{xtime, gmul};
ghost use Rattle.galois.specs.Alpha.{alpha_table, alpha_inverse_table, alpha_times_with, alpha_inverse_times_with};

mod tables;

pub use tables::{ALPHA, ALPHA_INVERSE};

// ---- bytes and words

// Byte j of a word; byte 0 is the least significant. A word has no byte past 7: there it is 0.
pub fn byte_of(w: u64, j: u64) -> u8
    ensures { result ≡ byte w j }
{
    w.to_le_bytes().get(j as usize).copied().unwrap_or(0)
}

// The bytes of w each moved up one place, the top one lost, and x as byte 0.
pub fn append_byte(w: u64, x: u8) -> u64
    ensures { (result ≡ w * 2 ^ 8 % 2 ^ 64 + x) × (byte result 0 ≡ x) }
{
    (w << 8) + u64::from(x)
}

// ---- the byte field

// β times a byte.
fn beta_times(a: u8) -> u8
    ensures { result ≡ xtime a }
{
    let x = u64::from(a);
    (((x / 128 * 0x11D) ^ (x * 2)) % 256) as u8
}

// The product of two bytes.
pub fn product(a: u8, b: u8) -> u8
    ensures { result ≡ gmul a b }
{
    let mut sum = 0;
    let mut x = a;
    let mut bits = b;
    for _ in 0..8u8 {
        sum ^= bits % 2 * x;
        x = beta_times(x);
        bits /= 2;
    }
    sum
}

// ---- α

// Each table has a function of its own, since the contract of each is all that it has to say: which rule's table the constant is.

// The table of α.
pub fn alpha_table() -> &'static [u64; 256]
    ensures { result.now ≡ alpha_table }
{
    &ALPHA
}

// The table of α inverse.
pub fn alpha_inverse_table() -> &'static [u64; 256]
    ensures { result.now ≡ alpha_inverse_table }
{
    &ALPHA_INVERSE
}

// α times w, by the table that is lent.
pub fn alpha_times_by_table(w: u64, table: &[u64; 256]) -> u64
    ensures { result ≡ alpha_times_with (at table.now) w }
{
    (w << 8) ^ table[((w >> 56) % 256) as usize]
}

// α inverse times w, by the table that is lent. Not one function with the above: the other direction of the shift and the other end of the word would be
// parameters, and its body a choice between these two.
pub fn alpha_inverse_times_by_table(w: u64, table: &[u64; 256]) -> u64
    ensures { result ≡ alpha_inverse_times_with (at table.now) w }
{
    (w >> 8) ^ table[((w >> 0) % 256) as usize]
}
