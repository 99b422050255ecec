// The block cipher of DSTU 7624:2014 on four words: round keys added, subtracted and xored word by word; a round by the first four tables of T, and
// back by the first four of M inverse and those of π inverse. Tables are lent.
#![tactic(auto)]

ghost use Rattle.std.specs.Prelude.{◌≡◌, ◌<◌, [], ◌∷◌};
ghost use Rattle.substitution.specs.Substitution.{halves_exchanged};
ghost use Rattle.kalyna_cipher.specs.Rounds.{added, subtracted, xored};
ghost use Rattle.kalyna_rounds.specs.RoundsByTables.{substitution_four, matrix_inverse_four, looked_up_half, gathered, sent_half, sent_on, round_by, round_inverse_by};

use columns::{matrix_inverse_tables, substitution_tables};
use std::array::from_fn;
use words::widen;

// ---- round keys, word by word: a function for each operation, in a line each, since one for all three would have to be told which by a closure

pub fn add(s: [u64; 4], k: [u64; 4]) -> [u64; 4]
    ensures { result ≡ added k s }
{
    from_fn(|c| s[c].wrapping_add(k[c]))
}

pub fn subtract(s: [u64; 4], k: [u64; 4]) -> [u64; 4]
    ensures { result ≡ subtracted k s }
{
    from_fn(|c| words::subtract(s[c], k[c]))
}

pub fn xor(s: [u64; 4], k: [u64; 4]) -> [u64; 4]
    ensures { result ≡ xored k s }
{
    from_fn(|c| s[c] ^ k[c])
}

// ---- the tables: a function each, since one for both would have to be told which

// The first four tables of T. The second four are these with the halves of each entry exchanged.
pub fn substitution_four() -> &'static [[u64; 256]; 4]
    ensures { result.now ≡ substitution_four }
{
    substitution_tables().first_chunk().unwrap()
}

// The first four tables of M inverse. The second four are these with the halves of each entry exchanged.
pub fn matrix_inverse_four() -> &'static [[u64; 256]; 4]
    ensures { result.now ≡ matrix_inverse_four }
{
    matrix_inverse_tables().first_chunk().unwrap()
}

// ---- a round

// The two halves of a word exchanged.
fn exchange_halves(w: u64) -> u64
    ensures { result ≡ halves_exchanged w }
{
    w.rotate_left(32)
}

// The entries of four tables at bytes 0 and 1 of w and bytes 2 and 3 of x, together. By shifts: two bytes are taken of each word, and none of the others made.
// Words go one by one and not as an array, since the callers name them in the order of the shift.
fn look_up_half(w: u64, x: u64, tables: &[[u64; 256]; 4]) -> u64
    ensures { result ≡ looked_up_half tables.now w x }
{
    tables[0][((w >> 0) % 256) as usize]
        ^ tables[1][((w >> 8) % 256) as usize]
        ^ tables[2][((x >> 16) % 256) as usize]
        ^ tables[3][((x >> 24) % 256) as usize]
}

// What eight tables hold at two bytes of each word, together, by the first four of them.
fn gather(w: u64, x: u64, y: u64, z: u64, tables: &[[u64; 256]; 4]) -> u64
    ensures { result ≡ gathered tables.now (w ∷ x ∷ y ∷ z ∷ []) }
{
    look_up_half(w, x, tables) ^ exchange_halves(look_up_half(y >> 32, z >> 32, tables))
}

// Word by word: counted with a remainder by 4, the four lines would not show where the shift takes its bytes from.
pub fn round_by_tables(s: [u64; 4], tables: &[[u64; 256]; 4]) -> [u64; 4]
    ensures { result ≡ round_by tables.now s }
{
    [
        gather(s[0], s[3], s[2], s[1], tables),
        gather(s[1], s[0], s[3], s[2], tables),
        gather(s[2], s[1], s[0], s[3], tables),
        gather(s[3], s[2], s[1], s[0], tables),
    ]
}

// ---- a round back

// Bytes 0 and 1 of w and bytes 2 and 3 of x, each through its table, as the lower half of a word; by shifts, as above.
fn send_half(w: u64, x: u64, bytes: &[[u8; 256]; 4]) -> u64
    ensures { (result ≡ sent_half bytes.now w x) × (result < 0x100000000) }
{
    widen(bytes[0][((w >> 0) % 256) as usize])
        + widen(bytes[1][((w >> 8) % 256) as usize]) * 0x100
        + widen(bytes[2][((x >> 16) % 256) as usize]) * 0x10000
        + widen(bytes[3][((x >> 24) % 256) as usize]) * 0x1000000
}

// Two bytes of each word, each through its table.
fn send_on(w: u64, x: u64, y: u64, z: u64, bytes: &[[u8; 256]; 4]) -> u64
    ensures { result ≡ sent_on bytes.now (w ∷ x ∷ y ∷ z ∷ []) }
{
    send_half(y >> 32, z >> 32, bytes) * 0x100000000 + send_half(w, x, bytes)
}

// Word by word, as a round.
pub fn round_back_by_tables(
    s: [u64; 4],
    columns: &[[u64; 256]; 4],
    bytes: &[[u8; 256]; 4],
) -> [u64; 4]
    ensures { result ≡ round_inverse_by columns.now bytes.now s }
{
    let w = gather(s[0], s[0], s[0], s[0], columns);
    let x = gather(s[1], s[1], s[1], s[1], columns);
    let y = gather(s[2], s[2], s[2], s[2], columns);
    let z = gather(s[3], s[3], s[3], s[3], columns);
    [
        send_on(w, x, y, z, bytes),
        send_on(x, y, z, w, bytes),
        send_on(y, z, w, x, bytes),
        send_on(z, w, x, y, bytes),
    ]
}
