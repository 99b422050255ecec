// The block cipher of DSTU 7624:2014: the fifteen round keys of a key of four words. The tables of a round are lent.
#![tactic(auto)]

ghost use Rattle.std.specs.Prelude.{◌≡◌, ◌/◌, ◌%◌, ◌<◌, [], ◌∷◌, get_or};
ghost use Rattle.galois.specs.Words.{tabulate};
ghost use Rattle.words.specs.Memory.{bytes_from};
ghost use Rattle.kalyna_cipher.specs.Rounds.{added};
ghost use Rattle.kalyna_cipher.specs.RoundKeys.{intermediate_key_with, rotated_words, key_from, even_key_with, rotated_bytes, even_or_odd, round_key_with};
ghost use Rattle.kalyna_rounds.specs.RoundsByTables.{round_by};

use kalyna_rounds::{add, round_by_tables, xor};
use std::array::from_fn;

// The intermediate key. 9 is the sum of the bits of block, key and one word, in words.
fn intermediate_key(key: [u64; 4], tables: &[[u64; 256]; 4]) -> [u64; 4]
    ensures { result ≡ intermediate_key_with (round_by tables.now) key }
{
    let a = round_by_tables(add([9, 0, 0, 0], key), tables);
    let b = round_by_tables(xor(a, key), tables);
    round_by_tables(add(b, key), tables)
}

// An even round key: from the rotated words of the key, d, the constant, and the intermediate key.
fn even_key(
    d: [u64; 4],
    constant: u64,
    intermediate: [u64; 4],
    tables: &[[u64; 256]; 4],
) -> [u64; 4]
    ensures { result ≡ key_from (round_by tables.now) d (added (constant ∷ constant ∷ constant ∷ constant ∷ []) intermediate) }
{
    let t = add(intermediate, [constant, constant, constant, constant]);
    let a = round_by_tables(add(d, t), tables);
    let b = round_by_tables(xor(a, t), tables);
    add(b, t)
}

// The bytes of a word from byte 3 on, then the first three of the next word: by hand, since std has no word from the middle of two.
fn join(low: u64, high: u64) -> u64
    ensures { result ≡ bytes_from 3 low high }
{
    high % 0x1000000 * 0x10000000000 + (low >> 24)
}

// The 32 bytes rotated by 11 places towards the front: by a word and three bytes. Words are joined here, since as bytes they would be stored and loaded.
fn rotate_bytes(k: [u64; 4]) -> [u64; 4]
    ensures { result ≡ rotated_bytes k }
{
    [
        join(k[1], k[2]),
        join(k[2], k[3]),
        join(k[3], k[0]),
        join(k[0], k[1]),
    ]
}

// The words rotated by i places.
fn rotate_words(key: [u64; 4], i: usize) -> [u64; 4]
    requires { i < 8 }
    ensures { result ≡ rotated_words i key }
{
    from_fn(|j| key[(j + i) % 4])
}

// Round key k_(2i), from the key and the intermediate key.
fn even_key_at(
    i: usize,
    key: [u64; 4],
    intermediate: [u64; 4],
    tables: &[[u64; 256]; 4],
) -> [u64; 4]
    requires { i < 8 }
    ensures { result ≡ even_key_with (round_by tables.now) key intermediate i }
{
    let constant = 0x0001000100010001 << i;
    let d = rotate_words(key, i);
    even_key(d, constant, intermediate, tables)
}

// Round key k_n, from the even ones.
fn key_at(n: usize, even: &[[u64; 4]; 8]) -> [u64; 4]
    requires { n < 16 }
    ensures { result ≡ even_or_odd (n % 2) (get_or even.now (n / 2) []) }
{
    let k = even[n / 2];
    if n % 2 == 0 { k } else { rotate_bytes(k) }
}

// The round keys k_0 to k_14.
pub fn round_keys(key: [u64; 4], tables: &[[u64; 256]; 4]) -> [[u64; 4]; 15]
    ensures { result ≡ tabulate 15 (round_key_with (round_by tables.now) key) }
{
    let kt = intermediate_key(key, tables);
    let even = from_fn(
        |i: usize| -> [u64; 4]
            requires { i < 8 }
            ensures { result ≡ even_key_with (round_by tables.entry.now) key kt i }
        { even_key_at(i, key, kt, tables) },
    );
    from_fn(
        |n: usize| -> [u64; 4]
            requires { n < 16 }
            ensures { result ≡ even_or_odd (n % 2) (get_or even (n / 2) []) }
        { key_at(n, &even) },
    )
}
