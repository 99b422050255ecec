// Runs DSTU 8845's published vectors, then keys of zeros and pairs of key and IV that load the same cells as these, then DSTU 7624's published
// vectors and lengths that its block cipher refuses, and prints a line for each. The file `stdout` beside it is what another implementation
// printed for the same list.
#![tactic(auto)]

mod tables;

use generator::State;
use printing::{Bytes, Out, Word, Words, number_and_state};
use std::fmt;
use std::fmt::Write;
use strumok::{apply, check, open};
use tables::{IV_4321, IV_ZERO, KEY_80, KEY_AA};

// ---- the published vectors

// The first eight words of the keystream.
fn vector(out: &mut Out, place: usize, key: &[u8], iv: &[u8]) -> fmt::Result {
    let (_, s) = number_and_state(open(key, iv));
    let mut target = [0; 64];
    let _ = apply(s, &[0; 64], &mut target);
    let mut words = [0; 8];
    for (word, eight) in words.iter_mut().zip(target.as_chunks::<8>().0) {
        *word = u64::from_le_bytes(*eight);
    }
    writeln!(out, "vector {place} {}{}", s.size, Words(&words))
}

// The four of each size: two keys with the one IV, and with the other.
fn vectors(out: &mut Out) -> fmt::Result {
    let (short_80, short_aa) = (&KEY_80[..32], &KEY_AA[..32]);
    let published = [
        (short_80, &IV_ZERO),
        (short_aa, &IV_ZERO),
        (short_80, &IV_4321),
        (short_aa, &IV_4321),
        (&KEY_80, &IV_ZERO),
        (&KEY_AA, &IV_ZERO),
        (&KEY_80, &IV_4321),
        (&KEY_AA, &IV_4321),
    ];
    for (i, (key, iv)) in published.into_iter().enumerate() {
        vector(out, i + 1, key, iv)?;
    }
    Ok(())
}

// ---- keys of zeros

// Opening with a key of zeros.
fn zero_key(out: &mut Out, bits: u64, key: &[u8]) -> fmt::Result {
    let (number, _) = number_and_state(open(key, &IV_ZERO));
    writeln!(out, "open {bits} zeros: {number}")
}

// A check into a key target of bytes FF.
fn check_with(out: &mut Out, name: &str, s: State, iv: &[u8]) -> fmt::Result {
    let mut key = [255; 64];
    let (number, _) = number_and_state(check(s, iv, &mut key));
    writeln!(out, "check with {name}: {number} {}", Bytes(&key))
}

// Opening with a key and an IV whose words are 0 but K4 = IV3 = IV1 = x, which load what the key and the IV of zeros load, and the check of that
// state with that IV and with the IV of zeros.
fn loaded_alike(out: &mut Out, x: u64) -> fmt::Result {
    let mut key = [0; 64];
    let mut iv = IV_ZERO;
    let bytes = x.to_be_bytes();
    key[24..32].copy_from_slice(&bytes);
    iv[0..8].copy_from_slice(&bytes);
    iv[16..24].copy_from_slice(&bytes);
    let (number, s) = number_and_state(open(&key, &iv));
    writeln!(out, "open 512 K4 = IV3 = IV1 ={}: {number}", Word(x))?;
    check_with(out, "that IV", s, &iv)?;
    check_with(out, "an IV of zeros", s, &IV_ZERO)
}

fn print_all(out: &mut Out) -> fmt::Result {
    vectors(out)?;
    zero_key(out, 256, &[0; 32])?;
    zero_key(out, 512, &[0; 64])?;
    loaded_alike(out, 1)?;
    loaded_alike(out, 1 << 63)?;
    block_trials::published(out)?;
    block_trials::lengths(out)
}

fn main() {
    // A write that fails is passed over, as `Out` does.
    let _ = print_all(&mut Out);
}
