// The block cipher of DSTU 7624:2014 (Kalyna) with block and key of 256 bits: a block enciphered and deciphered under a key, all as bytes.
// Key, source and target are parameters of their own, as README and the header for C have them.
#![tactic(auto)]

ghost use Rattle.std.specs.Prelude.{◌≡◌, [], get_or};
ghost use Rattle.galois.specs.Words.{tabulate};
ghost use Rattle.refusals.specs.Refusals.{number_of};
ghost use Rattle.refusals.specs.Tests.{written};
ghost use Rattle.kalyna_cipher.specs.Blocks.{block_of, bytes_of};
ghost use Rattle.kalyna_cipher.specs.Kalyna.{round_key};
ghost use Rattle.kalyna.specs.Calls.{block_tests, block_number, enciphered_target, deciphered_target};
ghost use Rattle.kalyna.specs.Directions.{through, bytes_through};

mod directions;

use directions::{Deciphering, Direction, Enciphering};
use galois::byte_of;
use kalyna_keys::round_keys;
use kalyna_rounds::{matrix_inverse_four, substitution_four, xor};
use refusals::Refusal;
use sboxes::pi_inverse_tables;
use std::array::from_fn;
use words::load_word;

// ---- four words and 32 bytes

// The words of 32 bytes.
fn load_block(bytes: &[u8; 32]) -> [u64; 4]
    ensures { result ≡ block_of bytes.now }
{
    from_fn(|c| load_word(&bytes[8 * c..8 * c + 8]))
}

// The bytes of four words.
fn store_block(s: [u64; 4]) -> [u8; 32]
    ensures { result ≡ bytes_of s }
{
    from_fn(|i| byte_of(s[i / 8], (i % 8) as u64))
}

// ---- a block under a key

// A block through the fourteen rounds, with the round keys in their order.
fn pass_rounds<D: Direction>(direction: &D, s: [u64; 4], keys: &[[u64; 4]; 15]) -> [u64; 4]
    ensures { result ≡ through D.joined (D.turned direction.now) (λ n. get_or keys.now n []) s }
{
    let mut t = direction.round(direction.join(s, keys[0]));
    for n in 1..14 {
        t = direction.round(xor(t, keys[n]));
    }
    direction.join(t, keys[14])
}

// The source in this direction under the key, to the target, all of 32 bytes; or a refusal, with nothing written.
fn pass_block<D: Direction>(
    direction: &D,
    key: &[u8],
    source: &[u8],
    target: &mut [u8],
) -> Result<(), Refusal>
    ensures value { number_of result ≡ block_number key.now source.now target.old }
    ensures target_after { target.new ≡ written (block_tests key.now source.now target.old) (bytes_through D.joined (D.turned direction.now) D.ordered key.now source.now) target.old }
{
    let key = key.as_array().ok_or(Refusal::BlockLength)?;
    let source = source.as_array().ok_or(Refusal::BlockLength)?;
    let target = target.as_mut_array().ok_or(Refusal::BlockLength)?;
    let keys = direction.order(round_keys(load_block(key), substitution_four()));
    *target = store_block(pass_rounds(direction, load_block(source), &keys));
    Ok(())
}

// ---- the calls

// The source enciphered under the key, to the target, all of 32 bytes; or a refusal, with nothing written.
pub fn encipher(key: &[u8], source: &[u8], target: &mut [u8]) -> Result<(), Refusal>
    ensures value { number_of result ≡ block_number key.now source.now target.old }
    ensures target_after { target.new ≡ enciphered_target key.now source.now target.old }
{
    let enciphering = Enciphering {
        tables: substitution_four(),
    };
    pass_block(&enciphering, key, source, target)
}

// The source deciphered under the key, to the target, all of 32 bytes; or a refusal, with nothing written.
pub fn decipher(key: &[u8], source: &[u8], target: &mut [u8]) -> Result<(), Refusal>
    ensures value { number_of result ≡ block_number key.now source.now target.old }
    ensures target_after { target.new ≡ deciphered_target key.now source.now target.old }
{
    let deciphering = Deciphering {
        columns: matrix_inverse_four(),
        bytes: pi_inverse_tables(),
    };
    pass_block(&deciphering, key, source, target)
}
