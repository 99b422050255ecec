// The words of a key and an IV.
#![tactic(auto)]

ghost use Rattle.std.specs.Prelude.{◌≡◌, reverse};
ghost use Rattle.galois.specs.Words.{at, tabulate};
ghost use Rattle.loading.specs.Loading.{word_of};

use galois::append_byte;

// Byte k of a string, counted from its end; 0 before its start.
fn byte_from_end(string: &[u8], k: usize) -> u8
    ensures { result ≡ at (reverse string.now) k }
{
    let n = string.len();
    if k < n { string[n - 1 - k] } else { 0 }
}

// Word i of a string: the highest word is first, and in each word the most significant byte. A number of a byte that is too large for its type stops at the
// largest one, which is past every string as it is.
fn word_of(string: &[u8], i: usize) -> u64
    ensures { result ≡ word_of string.now i }
{
    let mut word = 0;
    for j in (0..8usize).rev() {
        let k = i.saturating_mul(8).saturating_add(j);
        word = append_byte(word, byte_from_end(string, k));
    }
    word
}

// Words 0 to N - 1 of a string.
pub fn words<const N: usize>(string: &[u8]) -> [u64; N]
    ensures { result ≡ tabulate N (word_of string.now) }
{
    let mut words = [0; N];
    for (i, word) in words.iter_mut().enumerate() {
        *word = word_of(string, i);
    }
    words
}
