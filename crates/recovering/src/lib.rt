// The key that sixteen cells give with an IV.
#![tactic(auto)]

ghost use Rattle.std.specs.Prelude.{◌≡◌, ◌*◌, length};
ghost use Rattle.galois.specs.Words.{at, tabulate};
ghost use Rattle.loading.specs.Loading.{rows_of};
ghost use Rattle.loading.specs.Recovery.{recovered_word, string_of, recovered_key};

use galois::byte_of;
use loading::words;

// The words of the key of n bytes that these cells give, s0 first, with the IV words v; 0 past its last.
fn key_words(n: usize, c: [u64; 16], v: [u64; 4]) -> [u64; 8]
    ensures { result ≡ tabulate 8 (recovered_word (rows_of (8 * n)) (at v) c) }
{
    if n == 32 {
        [!c[15], c[14], !c[13], c[12], 0, 0, 0, 0]
    } else {
        [
            c[15],
            !c[14],
            c[13],
            c[12],
            c[8] ^ v[3],
            c[10],
            !c[9],
            !c[11],
        ]
    }
}

// The string that has these words: the highest word first, and in each word the most significant byte.
fn write_words(words: [u64; 8], string: &mut [u8])
    ensures { string.new ≡ string_of (length string.old) (at words) }
{
    let n = string.len();
    for (p, byte) in string.iter_mut().enumerate() {
        let q = n - 1 - p;
        let w = words.get(q / 8).copied().unwrap_or(0);
        *byte = byte_of(w, (q % 8) as u64);
    }
}

// The key that these cells give with the IV, of as many bytes as are lent for it.
pub fn recover_key(cells: [u64; 16], iv: &[u8], key: &mut [u8])
    ensures { key.new ≡ recovered_key (length key.old) iv.now cells }
{
    write_words(key_words(key.len(), cells, words(iv)), key);
}
