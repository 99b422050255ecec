// The sixteen cells that a key and an IV load.
#![tactic(auto)]

ghost use Rattle.std.specs.Prelude.{◌≡◌};
ghost use Rattle.galois.specs.Words.{at};
ghost use Rattle.loading.specs.Loading.{rows256, rows512, loaded_cells, load};

use loading::words;

// The cells of a 256-bit key and an IV, s0 first. Document 01 has a table of cells for each size, and each table a function here that says it cell by cell:
// one function over rows would need the rows as values, and say no less.
fn cells_256(k: [u64; 4], v: [u64; 4]) -> [u64; 16]
    ensures { result ≡ loaded_cells rows256 (at k) (at v) }
{
    [
        k[3] ^ v[0],
        k[2],
        k[1] ^ v[1],
        k[0] ^ v[2],
        k[3],
        k[2] ^ v[3],
        !k[1],
        !k[0],
        k[3],
        k[2],
        !k[1],
        k[0],
        k[3],
        !k[2],
        k[1],
        !k[0],
    ]
}

// The cells of a 512-bit key and an IV, s0 first.
fn cells_512(k: [u64; 8], v: [u64; 4]) -> [u64; 16]
    ensures { result ≡ loaded_cells rows512 (at k) (at v) }
{
    [
        k[7] ^ v[0],
        k[6],
        k[5],
        k[4] ^ v[1],
        k[3],
        k[2] ^ v[2],
        k[1],
        !k[0],
        k[4] ^ v[3],
        !k[6],
        k[5],
        !k[7],
        k[3],
        k[2],
        !k[1],
        k[0],
    ]
}

// The cells of a key and an IV.
pub fn load_cells(key: &[u8], iv: &[u8]) -> [u64; 16]
    ensures { result ≡ (load key.now iv.now).cells }
{
    let v = words(iv);
    if key.len() == 32 {
        cells_256(words(key), v)
    } else {
        cells_512(words(key), v)
    }
}
