// The bytes of the keys and IVs that edges, checks and steps are run with.
ghost use Rattle.std.specs.Prelude.{◌≡◌, ◌+◌, ◌≤◌, slice_set};
ghost use Rattle.galois.specs.Words.{tabulate};

use std::array;

// Bytes that rise by one each, from the first on.
fn rising<const N: usize>(first: u8) -> [u8; N]
    requires { first + N ≤ 256 }
    ensures { result ≡ tabulate N (λ i. first + i) }
{
    array::from_fn(move |i| first + i as u8)
}

// Bytes from 1 on: the keys, each as many of them as its length.
pub fn key() -> [u8; 65]
    ensures { result ≡ tabulate 65 (λ i. 1 + i) }
{
    rising(1)
}

// Bytes from 101 on: the IV.
pub fn iv() -> [u8; 32]
    ensures { result ≡ tabulate 32 (λ i. 101 + i) }
{
    rising(101)
}

// That IV with one bit changed.
pub fn other_iv() -> [u8; 32]
    ensures { result ≡ slice_set (tabulate 32 (λ i. 101 + i)) 31 133 }
{
    let mut iv = iv();
    iv[31] ^= 1;
    iv
}
