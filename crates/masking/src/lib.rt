// A word of keystream over bytes, in place: over eight bytes at once, or byte by byte from any byte of the word on.
#![tactic(auto)]

ghost use Rattle.std.specs.Prelude.{◌≡◌};
ghost use Rattle.masking.specs.Masking.{byte_at, masked};

use galois::byte_of;
use words::{load_word, store_word};

// The keystream word z, from its byte p on and round again, over the bytes one by one.
pub fn mask_bytes(z: u64, p: u64, part: &mut [u8])
    ensures { part.new ≡ masked (byte_at z) p part.old }
{
    for (i, byte) in part.iter_mut().enumerate() {
        *byte ^= byte_of(z, (p % 8 + i as u64 % 8) % 8);
    }
}

// The keystream word z over the bytes: eight of them at once, another number one by one. Where the length is known to be eight the compiler drops the
// test.
pub fn mask_word(z: u64, part: &mut [u8])
    ensures { part.new ≡ masked (byte_at z) 0 part.old }
{
    if part.len() != 8 {
        mask_bytes(z, 0, part);
        return;
    }
    let x = load_word(part) ^ z;
    store_word(part, x);
}
