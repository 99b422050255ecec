// Words of 64 bits: their difference, and a word as eight bytes in memory, the least significant first.
#![tactic(auto)]

ghost use Rattle.std.specs.Prelude.{◌≡◌, ◌<◌};
ghost use Rattle.galois.specs.Words.{at, difference, word};
ghost use Rattle.words.specs.Memory.{stored_word};

// ---- std's methods by name: the difference of a step back and of round keys, and a byte that is put in its place in a word

// The word to which b is added to give a.
pub fn subtract(a: u64, b: u64) -> u64
    ensures { result ≡ difference a b }
{
    a.wrapping_sub(b)
}

// A byte as a word.
pub fn widen(x: u8) -> u64
    ensures { (result ≡ x) × (result < 256) }
{
    u64::from(x)
}

// ---- a word in memory

// The first eight bytes as a word, the first byte least significant. Bytes that are not there count as 0. Where the length is known to be eight the compiler
// makes one load of this; a copy of the bytes by `copy_from_slice` it leaves with a test for parts that overlap.
pub fn load_word(part: &[u8]) -> u64
    ensures { result ≡ word 8 (at part.now) }
{
    let mut bytes = [0; 8];
    for (i, byte) in bytes.iter_mut().enumerate() {
        *byte = part.get(i).copied().unwrap_or(0);
    }
    u64::from_le_bytes(bytes)
}

// The bytes of a word, the least significant one first, to eight bytes. Where there are not eight, nothing is written.
pub fn store_word(part: &mut [u8], x: u64)
    ensures { part.new ≡ stored_word x part.old }
{
    if part.len() == 8 {
        part.copy_from_slice(&x.to_le_bytes());
    }
}
