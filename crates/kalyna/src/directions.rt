// The two directions of the cipher: what a round and a round key at either end make of a block, and in which order the round keys come.
ghost use Rattle.std.specs.Prelude.{◌≡◌, ℕ, List, reverse};
ghost use Rattle.kalyna_cipher.specs.Rounds.{added, subtracted};
ghost use Rattle.kalyna_rounds.specs.RoundsByTables.{round_by, round_inverse_by};

use kalyna_rounds::{add, round_back_by_tables, round_by_tables, subtract};

// A direction of the cipher, with the tables that its rounds go by.
pub trait Direction {
    // What a round key at either end makes of a block.
    ghost joined: { List ℕ → List ℕ → List ℕ };

    // What a round makes of it.
    ghost turned: { Self → List ℕ → List ℕ };

    // The round keys in the order in which they come.
    ghost ordered: { List (List ℕ) → List (List ℕ) };

    fn join(&self, s: [u64; 4], k: [u64; 4]) -> [u64; 4]
        ensures { result ≡ joined k s };

    fn round(&self, s: [u64; 4]) -> [u64; 4]
        ensures { result ≡ turned self.now s };

    fn order(&self, keys: [[u64; 4]; 15]) -> [[u64; 4]; 15]
        ensures { result ≡ ordered keys };
}

// Rounds by four tables of T, and round keys from k_0 on, the first and the last added.
#[derive(Clone, Copy)]
pub struct Enciphering<'a> {
    pub tables: &'a [[u64; 256]; 4],
}

impl Direction for Enciphering<'_> {
    ghost joined = { added };

    ghost turned = { λ d. round_by d.tables.now };

    ghost ordered = { λ keys. keys };

    fn join(&self, s: [u64; 4], k: [u64; 4]) -> [u64; 4] {
        add(s, k)
    }

    fn round(&self, s: [u64; 4]) -> [u64; 4] {
        round_by_tables(s, self.tables)
    }

    fn order(&self, keys: [[u64; 4]; 15]) -> [[u64; 4]; 15] {
        keys
    }
}

// Rounds back by four tables of M inverse and those of π inverse, and round keys from k_14 back, the first and the last subtracted.
#[derive(Clone, Copy)]
pub struct Deciphering<'a> {
    pub columns: &'a [[u64; 256]; 4],
    pub bytes: &'a [[u8; 256]; 4],
}

impl Direction for Deciphering<'_> {
    ghost joined = { subtracted };

    ghost turned = { λ d. round_inverse_by d.columns.now d.bytes.now };

    ghost ordered = { reverse };

    fn join(&self, s: [u64; 4], k: [u64; 4]) -> [u64; 4] {
        subtract(s, k)
    }

    fn round(&self, s: [u64; 4]) -> [u64; 4] {
        round_back_by_tables(s, self.columns, self.bytes)
    }

    fn order(&self, mut keys: [[u64; 4]; 15]) -> [[u64; 4]; 15] {
        keys.reverse();
        keys
    }
}
