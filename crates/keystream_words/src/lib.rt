// The keystream over the whole words of a buffer, in place, from the start of a word on. Tables are lent.
#![tactic(auto)]

ghost use Rattle.std.proofs.Common.{lit<};
ghost use Rattle.std.specs.Prelude.{refl, ℕ, ◌≡◌, ◌*◌, ◌/◌, ◌%◌, ◌<◌, length};
ghost use Rattle.generator.specs.declared.Kind.TheVariants.{Ordinary};
ghost use Rattle.generator.specs.Functions.{next_in};
ghost use Rattle.keystream_words.specs.Keystream.{KeystreamOver, KeystreamUpTo};

use generator::{Kind, State, step};
use masking::mask_word;

// ---- words in a straight line

// A line of words, taken one after the other.
trait Line {
    const BYTES: usize;

    ghost BYTES: { ℕ };

    fn apply(s: State, tables: &[[u64; 256]; 10], part: &mut [u8]) -> State
        requires { length part.old ≡ BYTES }
        ensures { KeystreamOver (next_in tables.now Ordinary) 0 s part.old result part.new };

    // Whole words, one at least.
    ghost whole: { (BYTES % 8 ≡ 0) × (0 < BYTES) };
}

struct Word;

impl Line for Word {
    const BYTES: usize = 8;

    ghost BYTES = { 8 };

    ghost whole = { (refl, lit< tt) };

    #[inline(always)]
    fn apply(s: State, tables: &[[u64; 256]; 10], part: &mut [u8]) -> State {
        let stepped = step(Kind::Ordinary, s, tables);
        mask_word(stepped.word, part);
        stepped.state
    }
}

struct Eight;

impl Line for Eight {
    const BYTES: usize = 64;

    ghost BYTES = { 64 };

    ghost whole = { (refl, lit< tt) };

    // Unrolled by hand, since the compiler makes no straight line of a loop of eight steps.
    #[inline(always)]
    fn apply(s: State, tables: &[[u64; 256]; 10], part: &mut [u8]) -> State {
        let a = Word::apply(s, tables, &mut part[0..8]);
        let b = Word::apply(a, tables, &mut part[8..16]);
        let c = Word::apply(b, tables, &mut part[16..24]);
        let d = Word::apply(c, tables, &mut part[24..32]);
        let e = Word::apply(d, tables, &mut part[32..40]);
        let f = Word::apply(e, tables, &mut part[40..48]);
        let g = Word::apply(f, tables, &mut part[48..56]);
        Word::apply(g, tables, &mut part[56..64])
    }
}

// The line that a long portion goes by.
struct Sixteen;

impl Line for Sixteen {
    const BYTES: usize = 128;

    ghost BYTES = { 128 };

    ghost whole = { (refl, lit< tt) };

    fn apply(s: State, tables: &[[u64; 256]; 10], part: &mut [u8]) -> State {
        let t = Eight::apply(s, tables, &mut part[0..64]);
        Eight::apply(t, tables, &mut part[64..128])
    }
}

// ---- whole portions

// Whole lines, by their places: once the parts that `chunks_exact_mut` lends have ended, a proof knows nothing of their bytes.
fn apply_lines<L: Line>(s: State, tables: &[[u64; 256]; 10], buffer: &mut [u8]) -> State
    requires { length buffer.old % L.BYTES ≡ 0 }
    ensures { KeystreamOver (next_in tables.now Ordinary) 0 s buffer.old result buffer.new }
{
    let bytes = L::BYTES;
    let mut t = s;
    for line in 0..buffer.len() / bytes {
        let i = line * bytes;
        t = L::apply(t, tables, &mut buffer[i..i + bytes]);
    }
    t
}

// The keystream over the whole words of the buffer by the tables that are lent, from the start of the state's word on: blocks, half a block, words.
// What is left, less than a word, is kept.
pub fn apply_words(s: State, tables: &[[u64; 256]; 10], buffer: &mut [u8]) -> State
    ensures { KeystreamUpTo (length buffer.old / 8 * 8) (next_in tables.now Ordinary) 0 s buffer.old result buffer.new }
{
    let n = buffer.len();
    let l = n / 128 * 128;
    let j = n / 64 * 64;
    let m = n / 8 * 8;
    let a = apply_lines::<Sixteen>(s, tables, &mut buffer[0..l]);
    let b = apply_lines::<Eight>(a, tables, &mut buffer[l..j]);
    apply_lines::<Word>(b, tables, &mut buffer[j..m])
}
