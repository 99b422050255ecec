// The keystream over a buffer, in place, from any byte of a state's word on. Tables are lent, beside a state that is
// passed by value: whoever holds tables, as a caller in C may, lends them to any number of states.
#![tactic(auto)]

ghost use Rattle.std.specs.Prelude.{◌+◌, ◌%◌, ◌<◌, ◌≤◌, length};
ghost use Rattle.generator.specs.declared.Kind.TheVariants.{Ordinary};
ghost use Rattle.generator.specs.Functions.{next_in};
ghost use Rattle.keystream_words.specs.Keystream.{KeystreamOver};

use generator::{Kind, State, step};
use keystream_words::apply_words;
use masking::mask_bytes;

// Bytes from byte p of the word on that end with it or before. A word used up is stepped over; the rest of another is left to the next portion.
fn apply_edge(s: State, p: u64, tables: &[[u64; 256]; 10], buffer: &mut [u8]) -> State
    requires { (p < 8) × (p + length buffer.old ≤ 8) }
    ensures { KeystreamOver (next_in tables.now Ordinary) p s buffer.old result buffer.new }
{
    if buffer.is_empty() {
        return s;
    }
    let n = buffer.len() as u64;
    let stepped = step(Kind::Ordinary, s, tables);
    mask_bytes(stepped.word, p, buffer);
    if p + n < 8 { s } else { stepped.state }
}

// From the start of a word on: whole words, and what is left.
fn apply_aligned(s: State, tables: &[[u64; 256]; 10], buffer: &mut [u8]) -> State
    ensures { KeystreamOver (next_in tables.now Ordinary) 0 s buffer.old result buffer.new }
{
    let n = buffer.len();
    let m = n / 8 * 8;
    let a = apply_words(s, tables, buffer);
    apply_edge(a, 0, tables, &mut buffer[m..n])
}

// From byte p of the word on: bytes up to the start of the next word, and what follows.
fn apply_from(s: State, p: u64, tables: &[[u64; 256]; 10], buffer: &mut [u8]) -> State
    requires { p < 8 }
    ensures { KeystreamOver (next_in tables.now Ordinary) p s buffer.old result buffer.new }
{
    let n = buffer.len();
    let k = ((8 - p) % 8) as usize;
    if n <= k {
        return apply_edge(s, p, tables, buffer);
    }
    let a = apply_edge(s, p, tables, &mut buffer[0..k]);
    apply_aligned(a, tables, &mut buffer[k..n])
}

// The keystream over the buffer by the tables that are lent, from the byte at the state's position on. The state's registers are walked on, its
// position is kept.
pub fn apply_keystream(s: State, tables: &[[u64; 256]; 10], buffer: &mut [u8]) -> State
    ensures { KeystreamOver (next_in tables.now Ordinary) (s.position % 8) s buffer.old result buffer.new }
{
    apply_from(s, s.position % 8, tables, buffer)
}
