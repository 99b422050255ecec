// The state of the cipher, and one step of it forward and back, ordinary or of initialisation. Tables are lent.
#![tactic(auto)]

ghost use Rattle.std.specs.Prelude.{◌≡◌, [], ◌∷◌, ◌++◌, take, drop};
ghost use Rattle.generator.specs.Registers.{F, mixed, keystream_word, registers_of, stepped_by};
ghost use Rattle.substitution.specs.Substitution.{look_up};
ghost use Rattle.generator.specs.Functions.{new_s15_by, next_in, step_back_by};

use galois::{alpha_inverse_times_by_table, alpha_times_by_table};
use substitution::substitute_word_inverse_by_tables;

// The cells s0..s15, the registers r1 and r2, the size mark (256 or 512) and the byte position, which is the point that the state claims. To C
// it is twenty 64-bit words in this order.
#[repr(C)]
#[derive(Clone, Copy)]
pub struct State {
    pub cells: [u64; 16],
    pub r1: u64,
    pub r2: u64,
    pub size: u64,
    pub position: u64,
}

// An ordinary step, or one of initialisation: an enum and no closure, since the laws are said of either kind by its name.
#[derive(Clone, Copy)]
pub enum Kind {
    Ordinary,
    Initial,
}

// What a step forward answers with, ordinary or of initialisation: the new state, and the keystream word of the state that it left. No tuple, since
// the laws name both parts.
#[derive(Clone, Copy)]
pub struct Stepped {
    pub state: State,
    pub word: u64,
}

// The tables of a step back, lent: those of the inverse of M, of the inverse of π and of α inverse.
#[derive(Clone, Copy)]
pub struct BackTables<'a> {
    pub columns: &'a [[u64; 256]; 8],
    pub bytes: &'a [[u8; 256]; 4],
    pub inverse: &'a [u64; 256],
}

// ---- the parts of a step

// F(x, y, z).
#[tactic(auto, unfolding(crate::specs::Registers::F))]
fn filter(x: u64, y: u64, z: u64) -> u64
    ensures { result ≡ F x y z }
{
    x.wrapping_add(y) ^ z
}

// The word x, and F into it in a step of initialisation.
fn mix_in(kind: Kind, f: u64, x: u64) -> u64
    ensures { result ≡ mixed kind f x }
{
    match kind {
        Kind::Ordinary => x,
        Kind::Initial => x ^ f,
    }
}

// The new s15, from the old cells and registers: the xor of α times s0, α inverse times s11 and s13, and in a step of initialisation of F(s15, r1, r2) too.
// Of the tables it is lent those of α and of its inverse alone.
fn new_s15(kind: Kind, s: State, alpha: &[u64; 256], inverse: &[u64; 256]) -> u64
    ensures { result ≡ new_s15_by alpha.now inverse.now kind (registers_of s) }
{
    let c = s.cells;
    let feedback = alpha_times_by_table(c[0], alpha)
        ^ alpha_inverse_times_by_table(c[11], inverse)
        ^ c[13];
    mix_in(kind, filter(c[15], s.r1, s.r2), feedback)
}

// T by the first eight of the tables, from the highest byte down. The xor is the same in any order; docs/DECISIONS.md says why it is this one.
fn substitute(w: u64, tables: &[[u64; 256]; 10]) -> u64
    ensures { result ≡ look_up tables.now w }
{
    tables[7][((w >> 56) % 256) as usize]
        ^ tables[6][((w >> 48) % 256) as usize]
        ^ tables[5][((w >> 40) % 256) as usize]
        ^ tables[4][((w >> 32) % 256) as usize]
        ^ tables[3][((w >> 24) % 256) as usize]
        ^ tables[2][((w >> 16) % 256) as usize]
        ^ tables[1][((w >> 8) % 256) as usize]
        ^ tables[0][((w >> 0) % 256) as usize]
}

// The cells are set one by one: moved by `copy_within`, they took 1.9 times the instructions of a portion of 1 MiB.

// The cells one place on, the first one gone and x last.
#[tactic(auto, using(crate::proofs::Cells::shift_in_is))]
fn shift_in(c: [u64; 16], x: u64) -> [u64; 16]
    ensures { result ≡ drop 1 c ++ (x ∷ []) }
{
    [
        c[1], c[2], c[3], c[4], c[5], c[6], c[7], c[8], c[9], c[10], c[11], c[12], c[13], c[14],
        c[15], x,
    ]
}

// The cells one place back, x first and the last one gone.
fn shift_out(c: [u64; 16], x: u64) -> [u64; 16]
    ensures { result ≡ x ∷ take 15 c }
{
    [
        x, c[0], c[1], c[2], c[3], c[4], c[5], c[6], c[7], c[8], c[9], c[10], c[11], c[12], c[13],
        c[14],
    ]
}

// The keystream word of a state, F(s15, r1, r2) and s0 together.
#[tactic(auto, unfolding(crate::specs::Registers::keystream_word))]
fn keystream_word(s: State) -> u64
    ensures { result ≡ keystream_word (registers_of s) }
{
    let c = s.cells;
    filter(c[15], s.r1, s.r2) ^ c[0]
}

// ---- one step

// One step by the tables that are lent: the one step forward, of either kind. The word that it hands over is that of s.
#[tactic(auto, unfolding(crate::specs::Registers::next_with))]
pub fn step(kind: Kind, s: State, tables: &[[u64; 256]; 10]) -> Stepped
    ensures { result ≡ stepped_by (next_in tables.now kind) s }
{
    let c = s.cells;
    let last = new_s15(kind, s, &tables[8], &tables[9]);
    let cells = shift_in(c, last);
    let r2 = substitute(s.r1, tables);
    let r1 = s.r2.wrapping_add(c[13]);
    let next = State { cells, r1, r2, ..s };
    let word = keystream_word(s);
    Stepped { state: next, word }
}

// One step back by the tables that are lent. A step back that was called took 1.6 times the instructions of a walk.
#[inline(always)]
#[tactic(auto, unfolding(crate::specs::Registers::previous_with))]
pub fn step_back(kind: Kind, s: State, tables: BackTables<'_>) -> State
    ensures { result ≡ step_back_by tables.entry.columns.now tables.entry.bytes.now tables.entry.inverse.now kind s }
{
    let c = s.cells;
    let r1 = substitute_word_inverse_by_tables(s.r2, tables.columns, tables.bytes);
    let r2 = words::subtract(s.r1, c[12]);
    let f = filter(c[14], r1, r2);
    let last = mix_in(kind, f, c[15]);
    let rest = last ^ c[12] ^ alpha_inverse_times_by_table(c[10], tables.inverse);
    let first = alpha_inverse_times_by_table(rest, tables.inverse);
    let cells = shift_out(c, first);
    State { cells, r1, r2, ..s }
}
