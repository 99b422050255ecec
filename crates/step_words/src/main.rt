// Runs steps of both kinds from loadings on, and prints the words that they hand over. The file `stdout` beside it is what another implementation
// printed for the same list.
#![tactic(auto)]

ghost use Rattle.std.specs.Prelude.{◌≡◌, length};
ghost use Rattle.generator.specs.Registers.{walked, stepped_by, words_along};
ghost use Rattle.generator.specs.Functions.{next_in};

use cells::load_cells;
use columns::step_tables;
use generator::{Kind, State, step};
use printing::{Out, Words};
use std::fmt;
use std::fmt::Write;
use trials::tables;

// As many steps as there are words lent, each of which takes the word that its step hands over; the state after them.
fn steps(kind: Kind, s: State, tables: &[[u64; 256]; 10], words: &mut [u64]) -> State
    ensures value { result ≡ walked (next_in tables.now kind) (length words.old) s }
    ensures words_after { words.new ≡ words_along (stepped_by (next_in tables.now kind)) (length words.old) s }
{
    let mut t = s;
    // By index: over `iter_mut` the edit steps_all_words_at_first_place, which writes every word to place 0, would lack the goals that refuse it.
    for i in 0..words.len() {
        let stepped = step(kind, t, tables);
        words[i] = stepped.word;
        t = stepped.state;
    }
    t
}

// Two lines: the words of the 32 steps of initialisation from a loading on, and those of nine ordinary steps, of which the last eight leave S_0 to S_7.
fn lines_from(out: &mut Out, bits: u64, key: &[u8], iv: &[u8]) -> fmt::Result {
    let tables = step_tables();
    let loaded = State {
        cells: load_cells(key, iv),
        r1: 0,
        r2: 0,
        size: bits,
        position: 0,
    };
    let mut initial = [0; 32];
    let t = steps(Kind::Initial, loaded, tables, &mut initial);
    writeln!(out, "{bits} initialisation:{}", Words(&initial))?;
    let mut ordinary = [0; 9];
    steps(Kind::Ordinary, t, tables, &mut ordinary);
    writeln!(out, "{bits} ordinary:{}", Words(&ordinary))
}

fn print_all(out: &mut Out) -> fmt::Result {
    let key = tables::key();
    let ivs = [tables::iv(), tables::other_iv()];
    for iv in &ivs {
        lines_from(out, 256, &key[..32], iv)?;
    }
    for iv in &ivs {
        lines_from(out, 512, &key[..64], iv)?;
    }
    Ok(())
}

fn main() {
    // A write that fails is passed over, as `Out` does.
    let _ = print_all(&mut Out);
}
