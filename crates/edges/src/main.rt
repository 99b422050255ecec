// Runs document 01's edges, and prints a line for each: the lengths of a key, and for both key sizes portions, moves and
// a window. The file `stdout` beside it is what another implementation printed for the same list.
#![tactic(auto)]

ghost use Rattle.std.specs.Prelude.{◌≡◌};
ghost use Rattle.galois.specs.Words.{tabulate};
ghost use Rattle.applying.specs.Applying.{applied};

use generator::State;
use printing::{Bytes, Out, number_and_state};
use std::fmt;
use std::fmt::Write;
use strumok::{apply, move_by, open, window};
use trials::{opened_at, tables};

// ---- the lengths of a key

fn key_lengths(out: &mut Out, key: &[u8; 65], iv: &[u8]) -> fmt::Result {
    let keys = [
        &key[..31],
        &key[..32],
        &key[..33],
        &key[..63],
        &key[..64],
        &key[..],
    ];
    for key in keys {
        let (number, _) = number_and_state(open(key, iv));
        writeln!(out, "open {}: {number}", key.len())?;
    }
    Ok(())
}

// ---- the edges of a size

// What a call answers, as the number and the state that its line prints, and what it leaves in sixteen bytes that it is lent.
#[derive(Clone, Copy)]
struct Edge {
    number: u64,
    state: State,
    bytes: [u8; 16],
}

impl Edge {
    fn print(&self, out: &mut Out, name: &str) -> fmt::Result {
        let (size, position) = (self.state.size, self.state.position);
        writeln!(
            out,
            "{size} {name}: {} {position} {}",
            self.number,
            Bytes(&self.bytes)
        )
    }
}

// A portion into a target of sixteen bytes FF.
fn apply_edge(s: State, source: &[u8]) -> Edge
    ensures { result.state ≡ (applied s source.now (tabulate 16 (λ _. 255))).state }
{
    let mut bytes = [255; 16];
    let (number, state) = number_and_state(apply(s, source, &mut bytes));
    Edge {
        number,
        state,
        bytes,
    }
}

fn window_edge(s: State) -> Edge {
    let mut bytes = [0; 16];
    let (number, state) = number_and_state(window(s, &mut bytes, usize::MAX, 1));
    Edge {
        number,
        state,
        bytes,
    }
}

// Moves from position 5.
fn moves(out: &mut Out, s: State) -> fmt::Result {
    for distance in [-5, -6, i64::MIN] {
        let (number, t) = number_and_state(move_by(s, distance));
        writeln!(
            out,
            "{} move {distance} at 5: {number} {}",
            t.size, t.position
        )?;
    }
    Ok(())
}

// Thirteen bytes at once, and as portions of 5, 0 and 8.
fn portions(out: &mut Out, s: State) -> fmt::Result {
    apply_edge(s, &[0; 13]).print(out, "apply 13 at 3")?;
    let five = apply_edge(s, &[0; 5]);
    five.print(out, "apply 5 at 3")?;
    let none = apply_edge(five.state, &[]);
    none.print(out, "apply 0 at 8")?;
    apply_edge(none.state, &[0; 8]).print(out, "apply 8 at 8")
}

fn edges(out: &mut Out, key: &[u8], iv: &[u8]) -> fmt::Result {
    let near_end = opened_at(key, iv, 16777215);
    apply_edge(near_end, &[0; 1]).print(out, "apply 1 at 16777215")?;
    apply_edge(near_end, &[0; 2]).print(out, "apply 2 at 16777215")?;
    let s = opened_at(key, iv, 5);
    moves(out, s)?;
    window_edge(s).print(out, "window 18446744073709551615 1 at 5")?;
    portions(out, opened_at(key, iv, 3))
}

fn print_all(out: &mut Out) -> fmt::Result {
    let (key, iv) = (tables::key(), tables::iv());
    key_lengths(out, &key, &iv)?;
    edges(out, &key[..32], &iv)?;
    edges(out, &key[..64], &iv)
}

fn main() {
    // A write that fails is passed over, as `Out` does.
    let _ = print_all(&mut Out);
}
