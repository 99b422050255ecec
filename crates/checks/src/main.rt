// Runs the check of states, and prints a line for each: at five positions, with a bit of the state changed, and with
// another IV. The file `stdout` beside it is what another implementation printed for the same list.
#![tactic(auto)]

ghost use Rattle.std.specs.Prelude.{◌≡◌};
ghost use Rattle.checking.specs.Checking.{checked_target};

use generator::State;
use printing::{Bytes, Out, number_and_state};
use std::fmt;
use std::fmt::{Display, Write};
use strumok::check;
use trials::{opened_at, tables};

// A check into this key target.
fn check_into(
    out: &mut Out,
    name: impl Display + Drop,
    s: State,
    iv: &[u8],
    key: &mut [u8],
) -> fmt::Result
    ensures { key.new ≡ checked_target s iv.now key.old }
{
    let (number, _) = number_and_state(check(s, iv, key));
    writeln!(out, "{} check {name}: {number} {}", s.size, Bytes(key))
}

// A check with a key target of the state's size, all FF.
fn check_state(out: &mut Out, name: impl Display + Drop, s: State, iv: &[u8]) -> fmt::Result {
    let length = if s.size == 256 { 32 } else { 64 };
    check_into(out, name, s, iv, &mut [255; 64][..length])
}

// The checks of a key's size.
fn checks(out: &mut Out, key: &[u8], iv: &[u8]) -> fmt::Result {
    for position in [0, 1, 7, 8, 16777216] {
        check_state(
            out,
            format_args!("at {position}"),
            opened_at(key, iv, position),
            iv,
        )?;
    }
    let s = opened_at(key, iv, 8);
    let mut changed = s;
    changed.r1 ^= 1;
    check_state(out, "at 8 with bit 0 of r1 changed", changed, iv)?;
    check_state(out, "at 8 with another IV", s, &tables::other_iv())
}

fn print_all(out: &mut Out) -> fmt::Result {
    let (key, iv) = (tables::key(), tables::iv());
    checks(out, &key[..32], &iv)?;
    checks(out, &key[..64], &iv)
}

fn main() {
    // A write that fails is passed over, as `Out` does.
    let _ = print_all(&mut Out);
}
