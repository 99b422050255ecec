// A word in hexadecimal digits, in capitals.
#![tactic(auto)]

ghost use Rattle.std.specs.Prelude.{◌≡◌, ◌*◌, ◌/◌, ◌%◌, ◌^◌, ◌<◌, Some};
ghost use Rattle.text.specs.Text.{hex_digit, hex_word};

use std::{array, fmt};

// The ASCII code of digit i of n; digit 0 is the least significant.
fn digit_at(n: u64, i: u64) -> u8
    requires { i < 16 }
    ensures { result ≡ hex_digit (n / 2 ^ (4 * i) % 16) }
{
    let d = ((n >> (4 * i)) % 16) as u8;
    if d < 10 {
        return b'0' + d;
    }
    b'A' + (d - 10)
}

// The 16 digits of n, the most significant first: the lines of the tables program are made of them.
pub fn hex_word(n: u64) -> [u8; 16]
    ensures { result ≡ hex_word n }
{
    array::from_fn(move |k| digit_at(n, 15 - k as u64))
}

// A word that prints as these digits, where whoever prints it may fail.
#[derive(Clone, Copy)]
pub struct HexWord(pub u64);

impl fmt::Display for HexWord {
    ghost output = { λ w. Some (hex_word w.0) };

    fn fmt<W: fmt::Write>(&self, f: &mut fmt::Formatter<W>) -> fmt::Result {
        let word = self.0;
        write!(f, "{word:016X}")
    }
}
