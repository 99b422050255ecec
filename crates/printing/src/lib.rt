// What the lines of programs are made of: bytes and words that print in hexadecimal digits, the number and the state of an answer, and standard output.
#![tactic(auto)]

ghost use Rattle.std.specs.Prelude.{◌≡◌, Some, flat_map};
ghost use Rattle.answers.specs.Answers.{answered};
ghost use Rattle.printing.specs.Printing.{byte_text, word_text};

use answers::Refused;
use generator::State;
use refusals::ACCEPTED;
use std::fmt;

// Standard output's number.
const STDOUT: i32 = 1;

// A byte: two digits.
#[derive(Clone, Copy)]
struct Byte(u8);

impl fmt::Display for Byte {
    ghost output = { λ b. Some (byte_text b.0) };

    fn fmt<W: fmt::Write>(&self, f: &mut fmt::Formatter<W>) -> fmt::Result {
        let byte = self.0;
        write!(f, "{byte:02x}")
    }
}

// Bytes, one after another.
#[derive(Clone, Copy)]
pub struct Bytes<'a>(pub &'a [u8]);

impl fmt::Display for Bytes<'_> {
    ghost output = { λ b. Some (flat_map byte_text b.0.now) };

    fn fmt<W: fmt::Write>(&self, f: &mut fmt::Formatter<W>) -> fmt::Result {
        for byte in self.0 {
            f.write(Byte(*byte))?;
        }
        Ok(())
    }
}

// A word: a space and 16 digits.
#[derive(Clone, Copy)]
pub struct Word(pub u64);

impl fmt::Display for Word {
    ghost output = { λ w. Some (word_text w.0) };

    fn fmt<W: fmt::Write>(&self, f: &mut fmt::Formatter<W>) -> fmt::Result {
        let word = self.0;
        write!(f, " {word:016x}")
    }
}

// Words, one after another.
#[derive(Clone, Copy)]
pub struct Words<'a>(pub &'a [u64]);

impl fmt::Display for Words<'_> {
    ghost output = { λ w. Some (flat_map word_text w.0.now) };

    fn fmt<W: fmt::Write>(&self, f: &mut fmt::Formatter<W>) -> fmt::Result {
        for word in self.0 {
            f.write(Word(*word))?;
        }
        Ok(())
    }
}

// The number that a call answers, 0 where it is accepted, and the state that it makes, or gives back where it is refused.
pub fn number_and_state(answer: Result<State, Refused>) -> (u64, State)
    ensures number { result.0 ≡ (answered answer).number }
    ensures state { result.1 ≡ (answered answer).state }
{
    match answer {
        Ok(s) => (ACCEPTED, s),
        Err(refused) => (refused.refusal.number(), refused.state),
    }
}

// Standard output, by the kit's `io`: a write that fails is passed over. So a program that prints assumes no more of C than its `write`, and no function has to say why a write failed.
#[derive(Clone, Copy)]
pub struct Out;

impl fmt::Write for Out {
    fn write_str(&mut self, text: &str) -> fmt::Result {
        io::write_all(STDOUT, text.as_bytes());
        Ok(())
    }
}
