// A state as the twenty words that C holds.
#![tactic(auto)]

ghost use Rattle.std.specs.Prelude.{◌≡◌};
ghost use Rattle.answers.specs.Answers.{answered};
ghost use Rattle.twenty_words.specs.TwentyWords.{state_in, words_of};

use answers::numbered::refused;
use answers::{Answer, Refused};
use generator::State;
use refusals::ACCEPTED;

// Functions, since an impl of From between twenty words and a state may stand only in the state's own crate.

// The state that twenty words hold; these are its words.
pub fn state_in(words: [u64; 20]) -> State
    ensures value { result ≡ state_in words }
    ensures words_back { words_of result ≡ words }
{
    let mut cells = [0; 16];
    cells.copy_from_slice(&words[..16]);
    State {
        cells,
        r1: words[16],
        r2: words[17],
        size: words[18],
        position: words[19],
    }
}

// The twenty words of a state.
pub fn words_of(s: State) -> [u64; 20]
    ensures { result ≡ words_of s }
{
    let mut words = [0; 20];
    words[..16].copy_from_slice(&s.cells);
    words[16..].copy_from_slice(&[s.r1, s.r2, s.size, s.position]);
    words
}

// An answer: the words of its state to the caller's, and its number, whatever it is.
pub fn leave(words: &mut [u64; 20], a: Answer) -> u64
    ensures value { result ≡ a.number }
    ensures words_after { words.new ≡ words_of a.state }
{
    *words = words_of(a.state);
    a.number
}

// The answer of a call. By `match`, with the words written in each case: with one answer for both cases, which moves states more often, and `map_err(..)?`
// in `applying`, a portion of 16 bytes took twice the instructions.
pub fn leave_answer(words: &mut [u64; 20], answer: Result<State, Refused>) -> u64
    ensures value { result ≡ (answered answer).number }
    ensures words_after { words.new ≡ words_of (answered answer).state }
{
    match answer {
        Ok(state) => leave(
            words,
            Answer {
                number: ACCEPTED,
                state,
            },
        ),
        Err(e) => leave(words, refused(e.refusal.number(), e.state)),
    }
}
