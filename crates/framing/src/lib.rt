// The cipher program's input: the state that its header opens, how much of the data to take at a time, and the line of a refusal.
#![tactic(auto)]

ghost use Rattle.std.specs.Prelude.{◌≡◌, ◌+◌, ◌-◌, ◌≤◌, min, length};
ghost use Rattle.io.specs.Counts.{IsPrefixLen};
ghost use Rattle.answers.specs.Answers.{answered};
ghost use Rattle.answers.specs.Tests.{limit};
ghost use Rattle.framing.specs.Framing.{lacking, started, refusal_line, in_front};

use answers::{LIMIT, Refused};
use generator::State;
use opening::open;

// The bytes of an IV.
pub const IV_BYTES: usize = 32;

// The bytes of the longest header: one for the key's length, 255 of the key, and the IV.
pub const LONGEST_HEADER: usize = 288;

// How many bytes are still to be read of a header that begins so. One that is no longer than the longest stays so with them.
pub fn header_lacks(header: &[u8]) -> usize
    ensures value { result ≡ lacking header.now }
    ensures result_len_bound { length header.now ≤ 288 → length header.now + result ≤ 288 }
{
    match header {
        [] => 1,
        [key_length, rest @ ..] => {
            let whole = usize::from(*key_length) + IV_BYTES;
            whole.saturating_sub(rest.len())
        }
    }
}

// The state that a header opens; or a refusal, with the blank state. The header may be cut short.
#[tactic(auto, using(crate::proofs::Header::cut_short, crate::proofs::Header::cut, crate::proofs::Header::whole))]
pub fn start(header: &[u8]) -> Result<State, Refused>
    ensures { answered result ≡ started header.now }
{
    let Some((key_length, rest)) = header.split_first() else {
        return open(&[], &[]);
    };
    let Some((key, rest)) = rest.split_at_checked(usize::from(*key_length)) else {
        return open(&[], &[]);
    };
    open(key, &rest[..IV_BYTES.min(rest.len())])
}

// A line at the front of its bytes, and its length.
#[derive(Clone, Copy)]
pub struct RefusalLine {
    pub bytes: [u8; 29],
    pub count: usize,
}

// The line of a refusal, of any number: handed over as bytes, since what a value prints is said only of a `fmt` that answers `Ok`.
pub fn refusal_line(number: u64) -> RefusalLine
    ensures value { result ≡ in_front (refusal_line number) }
    ensures prefix_len { IsPrefixLen result.count result.bytes }
{
    let mut digits = [0u8; 20];
    let k = io::decimal(number, &mut digits);
    let end = 8 + k;
    let mut bytes = [0u8; 29];
    copying::copy(b"refused ", &mut bytes[..8]);
    copying::copy(&digits[..k], &mut bytes[8..end]);
    bytes[end] = b'\n';
    RefusalLine {
        bytes,
        count: end + 1,
    }
}

// How many bytes of a buffer of len the next piece may fill: no more than are left up to the last position.
pub fn room(s: State, len: usize) -> usize
    ensures value { result ≡ min len (limit - s.position) }
    ensures upper_bound { result ≤ len }
{
    len.min(LIMIT.saturating_sub(s.position) as usize)
}
