// The content of a field of RFC 4180 text: its quotes removed, and doubled quotes made single.
#![tactic(auto)]

ghost use Rattle.std.specs.Prelude.{Bool, false, slice_index, ◌≡◌, ◌==◌, not, ◌↔◌, true, ◌++◌, ◌+◌, ◌-◌, ◌<◌, ◌≤◌, length, take, drop, get_or};
ghost use Rattle.csv_fields.specs.Answers.{Run};
ghost use Rattle.csv_contents.specs.Answers.{answered};
ghost use Rattle.csv_contents.specs.Contents.{unquoted, answer_of, target_of};
ghost use Rattle.csv_contents.specs.Measures.{run_stop, Quoted, measured, Measures};

use csv_grammar::Fault;
use refusals::Refusal;

// Whether a part begins with a quote.
fn is_quoted(part: &[u8]) -> bool
    ensures { (result ≡ true) ↔ Quoted part.now }
{
    !part.is_empty() && part[0] == b'"'
}

// The end of the bytes from a place on that pass a test, in a part whose last byte does not pass, so that no byte asks for the part's end.
// Two bytes a turn: with one a turn the content of a long field in quotes took 1.15 times the instructions, more than the bar for it.
fn run_end<F: Fn(u8) -> bool>(part: &[u8], from: usize, passes: F) -> usize
    requires callable { F.IsAlwaysCallable passes }
    requires within { from < length part.now }
    requires last { (r : Bool) → F.post passes (slice_index part.now (length part.now - 1)) r → r ≡ false }
    ensures run { Run (F.post passes) part.now from result }
    ensures within { result < length part.now }
{
    let mut i = from;
    'pairs: while passes(part[i]) {
        if !passes(part[i + 1]) {
            return i + 1;
        }
        i += 2;
    }
    i
}

// The length of the content of a part that begins with a quote; none where the part is no field. The place goes on by runs, and not by one.
fn measure_quoted(part: &[u8]) -> Option<usize>
    requires { Quoted part.now }
    ensures { Measures part.now (measured result) }
{
    let n = part.len();
    if part[n - 1] != b'"' {
        return None;
    }
    let mut i: usize = 1;
    let mut k: usize = 0;
    'quotes: while i < n {
        let e = run_end(part, i, csv_fields::is_inside);
        k += e - i;
        if part[e] != b'"' {
            return None;
        }
        let j = e + 1;
        if n <= j {
            return Some(k);
        }
        if part[j] != b'"' {
            return None;
        }
        k += 1;
        i = j + 1;
    }
    None
}

// The length of a part's content; none where the part is no field.
fn measure(part: &[u8]) -> Option<usize>
    ensures { Measures part.now (measured result) }
{
    if is_quoted(part) {
        return measure_quoted(part);
    }
    match csv_fields::plain_end(part, 0) {
        None => Some(part.len()),
        Some(_) => None,
    }
}

// The bytes of a part from place i up to place k, to place o of a target.
fn write_run(part: &[u8], i: usize, k: usize, target: &mut [u8], o: usize)
    requires { (i ≤ k) × (k ≤ length part.now) × (o + (k - i) ≤ length target.old) }
    ensures { target.new ≡ take o target.old ++ (take (k - i) (drop i part.now) ++ drop (o + (k - i)) target.old) }
{
    copying::copy(&part[i..k], &mut target[o..]);
}

// The end of what a quote at place q leaves of the run before it in a part of n bytes: with the quote, but for the closing one.
fn run_stop(q: usize, n: usize) -> usize
    requires { q < n }
    ensures { result ≡ run_stop q n }
{
    if q + 1 < n { q + 1 } else { q }
}

fn is_no_quote(b: u8) -> bool
    ensures { result ≡ not (b == 34) }
{
    b != b'"'
}

// The content of a field in quotes to the front of a target. Both places go on by runs, and not by one.
fn write_quoted(part: &[u8], target: &mut [u8])
    requires { (get_or part.now (length part.now - 1) 0 ≡ 34) × (length (unquoted (drop 1 part.now)) ≤ length target.old) }
    ensures { target.new ≡ unquoted (drop 1 part.now) ++ drop (length (unquoted (drop 1 part.now))) target.old }
{
    let mut i: usize = 1;
    let mut o: usize = 0;
    'quotes: while i < part.len() {
        let q = run_end(part, i, is_no_quote);
        let k = run_stop(q, part.len());
        write_run(part, i, k, target, o);
        o += k - i;
        i = q + 2;
    }
}

// The content of a part to the front of a target: the count of bytes written, or a refusal, which leaves the target as it was.
pub fn content(part: &[u8], target: &mut [u8]) -> Result<usize, Fault>
    ensures value { answered result ≡ answer_of part.now (length target.old) }
    ensures target_after { target.new ≡ target_of part.now target.old }
{
    let Some(n) = measure(part) else {
        return Err(Fault {
            refusal: Refusal::NotCsv,
            at: 0,
        });
    };
    if target.len() < n {
        return Err(Fault {
            refusal: Refusal::TargetShorter,
            at: 0,
        });
    }
    if is_quoted(part) {
        write_quoted(part, target);
    } else {
        copying::copy(part, target);
    }
    Ok(n)
}
