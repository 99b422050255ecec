// Where a field of RFC 4180 text ends: runs of TEXTDATA, fields in quotes, and either.
#![tactic(auto)]

mod tables;

ghost use Rattle.std.specs.Prelude.{◌≡◌, Bool, true, false, ◌<◌, ◌-◌, length, drop, slice_index};
ghost use Rattle.csv_fields.specs.Ends.{is_text_data, is_inside, plain_end_in, quoted_end, field_end};
ghost use Rattle.csv_fields.specs.Answers.{ended, plain_ended, Run, each_of};

// Both tests look their byte up, so that a run has one branch a byte. By comparisons, the commonest bytes first, long runs took up to four times the time: a
// letter and a space went back to the start of the loop by two branches, and where these lay close together the processor seems not to have told them apart.

// Of each byte, whether it is TEXTDATA.
fn textdata() -> &'static [bool; 256]
    ensures { result.now ≡ each_of 256 is_text_data }
{
    &tables::TEXTDATA
}

// Of each byte, whether it may stand inside quotes, and is no quote.
fn inside() -> &'static [bool; 256]
    ensures { result.now ≡ each_of 256 is_inside }
{
    &tables::INSIDE
}

// Whether a byte is TEXTDATA.
pub fn is_textdata(b: u8) -> bool
    ensures { result ≡ is_text_data b }
{
    textdata()[usize::from(b)]
}

// Whether a byte may stand inside quotes, and is no quote.
pub fn is_inside(b: u8) -> bool
    ensures { result ≡ is_inside b }
{
    inside()[usize::from(b)]
}

// The end of the bytes from a place on that pass a test.
// A `while`: as a `for` over the places a walk over quoted orders took 1.2 times the instructions, more than its bar (measured where bytes were compared).
fn run_end<F: Fn(u8) -> bool>(text: &[u8], from: usize, passes: F) -> usize
    requires { F.IsAlwaysCallable passes }
    ensures { Run (F.post passes) text.now from result }
{
    let mut i = from;
    while i < text.len() && passes(text[i]) {
        i += 1;
    }
    i
}

// The same in a text whose last byte does not pass, so that no byte asks for the text's end: two bytes a turn, which take two thirds of the time of one. Beside
// the same loop of `csv_contents`, since what asks something of its callers stays private to its crate.
fn stop_from<F: Fn(u8) -> bool>(text: &[u8], from: usize, passes: F) -> usize
    requires callable { F.IsAlwaysCallable passes }
    requires within { from < length text.now }
    requires last { (r : Bool) → F.post passes (slice_index text.now (length text.now - 1)) r → r ≡ false }
    ensures run { Run (F.post passes) text.now from result }
    ensures within { result < length text.now }
{
    let mut i = from;
    'pairs: while passes(text[i]) {
        if !passes(text[i + 1]) {
            return i + 1;
        }
        i += 2;
    }
    i
}

// The end of a run of TEXTDATA: the place of another byte, or none where the run goes on to the text's end. The faster way where the text's last byte is a
// control byte, as it is after a line's end.
pub fn plain_end(text: &[u8], from: usize) -> Option<usize>
    ensures { plain_ended text.now from result ≡ plain_end_in text.now from }
{
    if from < text.len() && text[text.len() - 1] < 32 {
        return Some(stop_from(text, from, is_textdata));
    }
    let e = run_end(text, from, is_textdata);
    if e < text.len() { Some(e) } else { None }
}

// Where a field ends, from a place inside its quotes; or the place by which it can be none. The place goes on by runs, and not by one.
pub fn quoted_end(text: &[u8], from: usize) -> Result<usize, usize>
    ensures { ended result ≡ quoted_end false from (drop from text.now) }
{
    let mut i = from;
    'quotes: loop {
        let e = run_end(text, i, is_inside);
        if text.len() <= e || text[e] != b'"' {
            return Err(e);
        }
        let j = e + 1;
        if text.len() <= j || text[j] != b'"' {
            return Ok(j);
        }
        i = j + 1;
    }
}

// Where a field that starts at a place ends; or the place by which it can be none.
pub fn field_end(text: &[u8], from: usize) -> Result<usize, usize>
    ensures { ended result ≡ field_end from (drop from text.now) }
{
    if from < text.len() && text[from] == b'"' {
        return quoted_end(text, from + 1);
    }
    Ok(plain_end(text, from).unwrap_or(text.len().max(from)))
}
