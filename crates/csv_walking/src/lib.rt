// Walking over RFC 4180 text field by field, and the part of the text where a field stands. Text, row and column are parameters of their own,
// as README and the header for C have them.
#![tactic(auto)]

ghost use Rattle.std.specs.Prelude.{◌≡◌, drop};
ghost use Rattle.csv_walking.specs.Walking.{skip_from, start_of, over_at, after_field, next_of, first};
ghost use Rattle.csv_walking.specs.Visits.{visited};
ghost use Rattle.csv_walking.specs.Parts.{sought_of, Found, Part, HandsOver};

use csv_grammar::Span;

// Where a walk stands: at a place, before another field of a row or at the start of a line. The theorems and the words for C speak of both fields.
#[derive(Clone, Copy, Debug, PartialEq, Eq)]
pub struct Cursor {
    pub at: usize,
    pub inside: bool,
}

// Whether a field is the one looked for, or how many rows and columns are still to come.
#[derive(Clone, Copy, Debug, PartialEq, Eq)]
pub enum Sought {
    Here,
    Nowhere,
    Later(usize, usize),
}

// The place after the lines that are skipped: those of no bytes. It goes on by two bytes, CR LF.
fn skip_lines(text: &[u8], from: usize) -> usize
    ensures { result ≡ skip_from from (drop from text.now) }
{
    let mut i = from;
    while i < text.len() && text[i] == b'\r' {
        let j = i + 1;
        if j == text.len() || text[j] != b'\n' {
            return i;
        }
        i = j + 1;
    }
    i
}

// The start of the next field.
fn start_of(text: &[u8], w: Cursor) -> usize
    ensures { result ≡ start_of text.now w }
{
    if w.inside {
        w.at
    } else {
        skip_lines(text, w.at)
    }
}

// Whether no field starts at place i of a text of n bytes: past its end, or at its end and at a line's start.
fn is_over(inside: bool, i: usize, n: usize) -> bool
    ensures { result ≡ over_at inside i n }
{
    if inside { n < i } else { n <= i }
}

// The cursor after a field that ends at place e: past a comma, past the two bytes of a line's end, or at the text's end.
#[tactic(auto, unfolding(crate::specs::Walking::after_field))]
fn after_field(text: &[u8], e: usize) -> Cursor
    ensures { result ≡ after_field text.now e }
{
    match text.get(e) {
        Some(b',') => Cursor {
            at: e + 1,
            inside: true,
        },
        Some(_) => Cursor {
            at: e + 2,
            inside: false,
        },
        None => Cursor {
            at: e,
            inside: false,
        },
    }
}

// A walk from the start of a text.
pub fn start() -> Cursor
    ensures { result ≡ first }
{
    Cursor {
        at: 0,
        inside: false,
    }
}

// The next field of a walk, and the cursor after it; none at the end.
#[tactic(auto, unfolding(crate::specs::Walking::next_of))]
pub fn next(text: &[u8], w: Cursor) -> Option<(Span, Cursor)>
    ensures { visited result ≡ next_of text.now w }
{
    let i = start_of(text, w);
    if is_over(w.inside, i, text.len()) {
        return None;
    }
    let (Ok(e) | Err(e)) = csv_fields::field_end(text, i);
    Some((Span { start: i, end: e }, after_field(text, e)))
}

// Whether a field, after which its row goes on or not, is that of row r and column k, counted from it.
fn seek(inside: bool, r: usize, k: usize) -> Sought
    ensures { result ≡ sought_of inside r k }
{
    match (r, k, inside) {
        (0, 0, _) => Sought::Here,
        (0, _, true) => Sought::Later(0, k - 1),
        (0, _, false) => Sought::Nowhere,
        (_, _, true) => Sought::Later(r, k),
        (_, _, false) => Sought::Later(r - 1, k),
    }
}

// Where the field of this row and column stands; the empty part where there is none, as `Found` has it. The loop is a walk, and counts no places.
fn find(text: &[u8], row: usize, column: usize) -> Span
    ensures { Found text.now row column result }
{
    let mut w = start();
    let mut r = row;
    let mut k = column;
    'fields: while let Some((s, v)) = next(text, w) {
        match seek(v.inside, r, k) {
            Sought::Here => return s,
            Sought::Nowhere => return Span { start: 0, end: 0 },
            Sought::Later(a, b) => {
                r = a;
                k = b;
                w = v;
            }
        }
    }
    Span { start: 0, end: 0 }
}

// Where the part of this row and column stands; the empty part where there is none or the text is refused.
pub fn part(text: &[u8], row: usize, column: usize) -> Span
    ensures { Part text.now row column result }
{
    match csv_reading::read(text) {
        Ok(_) => find(text, row, column),
        Err(_) => Span { start: 0, end: 0 },
    }
}

// The field of this row and column, a part of the text; empty where there is none or the text is refused.
pub fn field(text: &[u8], row: usize, column: usize) -> &[u8]
    ensures { HandsOver text.entry.ref_ptr text.now row column result.ref_ptr result.now }
{
    let s = part(text, row, column);
    let a = s.start;
    let e = s.end;
    &text[a..e]
}
