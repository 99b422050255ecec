// The reader of order files for C: each call with the number of its answer returned, and its values in words that the caller lends.
#![tactic(auto)]

ghost use Rattle.std.specs.Prelude.{◌≡◌, ◌≤◌, length};
ghost use Rattle.csv_walking.specs.Walking.{next_of};
ghost use Rattle.csv_contents.specs.Contents.{answer_of, target_of, number_of};
ghost use Rattle.orders_c.specs.Words.{ReadsTo, PartTo, span_words, written_words, cursor_in, cursor_words, next_number, next_cursor, next_part};

use csv_reader::{Counts, Cursor, Span, content, next, part, read};
use refusals::ACCEPTED;

// The cursor that two words hold: the place, and 0 at the start of a line.
// No `From`: the words are C's, and an impl for Cursor would have to stand in csv_walking, which knows nothing of C.
fn cursor_in(words: [u64; 2]) -> Cursor
    ensures { result ≡ cursor_in words }
{
    let [at, inside] = words;
    Cursor {
        at: at as usize,
        inside: inside != 0,
    }
}

// The two words of a cursor.
fn cursor_words(w: Cursor) -> [u64; 2]
    ensures { result ≡ cursor_words w }
{
    [w.at as u64, w.inside as u64]
}

// The two words of a part: its start and its length.
fn span_words(s: Span) -> [u64; 2]
    requires { s.start ≤ s.end }
    ensures { result ≡ span_words s }
{
    [s.start as u64, (s.end - s.start) as u64]
}

// 0 and the counts of rows and columns, or the number of the refusal, its place and 0.
#[unsafe(no_mangle)]
pub extern "C" fn orders_read(text: &[u8], answer: &mut [u64; 2]) -> u64
    ensures { ReadsTo text.now result answer.new }
{
    match read(text) {
        Ok(Counts { rows, columns }) => {
            *answer = [rows as u64, columns as u64];
            ACCEPTED
        }
        Err(fault) => {
            *answer = [fault.at as u64, 0];
            fault.refusal.number()
        }
    }
}

// The start and the length of the part where the field of this row and column stands; 0 and 0 where there is none or the text is refused.
#[unsafe(no_mangle)]
pub extern "C" fn orders_part(text: &[u8], row: usize, column: usize, found: &mut [u64; 2])
    ensures { PartTo text.now row column found.new }
{
    let s = part(text, row, column);
    *found = span_words(s);
}

// The content of a part to the front of the target: 0 and the count of bytes written, or the number of the refusal and 0, with the target as it was.
#[unsafe(no_mangle)]
pub extern "C" fn orders_content(source: &[u8], target: &mut [u8], written: &mut [u64; 1]) -> u64
    ensures value { result ≡ number_of (answer_of source.now (length target.old)) }
    ensures target_after { target.new ≡ target_of source.now target.old }
    ensures written_after { written.new ≡ written_words (answer_of source.now (length target.old)) }
{
    match content(source, target) {
        Ok(n) => {
            *written = [n as u64];
            ACCEPTED
        }
        Err(fault) => {
            *written = [0];
            fault.refusal.number()
        }
    }
}

// The next field of a walk: 1, its part's start and length, and the cursor moved on; or 0 at the end, with all as it was.
#[unsafe(no_mangle)]
pub extern "C" fn orders_next(text: &[u8], cursor: &mut [u64; 2], found: &mut [u64; 2]) -> u64
    ensures value { result ≡ next_number (next_of text.now (cursor_in cursor.old)) }
    ensures cursor_after { cursor.new ≡ next_cursor (next_of text.now (cursor_in cursor.old)) cursor.old }
    ensures found_after { found.new ≡ next_part (next_of text.now (cursor_in cursor.old)) found.old }
{
    let w = cursor_in(*cursor);
    match next(text, w) {
        Some((s, v)) => {
            *found = span_words(s);
            *cursor = cursor_words(v);
            1
        }
        None => 0,
    }
}
