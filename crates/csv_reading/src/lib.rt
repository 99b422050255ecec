// Reading RFC 4180 text: the counts of its rows and columns, or its first fault. The reading goes field by field.
#![tactic(auto)]

ghost use Rattle.std.specs.Prelude.{◌≡◌, ◌+◌, ◌<◌, ◌≤◌, length};
ghost use Rattle.csv_grammar.specs.Answers.{answered};
ghost use Rattle.csv_grammar.specs.Faults.{Reads};
ghost use Rattle.csv_reading.specs.Steps.{ragged, with_line, after_comma, blank_from, after_cr, at_end, at_byte, step_of};

use csv_grammar::{Counts, Fault};
use refusals::Refusal;

// The most fields that a row may have.
pub const MOST_FIELDS: usize = 32;

// What a step comes to where the text is refused at a place.
fn refused(refusal: Refusal, at: usize) -> Result<Option<Counts>, Fault>
    ensures { result ≡ Err (record { refusal = refusal; at = at }) }
{
    Err(Fault { refusal, at })
}

// A reader of a text: the place of the next field, the rows before this line, the fields before this one in its line, and the fields of the first row.
#[derive(Clone, Copy)]
struct Reader<'a> {
    text: &'a [u8],
    at: usize,
    rows: usize,
    fields: usize,
    columns: usize,
    ghost within: { at ≤ length text.now },
    ghost rows_before: { rows ≤ at },
    ghost fields_before: { fields ≤ at },
}

// Where a method is told of a place e, it asks that e is within the text and not before the reader's own place: that is said of the place, so no invariant of
// the reader can hold it. Each method that goes on says that the text is the same one.
impl<'a> Reader<'a> {
    ghost use Rattle.csv_reading.specs.Comes.{tally_of, Comes};

    // Whether the line that ends here is a row, not the first, and has not as many fields as the first.
    #[tactic(auto, unfolding(crate::specs::Steps::ragged))]
    fn is_ragged(&self, blank: bool) -> bool
        ensures { result ≡ ragged (tally_of self.now) blank }
    {
        self.fields + 1 != self.columns && self.rows != 0 && !blank
    }

    // The counts after a line, which is skipped, or is a row that is not ragged.
    #[tactic(auto, unfolding(crate::specs::Steps::with_line))]
    fn counts(&self, skipped: bool) -> Counts
        ensures rows { result.rows ≡ (with_line (tally_of self.now) skipped).rows }
        ensures columns { result.columns ≡ (with_line (tally_of self.now) skipped).columns }
    {
        if skipped {
            return Counts {
                rows: self.rows,
                columns: self.columns,
            };
        }
        Counts {
            rows: self.rows + 1,
            columns: self.fields + 1,
        }
    }

    // Whether a field that ends at place e is the only one of a line of no bytes, if it ends its line.
    #[tactic(auto, unfolding(crate::specs::Steps::blank_from))]
    fn is_blank(&self, e: usize) -> bool
        ensures { result ≡ blank_from (tally_of self.now) self.now.at e }
    {
        e == self.at && self.fields == 0
    }

    // A comma at place e.
    #[tactic(auto, unfolding(crate::specs::Steps::after_comma, crate::specs::Steps::answer_of))]
    fn after_comma(&mut self, e: usize) -> Result<Option<Counts>, Fault>
        requires { (self.old.at ≤ e) × (e < length self.old.text.now) }
        ensures comes { Comes result self.new (after_comma (tally_of self.old) e) }
        ensures same { self.new.text ≡ self.old.text }
    {
        if self.fields + 1 == MOST_FIELDS {
            return refused(Refusal::TooManyFields, e);
        }
        self.fields += 1;
        self.at = e + 1;
        Ok(None)
    }

    // A CR at place e, after the last field of a line.
    #[tactic(auto, unfolding(crate::specs::Steps::after_cr, crate::specs::Steps::answer_of))]
    fn after_cr(&mut self, e: usize) -> Result<Option<Counts>, Fault>
        requires { (self.old.at ≤ e) × (e < length self.old.text.now) }
        ensures comes { Comes result self.new (after_cr self.old.text.now (tally_of self.old) self.old.at e) }
        ensures same { self.new.text ≡ self.old.text }
    {
        let blank = self.is_blank(e);
        if self.is_ragged(blank) {
            return refused(Refusal::RaggedRow, e);
        }
        let j = e + 1;
        if j == self.text.len() || self.text[j] != b'\n' {
            return refused(Refusal::NotCsv, j);
        }
        let c = self.counts(blank);
        self.rows = c.rows;
        self.columns = c.columns;
        self.fields = 0;
        self.at = j + 1;
        Ok(None)
    }

    // The end of the text, at place e, after the last field of its last line.
    #[tactic(auto, unfolding(crate::specs::Steps::at_end, crate::specs::Steps::answer_of))]
    fn at_end(&self, e: usize) -> Result<Option<Counts>, Fault>
        ensures { Comes result self.now (at_end (tally_of self.now) self.now.at e) }
    {
        let blank = self.is_blank(e);
        if self.is_ragged(blank) {
            return refused(Refusal::RaggedRow, e);
        }
        Ok(Some(self.counts(blank)))
    }

    // The byte at place e, after a field.
    #[tactic(auto, unfolding(crate::specs::Steps::at_byte, crate::specs::Steps::answer_of))]
    fn at_byte(&mut self, e: usize) -> Result<Option<Counts>, Fault>
        requires { (self.old.at ≤ e) × (e < length self.old.text.now) }
        ensures comes { Comes result self.new (at_byte self.old.text.now (tally_of self.old) self.old.at e) }
        ensures same { self.new.text ≡ self.old.text }
    {
        match self.text[e] {
            b',' => self.after_comma(e),
            b'\r' => self.after_cr(e),
            _ => refused(Refusal::NotCsv, e),
        }
    }

    // The next field, and what follows it: none where the reading goes on, or the text's counts.
    fn step(&mut self) -> Result<Option<Counts>, Fault>
        ensures comes { Comes result self.new (step_of self.old.text.now (tally_of self.old) self.old.at) }
        ensures same { self.new.text ≡ self.old.text }
    {
        let i = self.at;
        if i < self.text.len() && self.text[i] == b'"' {
            return match csv_fields::quoted_end(self.text, i + 1) {
                Ok(e) => {
                    if e < self.text.len() {
                        self.at_byte(e)
                    } else {
                        self.at_end(e)
                    }
                }
                Err(at) => refused(Refusal::NotCsv, at),
            };
        }
        match csv_fields::plain_end(self.text, i) {
            Some(e) => self.at_byte(e),
            None => self.at_end(self.text.len()),
        }
    }
}

// The counts of rows and columns of a text, or its first fault. The loop counts nothing: it takes steps until one answers.
pub fn read(text: &[u8]) -> Result<Counts, Fault>
    ensures { Reads text.now (answered result) }
{
    let mut reader = Reader {
        text,
        at: 0,
        rows: 0,
        fields: 0,
        columns: 0,
    };
    'fields: loop {
        if let Some(counts) = reader.step()? {
            return Ok(counts);
        }
    }
}
