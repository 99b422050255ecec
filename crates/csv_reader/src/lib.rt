// The reader of RFC 4180 text: its calls, each from the crate that holds it. Reading a text, the part of it where a field stands, a walk over all its
// fields, and the content of a field.
#![tactic(auto)]

pub use csv_contents::content;
pub use csv_grammar::{Counts, Fault, Span};
pub use csv_reading::{MOST_FIELDS, read};
pub use csv_walking::{Cursor, field, next, part, start};
pub use refusals::Refusal;
