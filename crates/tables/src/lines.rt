// The three lines of the tables program, as bytes: what a value prints is said only of a `fmt` that answers `Ok`, and the bytes are to be these always.
ghost use Rattle.std.specs.Prelude.{◌≡◌, ◌∷◌, ◌++◌};
ghost use Rattle.text.specs.Text.{ascii, hex_word};
ghost use Rattle.tables.specs.Lines.{line_end, three_lines};

use text::hex_word;

// The beginning of the line of T: the name, and the word given to T.
fn word_front(w: u64) -> [u8; 18]
    ensures { result ≡ ascii "T" ++ (32 ∷ hex_word w) }
{
    let d = hex_word(w);
    [
        b'T', b' ', d[0], d[1], d[2], d[3], d[4], d[5], d[6], d[7], d[8], d[9], d[10], d[11],
        d[12], d[13], d[14], d[15],
    ]
}

// The end of a line: the resulting word.
fn value_end(value: u64) -> [u8; 18]
    ensures { result ≡ line_end value }
{
    let d = hex_word(value);
    [
        b' ', d[0], d[1], d[2], d[3], d[4], d[5], d[6], d[7], d[8], d[9], d[10], d[11], d[12],
        d[13], d[14], d[15], b'\n',
    ]
}

// The lines, each in two parts, in their order.
#[derive(Clone, Copy)]
pub struct Lines {
    pub mula: [u8; 7],
    pub alpha: [u8; 18],
    pub muli: [u8; 7],
    pub inverse: [u8; 18],
    pub t: [u8; 18],
    pub image: [u8; 18],
}

// All three, from the tables.
pub fn all_lines() -> Lines
    ensures { result.mula ++ (result.alpha ++ (result.muli ++ (result.inverse ++ (result.t ++ result.image)))) ≡ three_lines }
{
    let first = galois::alpha_table();
    let second = galois::alpha_inverse_table();
    let eight = columns::substitution_tables();
    let t_of_0 = substitution::substitute_word_by_tables(0, eight);
    let alpha = value_end(first[1]);
    let inverse = value_end(second[1]);
    let t = word_front(0);
    let image = value_end(t_of_0);
    Lines {
        mula: [b'm', b'u', b'l', b'a', b' ', b'0', b'1'],
        alpha,
        muli: [b'm', b'u', b'l', b'i', b' ', b'0', b'1'],
        inverse,
        t,
        image,
    }
}
