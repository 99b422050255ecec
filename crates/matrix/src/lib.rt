// The matrix M and its inverse by their rows 0, and a circulant matrix of bytes times the bytes of a word.
#![tactic(auto)]

ghost use Rattle.std.specs.Prelude.{◌≡◌, ◌<◌};
ghost use Rattle.matrix.specs.Matrix.{matrix_row, matrix_inverse_row, row_times, circulant_times};

use galois::product;

const MATRIX_ROW: [u8; 8] = [0x01, 0x01, 0x05, 0x01, 0x08, 0x06, 0x07, 0x04];

const MATRIX_INVERSE_ROW: [u8; 8] = [0xAD, 0x95, 0x76, 0xA8, 0x2F, 0x49, 0xD7, 0xCA];

// ---- the rows

// Each has a function of its own, since the contract of each is all that it has to say: which row the constant is.

// Row 0 of M.
pub fn matrix_row() -> &'static [u8; 8]
    ensures { result.now ≡ matrix_row }
{
    &MATRIX_ROW
}

// Row 0 of the inverse of M.
pub fn matrix_inverse_row() -> &'static [u8; 8]
    ensures { result.now ≡ matrix_inverse_row }
{
    &MATRIX_INVERSE_ROW
}

// ---- a matrix times a word

// Row i of the circulant matrix with this row 0, times the bytes of w.
fn row_times(row: &[u8; 8], i: usize, w: u64) -> u8
    requires { i < 8 }
    ensures { result ≡ row_times row.now i w }
{
    let mut sum = 0;
    for (j, byte) in w.to_le_bytes().iter().enumerate() {
        sum ^= product(row[(8 + j - i) % 8], *byte);
    }
    sum
}

// The circulant matrix with this row 0, times the bytes of w.
pub fn circulant_times(row: &[u8; 8], w: u64) -> u64
    ensures { result ≡ circulant_times row.now w }
{
    let mut bytes = [0; 8];
    for (i, byte) in bytes.iter_mut().enumerate() {
        *byte = row_times(row, i, w);
    }
    u64::from_le_bytes(bytes)
}
