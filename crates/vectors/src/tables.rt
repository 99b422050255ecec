// The keys and IVs of DSTU 8845's eight published vectors.

// The published key 80 00 .. 00. Its first 32 bytes are the key of 256 bits.
pub const KEY_80: [u8; 64] = [
    128, 0, 0, 0, 0, 0, 0, 0, 0, 0, 0, 0, 0, 0, 0, 0, 0, 0, 0, 0, 0, 0, 0, 0, 0, 0, 0, 0, 0, 0, 0,
    0, 0, 0, 0, 0, 0, 0, 0, 0, 0, 0, 0, 0, 0, 0, 0, 0, 0, 0, 0, 0, 0, 0, 0, 0, 0, 0, 0, 0, 0, 0, 0,
    0,
];

// The published key AA .. AA, likewise.
pub const KEY_AA: [u8; 64] = [170; 64];

// The published IV of zeros.
pub const IV_ZERO: [u8; 32] = [0; 32];

// The published IV of the words 4, 3, 2, 1, the highest word first.
pub const IV_4321: [u8; 32] = [
    0, 0, 0, 0, 0, 0, 0, 4, 0, 0, 0, 0, 0, 0, 0, 3, 0, 0, 0, 0, 0, 0, 0, 2, 0, 0, 0, 0, 0, 0, 0, 1,
];
