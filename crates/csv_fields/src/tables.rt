// Which bytes a field may hold: an entry for each byte, eight a line. `textdata` and `inside` say what they hold.

pub const TEXTDATA: [bool; 256] = [
    false, false, false, false, false, false, false, false, // TEXTDATA 00
    false, false, false, false, false, false, false, false, // TEXTDATA 08
    false, false, false, false, false, false, false, false, // TEXTDATA 10
    false, false, false, false, false, false, false, false, // TEXTDATA 18
    true, true, false, true, true, true, true, true, // TEXTDATA 20
    true, true, true, true, false, true, true, true, // TEXTDATA 28
    true, true, true, true, true, true, true, true, // TEXTDATA 30
    true, true, true, true, true, true, true, true, // TEXTDATA 38
    true, true, true, true, true, true, true, true, // TEXTDATA 40
    true, true, true, true, true, true, true, true, // TEXTDATA 48
    true, true, true, true, true, true, true, true, // TEXTDATA 50
    true, true, true, true, true, true, true, true, // TEXTDATA 58
    true, true, true, true, true, true, true, true, // TEXTDATA 60
    true, true, true, true, true, true, true, true, // TEXTDATA 68
    true, true, true, true, true, true, true, true, // TEXTDATA 70
    true, true, true, true, true, true, true, false, // TEXTDATA 78
    true, true, true, true, true, true, true, true, // TEXTDATA 80
    true, true, true, true, true, true, true, true, // TEXTDATA 88
    true, true, true, true, true, true, true, true, // TEXTDATA 90
    true, true, true, true, true, true, true, true, // TEXTDATA 98
    true, true, true, true, true, true, true, true, // TEXTDATA A0
    true, true, true, true, true, true, true, true, // TEXTDATA A8
    true, true, true, true, true, true, true, true, // TEXTDATA B0
    true, true, true, true, true, true, true, true, // TEXTDATA B8
    true, true, true, true, true, true, true, true, // TEXTDATA C0
    true, true, true, true, true, true, true, true, // TEXTDATA C8
    true, true, true, true, true, true, true, true, // TEXTDATA D0
    true, true, true, true, true, true, true, true, // TEXTDATA D8
    true, true, true, true, true, true, true, true, // TEXTDATA E0
    true, true, true, true, true, true, true, true, // TEXTDATA E8
    true, true, true, true, true, true, true, true, // TEXTDATA F0
    true, true, true, true, true, true, true, true, // TEXTDATA F8
];

pub const INSIDE: [bool; 256] = [
    false, false, false, false, false, false, false, false, // INSIDE 00
    false, false, true, false, false, true, false, false, // INSIDE 08
    false, false, false, false, false, false, false, false, // INSIDE 10
    false, false, false, false, false, false, false, false, // INSIDE 18
    true, true, false, true, true, true, true, true, // INSIDE 20
    true, true, true, true, true, true, true, true, // INSIDE 28
    true, true, true, true, true, true, true, true, // INSIDE 30
    true, true, true, true, true, true, true, true, // INSIDE 38
    true, true, true, true, true, true, true, true, // INSIDE 40
    true, true, true, true, true, true, true, true, // INSIDE 48
    true, true, true, true, true, true, true, true, // INSIDE 50
    true, true, true, true, true, true, true, true, // INSIDE 58
    true, true, true, true, true, true, true, true, // INSIDE 60
    true, true, true, true, true, true, true, true, // INSIDE 68
    true, true, true, true, true, true, true, true, // INSIDE 70
    true, true, true, true, true, true, true, false, // INSIDE 78
    true, true, true, true, true, true, true, true, // INSIDE 80
    true, true, true, true, true, true, true, true, // INSIDE 88
    true, true, true, true, true, true, true, true, // INSIDE 90
    true, true, true, true, true, true, true, true, // INSIDE 98
    true, true, true, true, true, true, true, true, // INSIDE A0
    true, true, true, true, true, true, true, true, // INSIDE A8
    true, true, true, true, true, true, true, true, // INSIDE B0
    true, true, true, true, true, true, true, true, // INSIDE B8
    true, true, true, true, true, true, true, true, // INSIDE C0
    true, true, true, true, true, true, true, true, // INSIDE C8
    true, true, true, true, true, true, true, true, // INSIDE D0
    true, true, true, true, true, true, true, true, // INSIDE D8
    true, true, true, true, true, true, true, true, // INSIDE E0
    true, true, true, true, true, true, true, true, // INSIDE E8
    true, true, true, true, true, true, true, true, // INSIDE F0
    true, true, true, true, true, true, true, true, // INSIDE F8
];
