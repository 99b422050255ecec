// Why reading or writing stopped; specs/Stops.antt has a number for each.
ghost use Rattle.std.specs.Prelude.{◌≡◌, option_map};
ghost use Rattle.cipher_io.specs.Stops.{message_of};

// Why a call read or wrote no more.
#[derive(Clone, Copy, PartialEq, Eq)]
pub enum Stop {
    // The input came to its end.
    InputEnded,

    // A read failed.
    ReadingFailed,

    // A write failed, or the window call refused a piece.
    WritingFailed,

    // The last position was reached, and there was more input.
    InputLeftOver,
}

impl Stop {
    // What the program says of it on standard error, a line with its line feed: nothing where the input ended.
    pub fn message(self) -> Option<&'static str>
        ensures { option_map (λ text. text.now) result ≡ message_of self }
    {
        match self {
            Stop::InputEnded => None,
            Stop::ReadingFailed => Some("cipher: reading failed, the output may not be whole\n"),
            Stop::WritingFailed => Some("cipher: writing failed, the output is not whole\n"),
            Stop::InputLeftOver => {
                Some("cipher: stopped after 16777216 bytes of data, there was more\n")
            }
        }
    }
}
