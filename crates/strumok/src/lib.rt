// The cipher's calls, each from the crate that holds it: opening a state from key and IV, moving it, applying its keystream from a source to a
// target or over a window, with the cipher's tables or with lent ones, and checking a stored state against an IV.
#![tactic(auto)]

pub use answers::{Answer, LIMIT, Refused};
pub use applying::{apply, apply_with, window, window_with};
pub use checking::check;
pub use moving::move_by;
pub use opening::open;
pub use refusals::{ACCEPTED, Refusal};
