// Bytes copied to the front of a target that may be longer.
#![tactic(auto)]

ghost use Rattle.std.specs.Prelude.{◌≡◌, ◌++◌, ◌<◌, ◌≤◌, drop, length};

// Copies the source to the front of the target, whose later bytes keep their values. Where the source is longer than the target nothing is written.
pub fn copy(source: &[u8], target: &mut [u8])
    ensures fits { length source.now ≤ length target.old → target.new ≡ source.now ++ drop (length source.now) target.old }
    ensures longer { length target.old < length source.now → target.new ≡ target.old }
{
    if source.len() <= target.len() {
        target[..source.len()].copy_from_slice(source);
    }
}
