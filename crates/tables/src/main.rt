// The tables program: entry 01 of the table of α, entry 01 of that of α inverse, and T(0), a line each.
#![tactic(auto)]

mod lines;

// Standard output.
const STDOUT: i32 = 1;

// Writes a line's two parts, the second only where the first was written. Whether that failed, which is left free, decides only whether the program goes
// on; `Out` of `printing` would go on after a write that fails.
fn write_line<'a>(front: &'a [u8], end: &'a [u8]) -> bool {
    io::write_all(STDOUT, front) && io::write_all(STDOUT, end)
}

fn main() {
    let l = lines::all_lines();
    if write_line(&l.mula, &l.alpha) && write_line(&l.muli, &l.inverse) {
        write_line(&l.t, &l.image);
    }
}
