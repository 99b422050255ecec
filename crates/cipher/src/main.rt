// The cipher program: one byte giving the key length, the key, 32 IV bytes and data in; the data with the keystream applied out.
#![tactic(auto)]

fn main(rt: HostRuntime) {
    // A refusal was written, and is no failure of the program.
    let _ = cipher_io::run(&rt);
}
