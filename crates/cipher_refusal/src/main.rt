// The cipher program again, run by the gate on an input whose key is all zeros.
#![tactic(auto)]

fn main(rt: HostRuntime) {
    // A refusal was written, and is no failure of the program.
    let _ = cipher_io::run(&rt);
}
