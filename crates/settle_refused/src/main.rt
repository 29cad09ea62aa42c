// The program `settle`, run on a file that is turned away.
#![tactic(auto)]

fn main(rt: HostRuntime) {
    front::settle_stdin(&rt);
}
