// Settles the claim file on standard input and prints the result.
#![tactic(auto)]

fn main(rt: HostRuntime) {
    front::settle_stdin(&rt);
}
