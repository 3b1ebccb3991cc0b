// Every public call and the controller, by lines on standard input: the session's larger brother.
#![tactic(auto)]

fn main(rt: HostRuntime) {
    program::run(&mut rt.stdin(), true, 4096);
}
