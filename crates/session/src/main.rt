// Document 01's session: lines on standard input, answers on standard output.
#![tactic(auto)]

fn main(rt: HostRuntime) {
    program::run(&mut rt.stdin(), false, 256);
}
