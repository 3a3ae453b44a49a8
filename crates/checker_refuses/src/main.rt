// The checker program, run on M5's shelf, of which a body is wrong: it refuses.
#![tactic(auto)]

fn main(rt: HostRuntime) {
    programs::checker::run(&mut rt.stdin(), &mut rt.stdout(), &mut rt.stderr());
}
