// The search program, run on an input of 65,537 bytes: it refuses.
#![tactic(auto)]

fn main(rt: HostRuntime) {
    programs::search::run(&mut rt.stdin(), &mut rt.stdout(), &mut rt.stderr());
}
