// The checker as a program: standard input is a shelf. Prints `sound`, or `R number offset`.
#![tactic(auto)]

fn main(rt: HostRuntime) {
    programs::checker::run(&mut rt.stdin(), &mut rt.stdout(), &mut rt.stderr());
}
