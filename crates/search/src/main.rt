// One search, whole: standard input is a query and then a shelf, of at most 65,536 bytes in all. Prints its lines.
#![tactic(auto)]

fn main(rt: HostRuntime) {
    programs::search::run(&mut rt.stdin(), &mut rt.stdout(), &mut rt.stderr());
}
