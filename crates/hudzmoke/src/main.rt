// The tool. Its data are the sample of document 01.
#![tactic(auto)]

fn main(rt: HostRuntime) {
    tool::run(&rt, &rt.stderr());
}
