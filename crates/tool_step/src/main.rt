// The tool's eight steps of a named panel: two frames, an object that is pending, a static.
#![tactic(auto)]

fn main(rt: HostRuntime) {
    tool::run(&rt, &rt.stderr());
}
