// The program `merge` of document 01. The gate runs it on the five messages of document 01.
#![tactic(auto)]

fn main(rt: HostRuntime) -> std::io::Result<()> {
    merge_run::merge(rt.stdin(), rt.stdout())
}
