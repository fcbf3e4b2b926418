// Runs the settled examples that are run, and prints a line for each: its name, code, place and other, and what else it gives.
#![tactic(auto)]

mod books;
mod charts;
mod checks;
mod completions;
mod roles;
mod runs;
mod show;

// A write that fails ends the program with its error.
fn main(rt: HostRuntime) -> std::io::Result<()> {
    charts::run(&rt)?;
    books::run(&rt)?;
    runs::run(&rt)?;
    roles::run(&rt)?;
    checks::run(&rt)?;
    completions::run(&rt)
}
