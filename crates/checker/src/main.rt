// The check program.
#![tactic(auto)]

use std::io;

fn main(rt: HostRuntime) -> io::Result<()> {
    checker_lines::console::check(&rt)
}
