// The check program, run on an empty input: the gate runs each program on one standard input, and so it stands here again.
#![tactic(auto)]

use std::io;

fn main(rt: HostRuntime) -> io::Result<()> {
    checker_lines::console::check(&rt)
}
