// Standard input answered on standard output (document 01, "What the part does"). What is printed is the line that `line` promises of what was read.
use std::io;

// More bytes than a text may have, so what stands behind them changes no answer; and they hold every line.
const BUFFER: usize = 65536;

pub fn check(rt: &(impl Input + Print)) -> io::Result<()> {
    let mut input = [0u8; BUFFER];
    let mut line = [0u8; BUFFER];
    let n = input_bytes::read_full(&mut rt.reader(), &mut input)?;
    let length = crate::line(&input[..n], &mut line);
    rt.write_all(&line[..length.min(BUFFER)])
}
