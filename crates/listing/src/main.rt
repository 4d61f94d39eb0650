// A plan file on standard input, its table of bounds on standard output.
#![tactic(auto)]

use std::io;
use std::io::Write;

fn main(rt: HostRuntime) -> io::Result<()> {
    // One byte more than a plan file may have, so that a longer one is refused.
    let mut file = [0u8; 65537];
    let n = input::read_full(&mut rt.stdin(), &mut file)?;
    let mut out = [0u8; 16448];
    let k = table::write(&file[..n], &mut out);
    io::writer(&rt).write_all(&out[..k])
}
