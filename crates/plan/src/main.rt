// Prints the restore plan of the breakpoint event and log that standard input holds.
#![tactic(auto)]

use plan_text::input::read_full;
use std::io;
use std::io::Write;

fn main(rt: HostRuntime) -> io::Result<()> {
    // one byte more than the longest input, so that a longer one is seen
    let mut input = [0u8; 65537];
    let n = read_full(&mut rt.reader(), &mut input)?;
    let mut text = [0u8; 65536];
    let k = plan_text::write_text(&input[..n], &mut text);
    io::writer(&rt).write_all(&text[..k])
}
