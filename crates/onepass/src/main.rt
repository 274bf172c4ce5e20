//! Reads an input, hands it to `transcript::run`, and prints what that answers. Well-formed input has at most 326 bytes, so that what
//! does not fit the buffer is malformed however it goes on.
#![tactic(auto)]

use std::io;
use std::io::Input;

fn main(rt: HostRuntime) -> io::Result<()> {
    let mut input = [0u8; 4096];
    let n = streams::read_full(&mut rt.reader(), &mut input)?;
    rt.print(transcript::run(&input[..n]))
}
