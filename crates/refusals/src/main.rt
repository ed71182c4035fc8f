// Runs the library's refusals, on both sides of each edge, and compares whole answers with what document 01 orders. What is tried
// stands in the table on standard input (the file `stdin` of this crate), a line for each row.
#![tactic(auto)]

ghost use Rattle.std.specs.Prelude.{◌≤◌, length, IfOk};

mod calls;
mod generators;
mod listed;
mod next_words;
mod order;
mod report;
mod seeds;
mod table;
mod told;
mod trying;
mod windows;

use std::io;
use std::io::Read;

// The bytes of the table that are read, at most. They stand on the stack: this program asks for no memory.
const ROOM: usize = 65536;

// Reads until the buffer is full or the input ends, and answers how many bytes stand at the buffer's start.
fn read_full(input: &mut impl Read, buffer: &mut [u8]) -> io::Result<usize>
    ensures { IfOk result (λ n. n ≤ length buffer.new) }
{
    let mut done: usize = 0;
    while done < buffer.len() {
        let n = input.read(&mut buffer[done..])?;
        if n == 0 {
            break;
        }
        done += n;
    }
    Ok(done)
}

fn main(rt: HostRuntime) -> io::Result<()> {
    let mut text = [0; ROOM];
    let n = read_full(&mut rt.reader(), &mut text)?;
    trying::try_table(&rt, &text[..n])
}
