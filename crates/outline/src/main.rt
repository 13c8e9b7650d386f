// Prints what a script is made of: its functions with their formals, and their statements, each with its offset; or why it is not read.
#![tactic(auto)]

mod outline;
mod refusal;

use outline::outline_of;
use std::io;
use std::io::Read;

// Both programs have this `main`: one function for both would be public, and no contract could say what it writes.
fn main(rt: HostRuntime) -> io::Result<()> {
    let heap = rt.alloc();
    let mut input = Vec::new(heap);
    rt.stdin().read_to_end(&mut input)?;
    let text = outline_of(heap, &input)?;
    rt.write_all(&text)
}
