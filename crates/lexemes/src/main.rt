// Lists the tokens of a script: one line for each, and last the script's end or why it is refused.
#![tactic(auto)]

mod lines;
mod refusal;

use lines::listing;
use std::io;
use std::io::Read;

// Both programs have this `main`: one function for both would be public, and no contract could say what it writes.
fn main(rt: HostRuntime) -> io::Result<()> {
    let heap = rt.alloc();
    let mut input = Vec::new(heap);
    rt.stdin().read_to_end(&mut input)?;
    let text = listing(heap, &input)?;
    rt.write_all(&text)
}
