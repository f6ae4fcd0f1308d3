// Reads calls.txt in the working folder and writes what the calls come to; a file that is not there counts as empty.
#![tactic(auto)]

use std::io;

// What this program has in common with `statement` is `print_answer`; the file, the rooms and the answer are its own.
fn main(rt: HostRuntime) -> io::Result<()> {
    let mut text = vec![in rt.alloc(); 0u8; 70000]?;
    let mut out = vec![in rt.alloc(); 0u8; 400000]?;
    file_bytes::print_answer(&rt, "calls.txt", &mut text, &mut out, daybook::replay_of)
}
