// Prints the statement of the day in day.txt of the working folder. A file that is absent is read as empty; of one that is too long as much is
// read as shows that it is.
#![tactic(auto)]

use std::io;

// What this program has in common with `replay` is `print_answer`; the file, the rooms and the answer are its own.
fn main(rt: HostRuntime) -> io::Result<()> {
    let mut text = vec![in rt.alloc(); 0u8; 65537]?;
    let mut out = vec![in rt.alloc(); 0u8; 32768]?;
    file_bytes::print_answer(&rt, "day.txt", &mut text, &mut out, account::statement_of)
}
