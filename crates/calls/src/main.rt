// Prints, for each file that the arguments name, its name on a line and then what `replay` prints for its bytes.
#![tactic(auto)]

use std::io::{BufWriter, Write};
use std::rt::Files;
use std::{env, io};

fn file_of<R: Files + Eprint + Alloc, W: Write>(rt: &R, out: &mut W, name: &str) -> io::Result<()> {
    let Some(text) = file_bytes::read_vec_or_tell(rt, name, 70000)? else {
        return Ok(());
    };
    writeln!(out, "{name}")?;
    let mut bytes = vec![in rt.alloc(); 0u8; 400000]?;
    let n = daybook::replay_of(&text, &mut bytes);
    bytes.truncate(n);
    out.write_all(&bytes)
}

fn main(rt: HostRuntime) -> io::Result<()> {
    let mut out = BufWriter::new(rt.alloc(), io::writer(&rt))?;
    for name in env::args(&rt)?.skip(1) {
        file_of(&rt, &mut out, name.as_str())?;
    }
    out.flush()
}
