// Files read into a lent buffer, or into room that is made for them.
#![tactic(auto)]

ghost use Rattle.std.specs.Prelude.{◌≡◌, ℕ, ◌<◌, ◌≤◌, List, length, take, vec_len, None, IfSome, IfOk};
ghost use Rattle.std.specs.Borrow.{Bor, MutBor};
ghost use Rattle.std.specs.Io.KnownBytes.{Consumes, IsAtEnd};

use std::io::{Read, Write};
use std::rt::Files;
use std::{fs, io};

// Reads until the buffer is full, the input ends or a read fails. Gives how many bytes it put at the buffer's start,
// and the error of the read that failed. The buffer stands beside the number, since a slice of it would say nothing of
// the buffer after the loan.
pub fn read_full<R: Read>(from: &mut R, buffer: &mut [u8]) -> (usize, Option<io::Error>)
    ensures within { result.0 ≤ length buffer.new }
    ensures bytes { Consumes (R.remaining from.old) (R.remaining from.new) (take result.0 buffer.new) }
    ensures all { result.1 ≡ None → result.0 < length buffer.new → IsAtEnd (R.remaining from.new) }
{
    let mut done = 0;
    // a read puts as many bytes as it can, so that no `for` counts them
    while done < buffer.len() {
        match from.read(&mut buffer[done..]) {
            Ok(0) => return (done, None),
            Ok(n) => done += n,
            Err(error) => return (done, Some(error)),
        }
    }
    (done, None)
}

// The bytes of a file, as far as the buffer has room, or up to a read that fails. A file that is not there has none.
pub fn read_named<'b, R: Files>(rt: &R, name: &str, buffer: &'b mut [u8]) -> &'b [u8]
    ensures { length result.now ≤ length buffer.old }
{
    match fs::open(rt, name) {
        Ok(mut file) => {
            let (n, _error) = read_full(&mut file, buffer);
            &buffer[..n]
        }
        Err(_) => b"",
    }
}

// The bytes of a file, likewise; of one that cannot be opened none, and the error output says why. Apart from
// `read_named`, which needs no error output: one function would give both the error, and each caller would match on it.
// By `bytes` what it gives lies between two states of open files, so that the rest of the buffer cannot pass for it.
pub fn read_or_tell<'b, R: Files + Eprint>(
    rt: &R,
    name: &str,
    buffer: &'b mut [u8],
) -> io::Result<Option<&'b [u8]>>
    ensures within { IfOk result (λ read. IfSome read (λ text. length text.now ≤ length buffer.old)) }
    ensures bytes { IfOk result (λ read. IfSome read (λ text. (before after : R.File)
        × Consumes (R.File.remaining before) (R.File.remaining after) text.now)) }
{
    match fs::open(rt, name) {
        Ok(mut file) => {
            let (n, _error) = read_full(&mut file, buffer);
            Ok(Some(&buffer[..n]))
        }
        Err(error) => {
            eprintln!(rt; "{name}: {error}")?;
            Ok(None)
        }
    }
}

// Likewise, at most so many bytes, for a caller with a heap: the room for them is made once the file is open.
pub fn read_vec_or_tell<R: Files + Eprint + Alloc>(
    rt: &R,
    name: &str,
    most: usize,
) -> io::Result<Option<Vec<u8, R::A>>>
    ensures { IfOk result (λ read. IfSome read (λ text. vec_len text ≤ most)) }
{
    let mut file = match fs::open(rt, name) {
        Ok(file) => file,
        Err(error) => {
            eprintln!(rt; "{name}: {error}")?;
            return Ok(None);
        }
    };
    let mut text = vec![in rt.alloc(); 0u8; most]?;
    let (n, _error) = read_full(&mut file, &mut text);
    text.truncate(n);
    Ok(Some(text))
}

// Prints what a function writes into a lent buffer for the bytes of a file; it gives how many these are, which are no
// more than the buffer has room for.
pub fn print_answer<R: Files + Print, F: FnOnce(&[u8], &mut [u8]) -> usize>(
    rt: &R,
    name: &str,
    text: &mut [u8],
    out: &mut [u8],
    answer: F,
) -> io::Result<()>
    requires callable { F.IsAlwaysCallable answer }
    requires fits { (asked : Bor (List ℕ)) (lent left : MutBor (List ℕ)) (n : ℕ)
        → length left.now ≡ length out.old → F.post answer asked lent n left → n ≤ length out.old }
    ensures { (asked : Bor (List ℕ)) × (lent left : MutBor (List ℕ)) × (n : ℕ) × F.post answer asked lent n left
        × (length asked.now ≤ length text.old) × (lent.now ≡ out.old) × (left.now ≡ out.new) }
{
    let n = answer(read_named(rt, name, text), out);
    io::writer(rt).write_all(&out[..n])
}

#[cfg(test)]
mod tests {
    use super::{read_full, read_or_tell};
    use std::fs;

    #[test]
    fn as_far_as_the_buffer_or_the_input_goes(rt: HostRuntime) {
        let mut input: &[u8] = b"abcdefg";
        let mut buffer = [0u8; 4];
        assert_eq!(rt; read_full(&mut input, &mut buffer).0, 4);
        assert_eq!(rt; buffer, *b"abcd");
        assert_eq!(rt; read_full(&mut input, &mut buffer).0, 3);
        assert_eq!(rt; buffer, *b"efgd");
        assert_eq!(rt; read_full(&mut input, &mut buffer).0, 0);
    }

    #[test]
    fn a_file_is_read_into_the_buffer_and_of_an_absent_one_none(rt: HostRuntime) {
        let mut buffer = [0u8; 4];
        assert!(rt; matches!(read_or_tell(&rt, "absent.txt", &mut buffer), Ok(None)));
        for (text, bytes) in [("abc", b"abc".as_slice()), ("abcdefg", b"abcd".as_slice())] {
            assert!(rt; fs::write(&rt, "present.txt", text).is_ok());
            let read = read_or_tell(&rt, "present.txt", &mut buffer);
            assert!(rt; matches!(read, Ok(Some(found)) if found == bytes));
        }
        assert!(rt; fs::remove_file(&rt, "present.txt").is_ok());
    }
}
