// Runs the readers and the statement over the files that the arguments name. First it says of each file what was read and what was refused: the
// sheet from place 0, then a record at each line behind it that begins `hour=`, at the text's end, and one past it. Then it prints of each file
// its name and its statement.
#![tactic(auto)]

use lines::TextRefusal;
use sheet::Sheet;
use std::io::{BufWriter, Write};
use std::{env, io};

// A file: its name and its bytes.
#[derive(Clone, Copy)]
struct Day<'a> {
    name: &'a str,
    text: &'a [u8],
}

fn put_refusal<W: Write>(out: &mut W, refusal: TextRefusal) -> io::Result<()> {
    writeln!(out, " refused {} {}", refusal.number(), refusal.line)
}

// A record at a place.
fn put_record<W: Write>(out: &mut W, day: Day, at: usize, sheet: &Sheet) -> io::Result<()> {
    write!(out, "{} record {at}", day.name)?;
    let monthly = sheet::monthly_of(sheet);
    match record_text::read_record(day.text, at as u64, sheet.units, monthly) {
        Ok(found) => writeln!(out, " read {} hour {}", found.place, found.read.hour),
        Err(refusal) => put_refusal(out, refusal),
    }
}

// Whether a line that begins with the key `hour` begins at a place.
fn hour_at(text: &[u8], at: usize) -> bool {
    let begins = at == 0 || text.get(at - 1) == Some(&b'\n');
    begins
        && text
            .get(at..)
            .is_some_and(|rest| rest.starts_with(b"hour="))
}

// The records of a text, behind its sheet.
fn put_records<W: Write>(out: &mut W, day: Day, from: usize, sheet: &Sheet) -> io::Result<()> {
    let end = day.text.len();
    for at in from..end {
        if hour_at(day.text, at) {
            put_record(out, day, at, sheet)?;
        }
    }
    put_record(out, day, end, sheet)?;
    put_record(out, day, end + 1, sheet)
}

// What is read of a file, and what is refused.
fn put_readings<W: Write>(out: &mut W, day: Day) -> io::Result<()> {
    write!(out, "{} sheet", day.name)?;
    match sheet_text::read_sheet(day.text, 0) {
        Ok(found) => {
            writeln!(out, " read {}", found.place)?;
            put_records(out, day, found.place as usize, &found.sheet)
        }
        Err(refusal) => put_refusal(out, refusal),
    }
}

// The statement of one of several files, behind its name; `file_bytes::print_answer` is for a program that prints one answer and no more.
fn put_statement<W: Write>(out: &mut W, day: Day) -> io::Result<()> {
    let mut bytes = [0u8; 32768];
    let n = account::statement_of(day.text, &mut bytes);
    writeln!(out, "{}", day.name)?;
    out.write_all(&bytes[..n])
}

fn main(rt: HostRuntime) -> io::Result<()> {
    let names: Vec<String> = env::args(&rt)?.skip(1).collect(rt.alloc())?;
    let mut out = BufWriter::new(rt.alloc(), io::writer(&rt))?;
    for name in &names {
        let name = name.as_str();
        if let Some(text) = file_bytes::read_vec_or_tell(&rt, name, 65537)? {
            put_readings(&mut out, Day { name, text: &text })?;
        }
    }
    for name in &names {
        let name = name.as_str();
        if let Some(text) = file_bytes::read_vec_or_tell(&rt, name, 65537)? {
            put_statement(&mut out, Day { name, text: &text })?;
        }
    }
    out.flush()
}
