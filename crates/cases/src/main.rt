// Makes the calls that standard input lists for each case, and prints what each returns and the words or bytes that it changes, each line with
// the case's name first. `scripts/calls.py` says which calls they are, and how they are listed.
// An argument names a case file, an input of the program `plan`: worker and event, 32 bits each, then the log.
#![tactic(auto)]

mod calls;
mod numbers;
mod text;

use numbers::{ROOM, SIZE};
use plan_text::input::read_full;
use std::io::{BufReader, BufWriter, Read, Write};
use std::rt::Files;
use std::{env, fs, io};

// The next number of a file, of 4 bytes with the lowest first; 0 after its end.
fn read_number<R: Read>(file: &mut R) -> io::Result<u32> {
    let mut bytes = [0u8; 4];
    read_full(file, &mut bytes)?;
    Ok(bytes_le::read::<4>(&bytes, 0))
}

// The entries of a case, each the place of a number and its value. At a place below ENTRIES it is a call or a new line.
fn run_entries<R: Read, W: Write>(
    input: &mut R,
    out: &mut W,
    name: &str,
    log: &[u8],
    event: u32,
) -> io::Result<()> {
    let mut given = [numbers::FILLER; SIZE];
    let count = read_number(input)?;
    for _ in 0..count {
        let at = read_number(input)? as usize % SIZE;
        let value = read_number(input)?;
        given[at] = value;
        if at < numbers::ENTRIES {
            calls::run_entry(out, name, log, event, &given, at, value)?;
        }
    }
    Ok(())
}

// The case in a file, as far as there is room for its log. Its worker is listed with each call.
fn run_case<R: Read, W: Write, F: Read>(
    input: &mut R,
    out: &mut W,
    name: &str,
    file: &mut F,
) -> io::Result<()> {
    let mut log = [0u8; ROOM];
    read_number(file)?;
    let event = read_number(file)?;
    let length = read_full(file, &mut log)?;
    out.write_all(name.as_bytes())?;
    run_entries(input, out, name, &log[..length], event)?;
    out.write_all(b"\n")
}

// The case that an argument names. A file that does not open is as an empty one.
fn run_argument<R: Read, W: Write>(
    rt: &impl Files,
    input: &mut R,
    out: &mut W,
    name: &str,
) -> io::Result<()> {
    match fs::open(rt, name) {
        Ok(mut file) => run_case(input, out, name, &mut file),
        Err(_) => run_case(input, out, name, &mut io::empty()),
    }
}

// Every argument.
fn main(rt: HostRuntime) -> io::Result<()> {
    let mut input = BufReader::new(rt.alloc(), rt.reader())?;
    let mut out = BufWriter::new(rt.alloc(), io::writer(&rt))?;
    for name in env::args(&rt)?.skip(1) {
        run_argument(&rt, &mut input, &mut out, name.as_str())?;
    }
    out.flush()
}
