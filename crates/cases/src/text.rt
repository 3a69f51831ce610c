// What is printed.

use super::numbers::FILLER;
use std::io;
use std::io::Write;

// The totals that there are, one more than a call needs, and what each holds before a call.
pub const TOTALS: usize = 5;

pub const UNTOUCHED: u64 = 999;

// What each byte holds before a call, and how many past those lent are printed with them.
pub const GUARD: u8 = 165;

pub const PAST: usize = 8;

// Prints each word from place `from` on that is not as it was given, with its kind and its number from there.
pub(crate) fn print_changes<W: Write>(
    out: &mut W,
    mark: char,
    from: usize,
    given: &[u32],
    left: &[u32],
) -> io::Result<()> {
    for (k, (word, before)) in left.iter().zip(given).skip(from).enumerate() {
        if word != before {
            write!(out, " {mark}{k}:{word}")?;
        }
    }
    Ok(())
}

// Prints each word of the scratch from place `from` on that is not as before the call, with its number from there.
pub(crate) fn print_scratch_from<W: Write>(
    out: &mut W,
    mark: char,
    from: usize,
    scratch: &[u32],
) -> io::Result<()> {
    for (k, word) in scratch.iter().skip(from).enumerate() {
        if *word != FILLER {
            write!(out, " {mark}{k}:{word}")?;
        }
    }
    Ok(())
}

// Prints every total.
pub(crate) fn print_totals<W: Write>(out: &mut W, totals: &[u64]) -> io::Result<()> {
    for total in totals {
        write!(out, " {total}")?;
    }
    Ok(())
}

// Prints every byte in hexadecimal, if one of them is not as before the call.
pub(crate) fn print_bytes<W: Write>(out: &mut W, bytes: &[u8]) -> io::Result<()> {
    if bytes.iter().any(|byte| *byte != GUARD) {
        out.write_all(b" out:")?;
        for byte in bytes {
            write!(out, "{byte:02x}")?;
        }
    }
    Ok(())
}
