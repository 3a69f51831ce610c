// The numbers that a call is given, in one array: how many words, or bytes, are lent of each kind, the words that it reads, and those that it
// writes over. Scratch has an array of its own. `scripts/calls.py` has the same places.

ghost use Rattle.std.specs.Prelude.{◌<◌, ◌≤◌, length};

// What each word holds at first: a number over every event count.
pub const FILLER: u32 = 900000;

// The numbers of the calls are below this one, and that of a new line is this one.
pub const CALLS: usize = 24;

pub const LINE: usize = CALLS;

pub const ENTRIES: usize = LINE + 1;

// The places of the counts. READ: the words of a cut or a plan that a call reads. WRITTEN: those that it writes, of a line, a cut or a plan,
// the answer of a test, the positions of a step, or the built-in table. Then scratch, the positions and answers of a list of steps, totals,
// bytes, the list, the unit table, and the bytes of a file and of a name. The places from 25 to 31 and from 43 to 63 are
// free.
pub const READ: usize = 32;

pub const WRITTEN: usize = 33;

pub const SCRATCH: usize = 34;

pub const POSITIONS: usize = 35;

pub const ANSWERS: usize = 36;

pub const TOTALS: usize = 37;

pub const BYTES: usize = 38;

pub const LIST: usize = 39;

pub const TABLE: usize = 40;

pub const FILE: usize = 41;

pub const NAME: usize = 42;

// The first places of the words that are read, of the list, of the unit table, of the file, of the name, of the words that are written, and
// of the answers of a list, which are beyond the positions. The list has 2,050 words. The file and the name, 4 bytes to a word, have 512 and
// 16, the others 8 words more than the largest log, or the longest table, needs.
pub const READ_AT: usize = 64;

pub const LIST_AT: usize = READ_AT + 3 * event_log::MAX_WORKERS + 8;

pub const TABLE_AT: usize = LIST_AT + 2050;

pub const FILE_AT: usize = TABLE_AT + 32;

pub const NAME_AT: usize = FILE_AT + 512;

pub const WRITTEN_AT: usize = NAME_AT + 16;

pub const ANSWERS_AT: usize = WRITTEN_AT + event_log::MAX_WORKERS + 8;

// With the answers of 32 steps, and 8 words more.
pub const SIZE: usize = ANSWERS_AT + 32 * (event_log::MAX_WORKERS + 1) + 8;

// The words of scratch that there are to lend: n × n, and 8 more. A call that lends more needs this number raised, here and in
// `scripts/calls.py`.
pub const SCRATCH_ROOM: usize = event_log::MAX_WORKERS * event_log::MAX_WORKERS + 8;

// The bytes that there are to lend.
pub const ROOM: usize = 65536;

// The words to lend, from place `from` on: as many as stand at place `kind`, or as there are.
pub(crate) fn part(numbers: &mut [u32], kind: usize, from: usize) -> &mut [u32]
    requires { (kind < length numbers.old) × (from ≤ length numbers.old) }
{
    let count = numbers[kind] as usize;
    first(&mut numbers[from..], count)
}

// The first of some words or bytes: so many, or all.
pub(crate) fn first<T>(items: &mut [T], count: usize) -> &mut [T] {
    let count = count.min(items.len());
    &mut items[..count]
}
