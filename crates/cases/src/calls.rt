// The calls on the numbers given. Each function prints the words or bytes that its call changes, and gives what the call returned.

use super::numbers::{
    ANSWERS_AT, FILLER, LINE, LIST_AT, READ_AT, ROOM, SCRATCH_ROOM, SIZE, TABLE_AT, WRITTEN_AT,
    first, part,
};
use super::text::{GUARD, PAST, TOTALS, UNTOUCHED, print_changes};
use super::{numbers, text};
use std::io;
use std::io::Write;

// The calls, and Free for a number that makes none.
#[derive(Clone, Copy)]
pub(crate) enum Call {
    LogRefusal,
    Vector,
    UpperLine,
    Covers,
    CutTest,
    Step,
    Steps,
    LowerCut,
    Plan,
    Restore,
    Pack,
    LoadTable,
    BuiltIn,
    Intervals,
    Free,
}

impl Call {
    // The call of this number, as `scripts/calls.py` has them. Those from 14 on are free.
    fn numbered(number: usize) -> Call {
        match number {
            0 => Call::LogRefusal,
            1 => Call::Vector,
            2 => Call::UpperLine,
            3 => Call::Covers,
            4 => Call::CutTest,
            5 => Call::Step,
            6 => Call::Steps,
            7 => Call::LowerCut,
            8 => Call::Plan,
            9 => Call::Restore,
            10 => Call::Pack,
            11 => Call::LoadTable,
            12 => Call::BuiltIn,
            13 => Call::Intervals,
            _ => Call::Free,
        }
    }

    fn name(self) -> &'static str {
        match self {
            Call::LogRefusal => "log_refusal",
            Call::Vector => "vector",
            Call::UpperLine => "upper_line",
            Call::Covers => "covers",
            Call::CutTest => "cut_test",
            Call::Step => "step",
            Call::Steps => "steps",
            Call::LowerCut => "lower_cut",
            Call::Plan => "plan",
            Call::Restore => "restore",
            Call::Pack => "pack",
            Call::LoadTable => "load_table",
            Call::BuiltIn => "built_in",
            Call::Intervals => "intervals",
            Call::Free => "",
        }
    }
}

// The calls that write words of one kind; any other makes none. `value` is the worker, or the identifier of a covering set.
fn run_one<W: Write>(
    out: &mut W,
    log: &[u8],
    event: u32,
    given: &[u32; SIZE],
    call: Call,
    value: u32,
) -> io::Result<u32> {
    let mut read = *given;
    let mut loaded = *given;
    let mut written = *given;
    let words = part(&mut read, numbers::READ, READ_AT);
    let table = part(&mut loaded, numbers::TABLE, TABLE_AT);
    let lent = part(&mut written, numbers::WRITTEN, WRITTEN_AT);
    let number = match call {
        Call::LogRefusal => planner::log_refusal(log),
        Call::Vector => planner::vector(log, value, event, lent),
        Call::UpperLine => planner::upper_line(log, value, event, lent),
        Call::Covers => planner::covers(log, value, lent),
        Call::CutTest => planner::cut_test(log, words, lent),
        Call::Step => planner::step(log, words, lent, value),
        Call::LoadTable => planner::load_table(table),
        Call::BuiltIn => planner::built_in_table(lent),
        _ => 0,
    };
    print_changes(out, 'w', WRITTEN_AT, given, &written)?;
    Ok(number)
}

// The steps of a list.
fn run_steps<W: Write>(out: &mut W, log: &[u8], given: &[u32; SIZE]) -> io::Result<u32> {
    let mut read = *given;
    let mut list = *given;
    let mut written = *given;
    let mut answers = *given;
    let words = part(&mut read, numbers::READ, READ_AT);
    let workers = part(&mut list, numbers::LIST, LIST_AT);
    let number = planner::steps(
        log,
        words,
        part(&mut written, numbers::WRITTEN, WRITTEN_AT),
        workers,
        part(&mut answers, numbers::ANSWERS, ANSWERS_AT),
    );
    print_changes(out, 'w', WRITTEN_AT, given, &written)?;
    print_changes(out, 'a', ANSWERS_AT, given, &answers)?;
    Ok(number)
}

// Prints what a search leaves. Where it is refused, that is any change of the scratch, and else of the words behind it, since the scratch
// itself is then free.
fn print_search<W: Write>(
    out: &mut W,
    number: u32,
    given: &[u32; SIZE],
    written: &[u32; SIZE],
    scratch: &[u32],
    totals: &[u64],
) -> io::Result<()> {
    print_changes(out, 'w', WRITTEN_AT, given, written)?;
    if number != 0 {
        text::print_scratch_from(out, 's', 0, scratch)?;
    } else {
        text::print_scratch_from(out, 'g', given[numbers::SCRATCH] as usize, scratch)?;
    }
    text::print_totals(out, totals)
}

// The lower cut or the plan.
fn run_search<W: Write>(
    out: &mut W,
    log: &[u8],
    event: u32,
    given: &[u32; SIZE],
    call: Call,
    worker: u32,
) -> io::Result<u32> {
    let mut loaded = *given;
    let mut written = *given;
    let mut scratch = [FILLER; SCRATCH_ROOM];
    let mut totals = [UNTOUCHED; TOTALS];
    let table = part(&mut loaded, numbers::TABLE, TABLE_AT);
    let lent = part(&mut written, numbers::WRITTEN, WRITTEN_AT);
    let room = first(&mut scratch, given[numbers::SCRATCH] as usize);
    let number = match call {
        Call::Plan => planner::plan(log, worker, event, table, lent, room, &mut totals),
        _ => planner::lower_cut(log, worker, event, lent, room, &mut totals),
    };
    print_search(out, number, given, &written, &scratch, &totals)?;
    Ok(number)
}

// The plan, and the steps of a list from its starts.
fn run_restore<W: Write>(
    out: &mut W,
    log: &[u8],
    event: u32,
    given: &[u32; SIZE],
    worker: u32,
) -> io::Result<u32> {
    let mut list = *given;
    let mut loaded = *given;
    let mut written = *given;
    let mut scratch = [FILLER; SCRATCH_ROOM];
    let mut positions = *given;
    let mut answers = *given;
    let mut totals = [UNTOUCHED; TOTALS];
    let workers = part(&mut list, numbers::LIST, LIST_AT);
    let table = part(&mut loaded, numbers::TABLE, TABLE_AT);
    let number = planner::restore_and_replay(
        log,
        worker,
        event,
        workers,
        table,
        part(&mut written, numbers::WRITTEN, WRITTEN_AT),
        first(&mut scratch, given[numbers::SCRATCH] as usize),
        part(&mut positions, numbers::POSITIONS, WRITTEN_AT),
        part(&mut answers, numbers::ANSWERS, ANSWERS_AT),
        first(&mut totals, given[numbers::TOTALS] as usize),
    );
    print_changes(out, 'p', WRITTEN_AT, given, &positions)?;
    print_changes(out, 'a', ANSWERS_AT, given, &answers)?;
    print_search(out, number, given, &written, &scratch, &totals)?;
    Ok(number)
}

// The packed log or the interval log, in the bytes that are lent.
fn run_writer<W: Write>(
    out: &mut W,
    log: &[u8],
    given: &[u32; SIZE],
    call: Call,
) -> io::Result<u32> {
    let mut bytes = [GUARD; ROOM + PAST];
    let mut totals = [UNTOUCHED; TOTALS];
    let count = ROOM.min(given[numbers::BYTES] as usize);
    let lent = first(&mut bytes, count);
    let written = first(&mut totals, given[numbers::TOTALS] as usize);
    let number = match call {
        Call::Pack => planner::pack(log, lent, written),
        _ => planner::intervals(log, lent, written),
    };
    text::print_bytes(out, &bytes[..count + PAST])?;
    text::print_totals(out, &totals)?;
    Ok(number)
}

// A call, with its name before what it changes and its result after that; or a new line of this number.
pub(crate) fn run_entry<W: Write>(
    out: &mut W,
    name: &str,
    log: &[u8],
    event: u32,
    given: &[u32; SIZE],
    entry: usize,
    value: u32,
) -> io::Result<()> {
    if entry == LINE {
        return write!(out, "\n{name} {value}");
    }
    let call = Call::numbered(entry);
    let call_name = call.name();
    write!(out, " {call_name:<11}")?;
    let number = match call {
        Call::Steps => run_steps(out, log, given)?,
        Call::LowerCut | Call::Plan => run_search(out, log, event, given, call, value)?,
        Call::Restore => run_restore(out, log, event, given, value)?,
        Call::Pack | Call::Intervals => run_writer(out, log, given, call)?,
        _ => run_one(out, log, event, given, call, value)?,
    };
    write!(out, " ={number}")
}
