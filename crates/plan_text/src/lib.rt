// What the program `plan` prints: the plan of an input, as text in a lent buffer.
#![tactic(auto)]

pub mod input;

ghost use Rattle.std.specs.Prelude.{◌≡◌, [], ◌∷◌, ◌++◌, ◌+◌, ◌*◌, ◌<◌, ◌≤◌, length, drop};
ghost use Rattle.lent.specs.Lent.{words_refusal, unless_refused};
ghost use Rattle.event_log.specs.Layout.{workers_of};
ghost use Rattle.event_log.specs.Model.{worker_count};
ghost use Rattle.accept.specs.Refusal.{log_refusal, given};
ghost use Rattle.lower_cut.specs.Figure2.{lower_cut};
ghost use Rattle.refusals.specs.Refusals.{breakpoint_refusal, search_refusal};
ghost use Rattle.upper_line.specs.Upper.{upper_line};
ghost use Rattle.restore_plan.specs.Plan.{plan_words};
ghost use Rattle.unit_table.specs.Table.{built_in};
ghost use Rattle.restore_plan.specs.Calls.{plan_total_words, found_plan, plan_totals};
ghost use Rattle.plan_text.specs.Text.{decimal, with_number, ended, refused_text, breakpoint_line, four_numbers, words_of, process_line, process_lines, totals_line, found_text, plan_text, text_of};
ghost use Rattle.plan_text.specs.Buffer.{Holds, Adds};

// The longest input, in bytes.
const MAX_INPUT: usize = 65536;

// The scratch for the longest plan.
const SCRATCH: usize = 2 * event_log::MAX_WORKERS;

// Puts bytes at a place of the text, as many as there is room for, and gives the place after them.
fn put(out: &mut [u8], at: usize, bytes: &[u8]) -> usize
    ensures text { Adds out.old at out.new result (λ text. text ++ bytes.now) }
{
    if out.len() <= at {
        return at;
    }
    let count = bytes.len().min(out.len() - at);
    out[at..at + count].copy_from_slice(&bytes[..count]);
    at + count
}

// Writes the digits of a number to the end of the bytes, and gives the place of the first.
fn write_decimal(number: u64, digits: &mut [u8; 20]) -> usize
    ensures within { result ≤ 20 }
    ensures text { drop result digits.new ≡ decimal number }
{
    let mut rest = number;
    // By hand: of bytes that std's formatter writes into a lent slice a proof knows nothing.
    for from in (0..20).rev() {
        digits[from] = b'0' + (rest % 10) as u8;
        rest /= 10;
        if rest == 0 {
            return from;
        }
    }
    unreachable!()
}

// Puts a name and a number in decimal.
fn put_number(out: &mut [u8], at: usize, name: &[u8], number: u64) -> usize
    ensures text { Adds out.old at out.new result (λ text. with_number text name.now number) }
{
    let next = put(out, at, name);
    let mut digits = [0u8; 20];
    let from = write_decimal(number, &mut digits);
    put(out, next, &digits[from..])
}

// Puts a name and a 32-bit number.
fn put_word(out: &mut [u8], at: usize, name: &[u8], number: u32) -> usize
    ensures text { Adds out.old at out.new result (λ text. with_number text name.now number) }
{
    put_number(out, at, name, number as u64)
}

// Puts the end of a line.
fn put_end(out: &mut [u8], at: usize) -> usize
    ensures text { Adds out.old at out.new result ended }
{
    put(out, at, b"\n")
}

// A refusal.
fn put_refused(out: &mut [u8], refusal: u32) -> usize
    ensures text { Holds out.old (refused_text refusal) out.new result }
{
    let next = put_word(out, 0, b"refused ", refusal);
    put_end(out, next)
}

// The first line.
fn put_breakpoint(out: &mut [u8], worker: u32, event: u32) -> usize
    ensures text { Holds out.old (breakpoint_line worker event) out.new result }
{
    let a = put_word(out, 0, b"breakpoint ", worker);
    let b = put_word(out, a, b" ", event);
    put_end(out, b)
}

// Puts four names, each with its number, and the end of the line.
fn put_four(
    out: &mut [u8],
    at: usize,
    first: (&[u8], u64),
    second: (&[u8], u64),
    third: (&[u8], u64),
    fourth: (&[u8], u64),
) -> usize
    ensures text { Adds out.old at out.new result
        (λ text. four_numbers text first.entry.0.now first.entry.1 second.entry.0.now second.entry.1 third.entry.0.now third.entry.1 fourth.entry.0.now fourth.entry.1) }
{
    let one = put_number(out, at, first.0, first.1);
    let two = put_number(out, one, second.0, second.1);
    let three = put_number(out, two, third.0, third.1);
    let four = put_number(out, three, fourth.0, fourth.1);
    put_end(out, four)
}

// The numbers of a worker's line that the upper line and the plan give.
fn put_words(out: &mut [u8], at: usize, cut: u32, upper: u32, start: u32, identifier: u32) -> usize
    ensures text { Adds out.old at out.new result (λ text. words_of text cut upper start identifier) }
{
    put_four(
        out,
        at,
        (b" cut ", cut as u64),
        (b" upper ", upper as u64),
        (b" start ", start as u64),
        (b" checkpoint ", identifier as u64),
    )
}

// The line of worker w.
fn put_process(
    out: &mut [u8],
    at: usize,
    w: usize,
    role: u32,
    words: &[u32],
    upper: &[u32],
) -> usize
    requires { (3 * w + 3 ≤ length words.now) × (w < length upper.now) }
    ensures text { Adds out.old at out.new result (λ text. process_line text role words.now upper.now w) }
{
    let cut = cost::cut_in(words, w);
    let start = cost::start_in(words, w);
    let identifier = cost::identifier_in(words, w);
    let line = upper[w];
    let a = put_number(out, at, b"process ", w as u64);
    let b = put_word(out, a, b" role ", role);
    put_words(out, b, cut, line, start, identifier)
}

// The lines of all workers.
fn put_processes(out: &mut [u8], at: usize, log: &[u8], words: &[u32], upper: &[u32]) -> usize
    requires { (log_refusal log.now ≡ 0) × (length words.now ≡ 3 * worker_count (workers_of log.now)) × (length upper.now ≡ worker_count (workers_of log.now)) }
    ensures text { Adds out.old at out.new result
        (λ text. process_lines text (workers_of log.now) words.now upper.now (worker_count (workers_of log.now))) }
{
    let n = event_log::worker_count(log);
    let mut next = at;
    for w in 0..n {
        next = put_process(out, next, w, event_log::role_of(log, w), words, upper);
    }
    next
}

// The last line.
fn put_totals(
    out: &mut [u8],
    at: usize,
    visits: u64,
    events: u64,
    units: u64,
    workers: u64,
) -> usize
    ensures text { Adds out.old at out.new result (λ text. totals_line text visits events units workers) }
{
    put_four(
        out,
        at,
        (b"visits ", visits),
        (b" events ", events),
        (b" units ", units),
        (b" workers ", workers),
    )
}

// The text of a plan: its words, the upper line and its totals.
fn put_found(
    out: &mut [u8],
    log: &[u8],
    worker: u32,
    event: u32,
    words: &[u32],
    upper: &[u32],
    totals: &[u64],
) -> usize
    requires { (breakpoint_refusal (given log.now) worker event ≡ 0) × (words.now ≡ plan_words (workers_of log.now) (lower_cut (workers_of log.now) worker event))
        × (upper.now ≡ upper_line (workers_of log.now) worker event) × (totals.now ≡ plan_totals (found_plan built_in (workers_of log.now) worker event)) }
    ensures text { Holds out.old (found_text (workers_of log.now) worker event) out.new result }
{
    let a = put_breakpoint(out, worker, event);
    let b = put_processes(out, a, log, words, upper);
    put_totals(out, b, totals[0], totals[1], totals[2], totals[3])
}

// The plan of a breakpoint event, with the built-in table.
fn built_in_plan(
    log: &[u8],
    worker: u32,
    event: u32,
    words: &mut [u32],
    scratch: &mut [u32],
    totals: &mut [u64],
) -> u32
    ensures answer { result ≡ search_refusal (given log.now) worker event 3 (length words.old)
        (words_refusal (length totals.old) plan_total_words) (length scratch.old) }
    ensures words { words.new ≡ unless_refused result
        (plan_words (workers_of log.now) (lower_cut (workers_of log.now) worker event)) words.old }
    ensures totals { totals.new ≡ unless_refused result (plan_totals (found_plan built_in (workers_of log.now) worker event)) totals.old }
{
    let mut table = [0u32; unit_table::TABLE_WORDS];
    planner::built_in_table(&mut table);
    planner::plan(log, worker, event, &table, words, scratch, totals)
}

// The text for a log, a worker and an event.
fn put_plan(out: &mut [u8], log: &[u8], worker: u32, event: u32) -> usize
    ensures text { Holds out.old (plan_text (given log.now) worker event) out.new result }
{
    let mut words = [0u32; restore_plan::PLAN_WORDS];
    let mut scratch = [0u32; SCRATCH];
    let mut totals = [0u64; restore_plan::PLAN_TOTALS];
    let refusal = built_in_plan(log, worker, event, &mut words, &mut scratch, &mut totals);
    if refusal != 0 {
        return put_refused(out, refusal);
    }
    let mut upper = [0u32; event_log::MAX_WORKERS];
    planner::upper_line(log, worker, event, &mut upper);
    let n = event_log::worker_count(log);
    put_found(
        out,
        log,
        worker,
        event,
        &words[..3 * n],
        &upper[..n],
        &totals,
    )
}

// The text of an input: worker and event, 32 bits each, then the log. It is put at the start of `out`, as much as there is room for;
// gives the number of bytes put.
pub fn write_text(input: &[u8], out: &mut [u8]) -> usize
    ensures text { Holds out.old (text_of input.now) out.new result }
{
    if input.len() < 8 || MAX_INPUT < input.len() {
        return put_refused(out, 1);
    }
    put_plan(
        out,
        &input[8..],
        bytes_le::read::<4>(input, 0),
        bytes_le::read::<4>(input, 4),
    )
}
