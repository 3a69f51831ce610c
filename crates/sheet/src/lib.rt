// The yearbook sheet: for each worker the replayed events and units, summed over the plans of a list, and the number of plans that replay an
// event of it.
#![tactic(auto)]

ghost use Rattle.std.specs.Prelude.{◌≡◌, [], ◌∷◌, ℕ, ◌+◌, ◌*◌, ◌^◌, ◌<◌, ◌≤◌, length, take, replicate};
ghost use Rattle.ranges.specs.Fold.{tabulate};
ghost use Rattle.lent.specs.Lent.{onto, left, KeptIfRefused};
ghost use Rattle.event_log.specs.Layout.{workers_of};
ghost use Rattle.event_log.specs.Model.{worker_count};
ghost use Rattle.accept.specs.Refusal.{log_refusal, given};
ghost use Rattle.unit_table.specs.Table.{table_of, table_refusal};
ghost use Rattle.cost.specs.Words.{cuts_in, starts_in};
ghost use Rattle.cost.specs.Inner.Held.{IsHeld};
ghost use Rattle.breakpoints.specs.Breakpoints.{breakpoint_count};
ghost use Rattle.sheet.specs.Sheet.{plan_adds, sheet_up_to, sheet_words};
ghost use Rattle.sheet.specs.Calls.{sheet_refusal, sheet_call};
ghost use Rattle.sheet.specs.Summed.{Summed};
ghost use Rattle.sheet.specs.Inner.Adding.{Summable, added_at};

// The words of the sheet, and of scratch, for each worker.
const COLUMNS: usize = 3;

const SCRATCH_ROWS: usize = 5;

// The first columns of the sheet; the third one has the plans.
const EVENTS: usize = 0;

const UNITS: usize = 1;

// What the plan in these words adds to word j of the sheet.
fn plan_adds(log: &[u8], table: &[u32], words: &[u32], j: usize) -> u64
    requires { ((log_refusal log.now ≡ 0) × IsHeld (workers_of log.now) words.now) × (j < 3 * worker_count (workers_of log.now)) × (table_refusal table.now ≡ 0) }
    ensures answer { result ≡ plan_adds (table_of table.now) (workers_of log.now)
        (cuts_in (workers_of log.now) words.now) (starts_in (workers_of log.now) words.now) j }
{
    let w = j / COLUMNS;
    let column = j % COLUMNS;
    if column == UNITS {
        return cost::worker_units(log, table, words, w);
    }
    let events = cost::worker_events(words, w);
    if column == EVENTS {
        return u64::from(events);
    }
    u64::from(events > 0)
}

// Adds the plan in these words to the sheet.
fn add_plan(log: &[u8], table: &[u32], words: &[u32], sheet: &mut [u64])
    requires { ((log_refusal log.now ≡ 0) × IsHeld (workers_of log.now) words.now) × (length sheet.old ≡ 3 * worker_count (workers_of log.now)) × (table_refusal table.now ≡ 0)
        × ((j : ℕ) → j < length sheet.old → added_at (table_of table.now) (workers_of log.now) words.now sheet.old j < 2 ^ 64) }
    ensures sheet { sheet.new ≡ tabulate (added_at (table_of table.now) (workers_of log.now) words.now sheet.old)
        (length sheet.old) }
{
    for (j, word) in sheet.iter_mut().enumerate() {
        *word += plan_adds(log, table, words, j);
    }
}

// Adds the plan of breakpoint k to the sheet of those before it.
fn add_breakpoint(
    log: &[u8],
    list: &[u32],
    k: usize,
    table: &[u32],
    words: &mut [u32],
    scratch: &mut [u32],
    sheet: &mut [u64],
)
    requires { Summable log.now list.now table.now × (k < breakpoint_count list.now)
        × (length words.old ≡ 3 * worker_count (workers_of log.now)) × (worker_count (workers_of log.now) ≤ length scratch.old)
        × (sheet.old ≡ sheet_up_to (table_of table.now) (workers_of log.now) list.now k) }
    ensures sheet { sheet.new ≡ sheet_up_to (table_of table.now) (workers_of log.now) list.now (k + 1) }
{
    let worker = breakpoints::worker_of(list, k) as usize;
    let event = breakpoints::event_of(list, k);
    restore::plan_words(log, worker, event, words, scratch);
    add_plan(log, table, words, sheet);
}

// Adds the plans of a list to a sheet of zeros.
fn add_list(
    log: &[u8],
    list: &[u32],
    table: &[u32],
    words: &mut [u32],
    scratch: &mut [u32],
    sheet: &mut [u64],
)
    requires { Summable log.now list.now table.now
        × (length words.old ≡ 3 * worker_count (workers_of log.now)) × (worker_count (workers_of log.now) ≤ length scratch.old)
        × (sheet.old ≡ replicate (3 * worker_count (workers_of log.now)) 0) }
    ensures sheet { sheet.new ≡ sheet_words (table_of table.now) (workers_of log.now) list.now }
{
    let all = breakpoints::count(list);
    for k in 0..all {
        add_breakpoint(log, list, k, table, words, scratch, sheet);
    }
}

// The sums over a list in the first 3 × n words of the sheet. `words` takes the words of one plan at a time.
fn sum_list(
    log: &[u8],
    list: &[u32],
    table: &[u32],
    words: &mut [u32],
    scratch: &mut [u32],
    sheet: &mut [u64],
)
    requires { Summable log.now list.now table.now
        × (3 * worker_count (workers_of log.now) ≤ length words.old) × (worker_count (workers_of log.now) ≤ length scratch.old)
        × (3 * worker_count (workers_of log.now) ≤ length sheet.old) }
    ensures sheet { sheet.new ≡ onto (sheet_words (table_of table.now) (workers_of log.now) list.now) sheet.old }
{
    let n = event_log::worker_count(log);
    let all = COLUMNS * n;
    sheet[..all].fill(0);
    add_list(
        log,
        list,
        table,
        &mut words[..all],
        scratch,
        &mut sheet[..all],
    );
}

// The log's refusals, 29, 12 and 13 of the list, then 14, 15 and 27, of a sheet of so many lent words, with so many of scratch.
fn sheet_refusal(log: &[u8], list: &[u32], table: &[u32], sheet: usize, scratch: usize) -> u32
    ensures answer { result ≡ sheet_refusal (given log.now) list.now table.now sheet scratch }
{
    let refusal = breakpoints::list_refusal(log, list);
    if refusal != 0 {
        return refusal;
    }
    let n = event_log::worker_count(log);
    let short = lent::words_refusal(sheet, COLUMNS * n);
    let room = lent::short_scratch(scratch, SCRATCH_ROWS * n);
    let loading = unit_table::table_refusal(table);
    lent::or_else(short, lent::or_else(room, loading))
}

// The sheet of a list of breakpoints: its refusal, or 0 with the sums in the first 3 × n words.
pub fn sheet(log: &[u8], list: &[u32], table: &[u32], sheet: &mut [u64], scratch: &mut [u32]) -> u32
    ensures left { left result (sheet.new ∷ [])
        ≡ sheet_call (given log.now) list.now table.now sheet.old (length scratch.old) }
    ensures kept { KeptIfRefused result scratch.old scratch.new }
    ensures summed { result ≡ 0 → Summed (table_of table.now) (workers_of log.now) list.now
        (take (3 * worker_count (workers_of log.now)) sheet.new) }
{
    let refusal = sheet_refusal(log, list, table, sheet.len(), scratch.len());
    if refusal != 0 {
        return refusal;
    }
    let mut words = [0u32; restore_plan::PLAN_WORDS];
    sum_list(log, list, table, &mut words, scratch, sheet);
    0
}
