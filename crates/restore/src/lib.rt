// The restore plan of a breakpoint event.
#![tactic(auto)]

ghost use Rattle.std.specs.Prelude.{◌≡◌, ◌*◌, ◌<◌, ◌≤◌, length, take};
ghost use Rattle.ranges.specs.Fold.{tabulate};
ghost use Rattle.lent.specs.Lent.{onto, unless_refused, KeptIfRefused};
ghost use Rattle.event_log.specs.Layout.{workers_of, log_of};
ghost use Rattle.event_log.specs.Model.{worker_count, IsEvent};
ghost use Rattle.accept.specs.Refusal.{log_refusal, given};
ghost use Rattle.lower_cut.specs.Figure2.{lower_cut};
ghost use Rattle.lower_cut.specs.Calls.{found_cut};
ghost use Rattle.restore_plan.specs.Plan.{plan_words};
ghost use Rattle.cost.specs.Words.{cut_in, cuts_in};
ghost use Rattle.unit_table.specs.Table.{table_of, table_refusal};
ghost use Rattle.restore_plan.specs.Calls.{plan_refusal, found_plan, plan_answer, plan_total_words, plan_totals, planned_words};
ghost use Rattle.restore_plan.specs.Floor.{Floor};
ghost use Rattle.restore_plan.specs.Shown.{Shown};

use lower_cut::Cut;
use restore_plan::Totals;

// Moves the cut in the first n words to the first word of each worker, from the last worker down.
fn spread(words: &mut [u32], n: usize)
    requires { length words.old ≡ 3 * n }
    ensures words { tabulate (cut_in words.new) n ≡ take n words.old }
{
    for w in (0..n).rev() {
        words[3 * w] = words[w];
    }
}

// Writes the lower cut of an event of worker i into the plan words.
fn cut_words(log: &[u8], i: usize, event: u32, words: &mut [u32], scratch: &mut [u32]) -> Cut
    requires { (log_refusal log.now ≡ 0) × (length words.old ≡ 3 * worker_count (workers_of log.now))
        × (worker_count (workers_of log.now) ≤ length scratch.old) × (i < worker_count (workers_of log.now)) × (IsEvent (workers_of log.now) i event) }
    ensures answer { result ≡ found_cut (workers_of log.now) i event }
    ensures words { cuts_in (workers_of log.now) words.new ≡ lower_cut (workers_of log.now) i event }
{
    let n = event_log::worker_count(log);
    let found = lower_cut::found_cut(log, i, event, &mut words[..n], scratch);
    spread(words, n);
    found
}

// The plan words of an event of worker i, with what its lower cut returns.
pub fn plan_words(log: &[u8], i: usize, event: u32, words: &mut [u32], scratch: &mut [u32]) -> Cut
    requires { (log_refusal log.now ≡ 0) × (length words.old ≡ 3 * worker_count (workers_of log.now))
        × (worker_count (workers_of log.now) ≤ length scratch.old) × (i < worker_count (workers_of log.now)) × (IsEvent (workers_of log.now) i event) }
    ensures answer { result ≡ found_cut (workers_of log.now) i event }
    ensures words { words.new ≡ planned_words (workers_of log.now) i event }
{
    let cut = cut_words(log, i, event, words, scratch);
    let n = event_log::worker_count(log);
    starts::plan_into(log, words, &mut scratch[..n]);
    cut
}

// The plan of an event of worker i, with its numbers.
fn plan_found(
    log: &[u8],
    i: usize,
    event: u32,
    table: &[u32],
    words: &mut [u32],
    scratch: &mut [u32],
) -> Totals
    requires { (log_refusal log.now ≡ 0) × (length words.old ≡ 3 * worker_count (workers_of log.now))
        × (worker_count (workers_of log.now) ≤ length scratch.old) × (i < worker_count (workers_of log.now)) × (IsEvent (workers_of log.now) i event)
        × (table_refusal table.now ≡ 0) }
    ensures answer { result ≡ found_plan (table_of table.now) (workers_of log.now) i event }
    ensures words { words.new ≡ plan_words (workers_of log.now) (lower_cut (workers_of log.now) i event) }
{
    let cut = plan_words(log, i, event, words, scratch);
    Totals {
        refusal: 0,
        visits: cut.visits,
        events: cost::events_of(log, words),
        units: cost::units_of(log, table, words),
        workers: cut.workers,
    }
}

// The log's refusals, then 12 to 15 and 27, of a plan into `words` lent words.
pub fn plan_refusal(
    log: &[u8],
    worker: u32,
    event: u32,
    table: &[u32],
    words: usize,
    others: u32,
    scratch: usize,
) -> u32
    ensures answer { result ≡ plan_refusal (given log.now) worker event table.now words others scratch }
{
    let search = refusals::search_refusal(log, worker, event, 3, words, others, scratch);
    let loading = unit_table::table_refusal(table);
    lent::or_else(search, loading)
}

// The plan of event `event` of worker `worker`: its refusal, or the cut, the start and the identifier of each worker, with its numbers.
// `others` is the refusal of what else the caller was lent.
pub fn plan(
    log: &[u8],
    worker: u32,
    event: u32,
    table: &[u32],
    others: u32,
    words: &mut [u32],
    scratch: &mut [u32],
) -> Totals
    ensures refused { result.refusal
        ≡ plan_refusal (given log.now) worker event table.now (length words.old) others (length scratch.old) }
    ensures answer { result ≡ plan_answer result.refusal (table_of table.now) (workers_of log.now) worker event }
    ensures words { words.new ≡ unless_refused result.refusal
        (planned_words (workers_of log.now) worker event) words.old }
    ensures kept { KeptIfRefused result.refusal scratch.old scratch.new }
    ensures floor { result.refusal ≡ 0 → Floor (workers_of log.now) worker event
        (take (3 * worker_count (workers_of log.now)) words.new) }
    ensures shown { result.refusal ≡ 0 → Shown (log_of log.now) (take (3 * worker_count (workers_of log.now)) words.new) }
{
    let refusal = plan_refusal(
        log,
        worker,
        event,
        table,
        words.len(),
        others,
        scratch.len(),
    );
    if refusal != 0 {
        return Totals {
            refusal,
            visits: 0,
            events: 0,
            units: 0,
            workers: 0,
        };
    }
    let n = event_log::worker_count(log);
    let all = 3 * n;
    plan_found(
        log,
        worker as usize,
        event,
        table,
        &mut words[..all],
        scratch,
    )
}

// Writes what the plan returns.
pub fn write_plan(totals: &mut [u64], found: Totals)
    requires { plan_total_words ≤ length totals.old }
    ensures totals { totals.new ≡ onto (plan_totals found) totals.old }
{
    totals[0] = found.visits;
    totals[1] = found.events;
    totals[2] = found.units;
    totals[3] = found.workers;
}
