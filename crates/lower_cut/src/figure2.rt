// The lower cut, found as in the paper's Figure 2.

ghost use Rattle.std.specs.Prelude.{◌≡◌, false, ◌+◌, ◌<◌, ◌≤◌, length};
ghost use Rattle.event_log.specs.Layout.{workers_of};
ghost use Rattle.event_log.specs.Limits.{max_workers};
ghost use Rattle.event_log.specs.Model.{worker_count, event_count};
ghost use Rattle.accept.specs.Refusal.{log_refusal};
ghost use Rattle.causality.specs.Inner.Row.{named_row};
ghost use Rattle.lower_cut.specs.Figure2.{visit_at};
ghost use Rattle.lower_cut.specs.Inner.Visiting.{Visiting};
ghost use Rattle.lower_cut.specs.Inner.Turns.{turns_at_once, NextTurns, rows_below, stale_after};

// How many turns are copied from a row at once.
const TURNS: usize = 16;

// Copies the next turns from worker v on: the workers whose component is above the cut, each with its component. Behind the last one, where
// there are fewer than TURNS, stands the number of workers.
fn next_turns(cut: &[u32], row: &[u32], v: usize, workers: &mut [u8], events: &mut [u32])
    requires { (length cut.now ≡ length row.now) × (length row.now ≤ max_workers) × (length workers.old ≡ turns_at_once) × (length events.old ≡ turns_at_once) }
    ensures turns { NextTurns cut.now row.now v workers.new events.new }
{
    let n = row.len();
    let mut j: usize = 0;
    for w in v..n {
        let d = row[w];
        if d <= cut[w] {
            continue;
        }
        if j == TURNS {
            return;
        }
        workers[j] = w as u8;
        events[j] = d;
        j += 1;
    }
    if j < TURNS {
        workers[j] = n as u8;
    }
}

// Fills the row of a visit if it is stale.
fn refill(log: &[u8], i: usize, from: u32, event: u32, stale: bool, row: &mut [u32])
    requires { (log_refusal log.now ≡ 0) × (length row.old ≡ worker_count (workers_of log.now)) × (from ≤ event) × (event ≤ event_count (workers_of log.now) i)
        × (stale ≡ false → row.old ≡ named_row (workers_of log.now) i from event) }
    ensures row { row.new ≡ named_row (workers_of log.now) i from event }
{
    if stale {
        causality::row_into(log, i, from, event, row);
    }
}

// Where the rows of the visits below begin: behind the visit's own row, or at it where there is but one.
#[tactic(auto, using(std::proofs::lemmas::Bool::Decides::nat_tests), unfolding(crate::specs::Inner::Turns::rows_below))]
fn rows_below(lent: usize, n: usize) -> usize
    requires { n ≤ max_workers }
    ensures answer { result ≡ rows_below lent n }
{
    if lent < 2 * n { 0 } else { n }
}

// Whether a visit's row is stale after a visit below: it was, or that visit had the same row and made visits itself. `visits` and `after`
// are the visits before and after it.
#[tactic(auto, using(std::proofs::lemmas::Bool::Decides::nat_tests), unfolding(crate::specs::Inner::Turns::stale_after))]
fn stale_after(stale: bool, below: usize, visits: u64, after: u64) -> bool
    requires { visits < after }
    ensures answer { result ≡ stale_after stale below visits after }
{
    stale || below == 0 && after != visits + 1
}

// A visit to event `event` of worker i, whose first `from` events the cut covers. The stamps of the visited events fall. Its row is the
// first n words of `rows`, and it writes none where its events name nothing above the cut.
#[tactic(auto, using(accept::proofs::Accepted::accepted_layout, accept::proofs::Accepted::well_formed, crate::proofs::VisitCount::words_few))]
pub fn visit(
    log: &[u8],
    i: usize,
    from: u32,
    event: u32,
    cut: &mut [u32],
    rows: &mut [u32],
    visits: u64,
) -> u64
    requires { (log_refusal log.now ≡ 0) × (from ≤ event) × Visiting (workers_of log.now) i from event cut.old visits
        × (worker_count (workers_of log.now) ≤ length rows.old) }
    ensures found { record { cut = cut.exit.now; visits = result } ≡ visit_at (workers_of log.now) i event (record { cut = cut.entry.now; visits = visits }) }
    ensures kept { result ≡ visits + 1 → rows.new ≡ rows.old }
{
    let first = causality::first_lacking(log, cut, i, from, event);
    if first == event {
        return visits + 1;
    }
    let n = event_log::worker_count(log);
    let below = rows_below(rows.len(), n);
    let mut workers: [u8; TURNS] = [0; TURNS];
    let mut events: [u32; TURNS] = [0; TURNS];
    let mut total = visits + 1;
    let mut stale = true;
    let mut v: usize = 0;
    // A while: one pass moves v by more than one.
    while v < n {
        refill(log, i, first, event, stale, &mut rows[..n]);
        next_turns(cut, &rows[..n], v, &mut workers, &mut events);
        stale = false;
        for j in 0..TURNS {
            let w = workers[j] as usize;
            if w == n {
                return total;
            }
            v = w + 1;
            let d = events[j];
            let old = cut[w];
            if d <= old {
                continue;
            }
            cut[w] = d;
            let after = visit(log, w, old, d, cut, &mut rows[below..], total);
            stale = stale_after(stale, below, total, after);
            total = after;
        }
    }
    total
}
