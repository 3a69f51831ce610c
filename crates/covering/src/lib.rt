// The test whether the checkpoints with an identifier are a covering set.
#![tactic(auto)]

ghost use Rattle.std.specs.Prelude.{◌≡◌, false, ◌++◌, ◌<◌, ◌≤◌, length, drop};
ghost use Rattle.ranges.specs.Fold.{any_below};
ghost use Rattle.lent.specs.Lent.{or_else, word_of};
ghost use Rattle.event_log.specs.Layout.{workers_of, log_of};
ghost use Rattle.event_log.specs.Model.{worker_count, event_count};
ghost use Rattle.accept.specs.Refusal.{log_refusal};
ghost use Rattle.causality.specs.Calls.{yes_unless};
ghost use Rattle.choice.specs.Choice.{lost_at, worker_lost, is_startable};
ghost use Rattle.covering.specs.Covering.{is_set, cut_of_all, without_set, set_starts, covering_set, CoversWhenStartable};
ghost use Rattle.covering.specs.Withdrawn.{CoversNoneWithdrawn};

use causality::Test;
use choice::{loses_send, may_choose};

// Whether checkpoint c of worker w may be chosen and has this identifier.
fn is_set(log: &[u8], identifier: u32, w: usize, c: u32) -> bool
    requires { log_refusal log.now ≡ 0 }
    ensures answer { result ≡ is_set (workers_of log.now) identifier w c }
{
    may_choose(log, w, c) && event_log::checkpoint_at(log, w, c).identifier == identifier
}

// Whether some worker has no checkpoint with this identifier. Where each has one, its index is in a word for each worker.
fn some_without_set(log: &[u8], identifier: u32, indices: &mut [u32]) -> bool
    requires { (log_refusal log.now ≡ 0) × (worker_count (workers_of log.now) ≤ length indices.old) }
    ensures answer { result ≡ any_below (without_set (workers_of log.now) identifier) (worker_count (workers_of log.now)) }
    ensures indices { result ≡ false → indices.new
        ≡ set_starts (workers_of log.now) identifier ++ drop (worker_count (workers_of log.now)) indices.old }
{
    let n = event_log::worker_count(log);
    for w in 0..n {
        let end = event_log::checkpoint_count(log, w) + 1;
        let Some(c) = (0..end).find(|c| is_set(log, identifier, w, *c)) else {
            return true;
        };
        indices[w] = event_log::checkpoint_at(log, w, c).index;
    }
    false
}

// Whether event k + 1 of worker w is after its worker's start and loses its send.
fn is_lost(log: &[u8], starts: &[u32], w: usize, k: u32) -> bool
    requires { (log_refusal log.now ≡ 0) × (worker_count (workers_of log.now) ≤ length starts.now)
        × (k < event_count (workers_of log.now) w) }
    ensures answer { result ≡ lost_at (workers_of log.now) starts.now w k }
{
    let x = k + 1;
    if x <= starts[w] {
        return false;
    }
    let e = event_log::event_at(log, w, x);
    loses_send(e, starts[e.peer as usize])
}

// Whether worker w has an event after its start that loses its send.
fn worker_lost(log: &[u8], starts: &[u32], w: usize) -> bool
    requires { (log_refusal log.now ≡ 0) × (worker_count (workers_of log.now) ≤ length starts.now) }
    ensures answer { result ≡ worker_lost (workers_of log.now) (cut_of_all (workers_of log.now)) starts.now w }
{
    let count = event_log::event_count(log, w);
    (0..count).any(|k| is_lost(log, starts, w, k))
}

// Whether the starts are startable for the cut of all events.
fn is_startable(log: &[u8], starts: &[u32]) -> bool
    requires { (log_refusal log.now ≡ 0) × (worker_count (workers_of log.now) ≤ length starts.now) }
    ensures answer { result ≡ is_startable (workers_of log.now) (cut_of_all (workers_of log.now)) starts.now }
{
    let n = event_log::worker_count(log);
    !(0..n).any(|w| worker_lost(log, starts, w))
}

// Whether the checkpoints with this identifier are a covering set.
fn is_covering(log: &[u8], identifier: u32) -> bool
    requires { log_refusal log.now ≡ 0 }
    ensures answer { result ≡ covering_set (workers_of log.now) identifier }
{
    let mut indices = [0u32; event_log::MAX_WORKERS];
    !some_without_set(log, identifier, &mut indices) && is_startable(log, &indices)
}

// Whether the checkpoints with this identifier are a covering set; the identifier 0 means the initial states. `others` is the refusal of
// what else the caller was lent.
pub fn covers(log: &[u8], identifier: u32, others: u32) -> Test
    ensures refused { result.refusal ≡ or_else (log_refusal log.now) others }
    ensures answer { result.yes ≡ yes_unless result.refusal (covering_set (workers_of log.now) identifier) }
    ensures exactly { result.refusal ≡ 0 → CoversWhenStartable (workers_of log.now) identifier (word_of result.yes) }
    ensures withdrawn { result.refusal ≡ 0 → CoversNoneWithdrawn (log_of log.now) identifier (word_of result.yes) }
{
    let refusal = lent::or_else(accept::accept(log), others);
    if refusal != 0 {
        return Test {
            refusal,
            yes: false,
        };
    }
    Test {
        refusal: 0,
        yes: is_covering(log, identifier),
    }
}
