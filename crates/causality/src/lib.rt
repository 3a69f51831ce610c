// Dependency vectors and the cut test of a log.
#![tactic(auto, using(accept::proofs::Accepted::accepted_layout, crate::proofs::Peers::events_few, crate::proofs::Peers::peer_within))]

ghost use Rattle.std.specs.Prelude.{◌≡◌, false, [], ◌∷◌, ◌+◌, ◌<◌, ◌≤◌, length, take, replicate};
ghost use Rattle.ranges.specs.Fold.{any_below, first_from};
ghost use Rattle.lent.specs.Lent.{at, left, word_of};
ghost use Rattle.event_log.specs.Layout.{workers_of};
ghost use Rattle.event_log.specs.Model.{worker_count, event_count, event_of};
ghost use Rattle.accept.specs.Refusal.{log_refusal, given};
ghost use Rattle.causality.specs.Cut.{vector, lacks, worker_lacks, is_consistent};
ghost use Rattle.refusals.specs.Refusals.{over_count, test_refusal};
ghost use Rattle.causality.specs.Calls.{yes_unless, vector_call, TellsConsistent};
ghost use Rattle.causality.specs.Inner.Row.{noted, named_row};

// What a test returns.
#[derive(Clone, Copy)]
pub struct Test {
    pub refusal: u32,
    pub yes: bool,
}

// Notes event k + 1 of worker i: its peer's word is raised to the send that it names. A send names 0, which raises nothing.
fn note(log: &[u8], i: usize, k: u32, words: &mut [u32])
    requires { (log_refusal log.now ≡ 0) × (length words.old ≡ worker_count (workers_of log.now)) × (k < event_count (workers_of log.now) i) }
    ensures words { words.new ≡ noted (event_of (workers_of log.now) i (k + 1)) words.old }
{
    let e = event_log::event_at(log, i, k + 1);
    let word = &mut words[e.peer as usize];
    *word = (*word).max(e.send);
}

// Notes events from + 1 .. event of worker i in words that are 0.
fn note_all(log: &[u8], i: usize, from: u32, event: u32, words: &mut [u32])
    requires { (log_refusal log.now ≡ 0) × (words.old ≡ replicate (worker_count (workers_of log.now)) 0) × (from ≤ event) × (event ≤ event_count (workers_of log.now) i) }
    ensures words { words.new ≡ named_row (workers_of log.now) i from event }
{
    for k in from..event {
        note(log, i, k, words);
    }
}

// What events from + 1 .. event of worker i name of each worker, in as many words.
pub fn row_into(log: &[u8], i: usize, from: u32, event: u32, words: &mut [u32])
    requires { (log_refusal log.now ≡ 0) × (length words.old ≡ worker_count (workers_of log.now)) × (from ≤ event) × (event ≤ event_count (workers_of log.now) i) }
    ensures words { words.new ≡ named_row (workers_of log.now) i from event }
{
    words.fill(0);
    note_all(log, i, from, event, words);
}

// The dependency vector of an event, in as many words as there are workers.
fn vector_into(log: &[u8], i: usize, event: u32, words: &mut [u32])
    requires { (log_refusal log.now ≡ 0) × (length words.old ≡ worker_count (workers_of log.now)) × (i < worker_count (workers_of log.now)) × (event ≤ event_count (workers_of log.now) i) }
    ensures words { words.new ≡ vector (workers_of log.now) i event }
{
    row_into(log, i, 0, event, words);
    words[i] = event;
}

// The dependency vector of an event: its refusal, or 0 with the vector in the first n words.
pub fn vector(log: &[u8], worker: u32, event: u32, words: &mut [u32]) -> u32
    ensures left { left result (words.new ∷ []) ≡ vector_call (given log.now) worker event words.old }
{
    let refusal = refusals::line_refusal(log, worker, event, 1, words.len(), 0);
    if refusal != 0 {
        return refusal;
    }
    let n = event_log::worker_count(log);
    vector_into(log, worker as usize, event, &mut words[..n]);
    0
}

// Whether event k + 1 of worker w is a receive whose send is not within the cut. A send names 0, which is within every cut.
fn is_lacking(log: &[u8], cut: &[u32], w: usize, k: u32) -> bool
    requires { (log_refusal log.now ≡ 0) × (worker_count (workers_of log.now) ≤ length cut.now) × (k < event_count (workers_of log.now) w) }
    ensures answer { result ≡ lacks (workers_of log.now) cut.now w k }
{
    let e = event_log::event_at(log, w, k + 1);
    let peer = e.peer as usize;
    cut[peer] < e.send
}

// How many events of worker w stand before the first one, after its first `from`, whose send is not within the cut; `last` where there is
// none among the first `last`.
pub fn first_lacking(log: &[u8], cut: &[u32], w: usize, from: u32, last: u32) -> u32
    requires { (log_refusal log.now ≡ 0) × (worker_count (workers_of log.now) ≤ length cut.now) × (last ≤ event_count (workers_of log.now) w) }
    ensures answer { result ≡ first_from (lacks (workers_of log.now) cut.now w) from last }
{
    (from..last)
        .find(|&k| is_lacking(log, cut, w, k))
        .unwrap_or(last)
}

fn worker_lacks(log: &[u8], cut: &[u32], w: usize) -> bool
    requires { (log_refusal log.now ≡ 0) × (worker_count (workers_of log.now) ≤ length cut.now) × (w < worker_count (workers_of log.now))
        × (at cut.now w ≤ event_count (workers_of log.now) w) }
    ensures answer { result ≡ worker_lacks (workers_of log.now) cut.now w }
{
    let last = cut[w];
    first_lacking(log, cut, w, 0, last) < last
}

// Whether some receive within the cut has a send that is not.
fn some_lacks(log: &[u8], cut: &[u32]) -> bool
    requires { (log_refusal log.now ≡ 0) × (worker_count (workers_of log.now) ≤ length cut.now)
        × (any_below (over_count (workers_of log.now) cut.now) (worker_count (workers_of log.now)) ≡ false) }
    ensures answer { result ≡ any_below (worker_lacks (workers_of log.now) cut.now) (worker_count (workers_of log.now)) }
{
    let n = event_log::worker_count(log);
    (0..n).any(|w| worker_lacks(log, cut, w))
}

// Whether some word is over its worker's event count.
fn some_over_count(log: &[u8], words: &[u32]) -> bool
    requires { (log_refusal log.now ≡ 0) × (worker_count (workers_of log.now) ≤ length words.now) }
    ensures answer { result ≡ any_below (over_count (workers_of log.now) words.now) (worker_count (workers_of log.now)) }
{
    let n = event_log::worker_count(log);
    (0..n).any(|w| event_log::event_count(log, w) < words[w])
}

// The log's refusals, then 14 and 16, of the cut test.
fn test_refusal(log: &[u8], words: &[u32], others: u32) -> u32
    ensures answer { result ≡ test_refusal (given log.now) words.now (length words.now) others }
{
    let refusal = accept::accept(log);
    if refusal != 0 {
        return refusal;
    }
    let short = lent::or_else(
        lent::words_refusal(words.len(), event_log::worker_count(log)),
        others,
    );
    if short != 0 {
        return short;
    }
    if some_over_count(log, words) {
        return 16;
    }
    0
}

// The cut test: its refusal, or whether the first n words are a consistent cut. `others` is the refusal of what else the caller was lent.
pub fn cut_test(log: &[u8], words: &[u32], others: u32) -> Test
    ensures refused { result.refusal ≡ test_refusal (given log.now) words.now (length words.now) others }
    ensures answer { result.yes ≡ yes_unless result.refusal (is_consistent (workers_of log.now) (take (worker_count (workers_of log.now)) words.now)) }
    ensures exactly { result.refusal ≡ 0 → TellsConsistent (workers_of log.now) words.now (word_of result.yes) }
{
    let refusal = test_refusal(log, words, others);
    if refusal != 0 {
        return Test {
            refusal,
            yes: false,
        };
    }
    Test {
        refusal: 0,
        yes: !some_lacks(log, words),
    }
}
