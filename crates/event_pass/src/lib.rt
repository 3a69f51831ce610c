// One pass over the events of a log for any fault of the tests 7 to 10.
#![tactic(auto)]

ghost use Rattle.std.specs.Prelude.{◌≡◌, true, false, ℕ, ◌+◌, ◌<◌, ◌≤◌, min, length, MatchOption};
ghost use Rattle.ranges.specs.Fold.{any_below, max_below};
ghost use Rattle.lent.specs.Lent.{at};
ghost use Rattle.event_log.specs.Header.{layout_refusal};
ghost use Rattle.event_log.specs.Limits.{max_events};
ghost use Rattle.event_log.specs.Model.{worker_count, event_count};
ghost use Rattle.event_log.specs.Layout.{workers_of};
ghost use Rattle.record_tests.specs.Records.{record_fault, some_record};
ghost use Rattle.event_pass.specs.Inner.Message.{names, own_fault, naming_fault};
ghost use Rattle.event_pass.specs.Inner.Blocks.{block_size, fault_within, some_within, listed_fault, NamesAnother, Lists};

use records::Event;

// 1 for an event that names another, else 0.
fn names(e: Event) -> u32
    ensures answer { result ≡ names e }
    ensures few { result ≤ 1 }
{
    u32::from(e.send != 0)
}

// Whether an event of worker w fails a test that looks at no event but the one before it, whose stamp is `before`. Of the
// kind it asks only whether an event that names none is a send; `naming_fault` asks whether one that names another is a receive. So each part of
// the compiled pass has one comparison with the event's kind byte.
fn own_fault(log: &[u8], w: usize, before: u32, e: Event) -> bool
    requires { layout_refusal log.now ≡ 0 }
    ensures answer { result ≡ own_fault (workers_of log.now) w before e }
{
    e.spare != 0
        || record_tests::peer_fault(log, w, e)
        || e.stamp <= before
        || (e.send == 0 && !records::is_send(e))
}

// Whether an event of worker w that names another is no receive, or names one that is no send, none to w, or none before it: what
// `own_fault` leaves of test 7, and tests 9 and 10.
fn naming_fault(log: &[u8], w: usize, e: Event) -> bool
    requires { (layout_refusal log.now ≡ 0) × (e.peer < worker_count (workers_of log.now)) }
    ensures answer { result ≡ naming_fault (workers_of log.now) w e }
{
    if !records::is_receive(e) {
        return true;
    }
    let send = event_log::worker_event(log, e.peer as usize, e.send);
    !records::is_send(send) || send.peer as usize != w || e.stamp <= send.stamp
}

// The events of each worker that the pass for any fault takes in turn. What a receive names was sent shortly before it, in a block that was
// just read.
const BLOCK: u32 = 128;

// Where the block of events from `first` on ends, of `count` events.
fn block_end(first: u32, count: u32) -> u32
    requires { first ≤ max_events }
    ensures answer { result ≡ min (first + block_size) count }
{
    (first + BLOCK).min(count)
}

// Lists those of the events after the first `first` and up to `end` of worker w that name another: the receives, where there is no fault. The
// answer is how many they are, or none where one of these events fails a test of its own.
// Kinds are random in a run, so there is no branch on the kind: each event is written where the next one that is listed has its place.
fn list_naming(
    log: &[u8],
    w: usize,
    first: u32,
    end: u32,
    list: &mut [u32; BLOCK as usize],
) -> Option<usize>
    requires { (layout_refusal log.now ≡ 0) × (first ≤ end) × (end ≤ event_count (workers_of log.now) w) × (end ≤ first + block_size) × (length list.old ≡ block_size) }
    ensures answer { MatchOption result (any_below (record_fault 0 (workers_of log.now) w) end ≡ true)
        (λ count. Lists (workers_of log.now) w first end list.new count) }
{
    let start = event_log::event_start(log, w);
    let events = event_log::event_count(log, w) as usize;
    let mut before = event_log::event_at(log, w, first).stamp;
    let mut count: usize = 0;
    for k in first..end {
        let e = event_log::event_in(log, start, events, k as usize);
        if own_fault(log, w, before, e) {
            return None;
        }
        list[count] = k;
        count += names(e) as usize;
        before = e.stamp;
    }
    Some(count)
}

// Whether one of the first `count` listed events of worker w is no receive, or fails test 9 or 10.
fn listed_fault(log: &[u8], w: usize, list: &[u32; BLOCK as usize], count: usize) -> bool
    requires { (layout_refusal log.now ≡ 0) × (count ≤ block_size) × ((j : ℕ) → j < count → NamesAnother (workers_of log.now) w (at list.now j)) }
    ensures answer { result ≡ any_below (listed_fault (workers_of log.now) w list.now) count }
{
    let start = event_log::event_start(log, w);
    let events = event_log::event_count(log, w) as usize;
    // No `any`: with it the compiled pass is slower.
    for j in 0..count {
        let e = event_log::event_in(log, start, events, list[j] as usize);
        if naming_fault(log, w, e) {
            return true;
        }
    }
    false
}

// Whether an event of worker w, up to the end of the block from `first` on, fails one of the tests 7 to 10. None before `first` does.
fn events_fault(log: &[u8], w: usize, first: u32) -> bool
    requires { (layout_refusal log.now ≡ 0) × (first ≤ max_events) × (fault_within first (workers_of log.now) w ≡ false) }
    ensures answer { result ≡ fault_within (first + block_size) (workers_of log.now) w }
{
    let count = event_log::event_count(log, w);
    if count <= first {
        return false;
    }
    let mut list = [0u32; BLOCK as usize];
    match list_naming(log, w, first, block_end(first, count), &mut list) {
        Some(listed) => listed_fault(log, w, &list, listed),
        None => true,
    }
}

// Whether an event of some worker, up to the end of its block from `first` on, fails one of the tests 7 to 10. None before `first` does.
fn block_fault(log: &[u8], first: u32) -> bool
    requires { (layout_refusal log.now ≡ 0) × (first ≤ max_events) × (some_within first (workers_of log.now) ≡ false) }
    ensures answer { result ≡ some_within (first + block_size) (workers_of log.now) }
{
    let n = event_log::worker_count(log);
    (0..n).any(|w| events_fault(log, w, first))
}

// The largest event count of a worker.
fn most_events(log: &[u8]) -> u32
    requires { layout_refusal log.now ≡ 0 }
    ensures answer { result ≡ max_below (event_count (workers_of log.now)) (worker_count (workers_of log.now)) }
    ensures few { result ≤ max_events }
{
    let n = event_log::worker_count(log);
    let mut most: u32 = 0;
    for w in 0..n {
        most = most.max(event_log::event_count(log, w));
    }
    most
}

// Whether some event of the log fails one of the tests 7 to 10, in one pass.
pub fn some_event(log: &[u8]) -> bool
    requires { layout_refusal log.now ≡ 0 }
    ensures answer { result ≡ some_record 0 (workers_of log.now) }
{
    let most = most_events(log);
    for first in (0..most).step_by(BLOCK as usize) {
        if block_fault(log, first) {
            return true;
        }
    }
    false
}
