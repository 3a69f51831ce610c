// The tests 7 to 11 of a log's records.
#![tactic(auto)]

ghost use Rattle.std.specs.Prelude.{◌≡◌, ◌<◌};
ghost use Rattle.event_log.specs.Header.{layout_refusal};
ghost use Rattle.event_log.specs.Layout.{workers_of};
ghost use Rattle.record_tests.specs.Records.{kind_fault, peer_fault, send_fault, field_fault, stamp_fault, send_of, source_fault, order_fault};
ghost use Rattle.record_tests.specs.Records.{checkpoint_fault, record_fault, record_count, worker_fault, some_record, test_number};

use records::{Checkpoint, Event};

// The tests 7 to 11, in this order: four look at the events, the last one at the checkpoints.
#[derive(Clone, Copy)]
pub enum RecordTest {
    Fields,
    Stamps,
    Sources,
    Orders,
    Checkpoints,
}

// Whether the kind is none of the three.
fn kind_fault(e: Event) -> bool
    ensures answer { result ≡ kind_fault e }
{
    !(records::is_send(e) || records::is_receive(e))
}

// Whether the peer of an event of worker w is w or no worker.
pub fn peer_fault(log: &[u8], w: usize, e: Event) -> bool
    requires { layout_refusal log.now ≡ 0 }
    ensures answer { result ≡ peer_fault (workers_of log.now) w e }
{
    let peer = e.peer as usize;
    peer == w || event_log::worker_count(log) <= peer
}

// Whether the peer event is not 0 for a send, or no event of the peer for a receive.
fn send_fault(log: &[u8], e: Event) -> bool
    requires { layout_refusal log.now ≡ 0 }
    ensures answer { result ≡ send_fault (workers_of log.now) e }
{
    if records::is_send(e) {
        e.send != 0
    } else {
        e.send == 0 || event_log::event_count(log, e.peer as usize) < e.send
    }
}

// Test 7 on an event of worker w.
fn field_fault(log: &[u8], w: usize, e: Event) -> bool
    requires { layout_refusal log.now ≡ 0 }
    ensures answer { result ≡ field_fault (workers_of log.now) w e }
{
    e.spare != 0 || kind_fault(e) || peer_fault(log, w, e) || send_fault(log, e)
}

// Test 8 on event k + 1 of worker w, which is e.
fn stamp_fault(log: &[u8], w: usize, k: u32, e: Event) -> bool
    requires { layout_refusal log.now ≡ 0 }
    ensures answer { result ≡ stamp_fault (workers_of log.now) w k e }
{
    let before = event_log::event_at(log, w, k);
    e.stamp <= before.stamp
}

// The event that a receive names.
fn send_of(log: &[u8], e: Event) -> Event
    requires { layout_refusal log.now ≡ 0 }
    ensures answer { result ≡ send_of (workers_of log.now) e }
{
    event_log::event_at(log, e.peer as usize, e.send)
}

// Test 9 on an event of worker w.
fn source_fault(log: &[u8], w: usize, e: Event) -> bool
    requires { layout_refusal log.now ≡ 0 }
    ensures answer { result ≡ source_fault (workers_of log.now) w e }
{
    if !records::is_receive(e) {
        return false;
    }
    let source = send_of(log, e);
    !records::is_send(source) || source.peer as usize != w
}

// Test 10 on an event.
fn order_fault(log: &[u8], e: Event) -> bool
    requires { layout_refusal log.now ≡ 0 }
    ensures answer { result ≡ order_fault (workers_of log.now) e }
{
    records::is_receive(e) && e.stamp <= send_of(log, e).stamp
}

// Test 11 on a checkpoint of worker w and the one before it.
fn checkpoint_fault(log: &[u8], w: usize, before: Checkpoint, c: Checkpoint) -> bool
    requires { layout_refusal log.now ≡ 0 }
    ensures answer { result ≡ checkpoint_fault (workers_of log.now) w before c }
{
    event_log::event_count(log, w) < c.index
        || c.index < before.index
        || c.identifier <= before.identifier
}

// The number of records of worker w that a test looks at.
fn record_count(log: &[u8], test: RecordTest, w: usize) -> u32
    requires { layout_refusal log.now ≡ 0 }
    ensures answer { result ≡ record_count (test_number test) (workers_of log.now) w }
{
    match test {
        RecordTest::Checkpoints => event_log::checkpoint_count(log, w),
        _ => event_log::event_count(log, w),
    }
}

// A test on record k of worker w: event k + 1, or checkpoint k + 1.
fn record_fault(log: &[u8], test: RecordTest, w: usize, k: u32) -> bool
    requires { (layout_refusal log.now ≡ 0) × (k < record_count (test_number test) (workers_of log.now) w) }
    ensures answer { result ≡ record_fault (test_number test) (workers_of log.now) w k }
{
    let next = k + 1;
    match test {
        RecordTest::Fields => field_fault(log, w, event_log::event_at(log, w, next)),
        RecordTest::Stamps => stamp_fault(log, w, k, event_log::event_at(log, w, next)),
        RecordTest::Sources => source_fault(log, w, event_log::event_at(log, w, next)),
        RecordTest::Orders => order_fault(log, event_log::event_at(log, w, next)),
        RecordTest::Checkpoints => {
            let before = event_log::checkpoint_at(log, w, k);
            checkpoint_fault(log, w, before, event_log::checkpoint_at(log, w, next))
        },
    }
}

// Whether some record of worker w has the fault of this test.
fn worker_fault(log: &[u8], test: RecordTest, w: usize) -> bool
    requires { layout_refusal log.now ≡ 0 }
    ensures answer { result ≡ worker_fault (test_number test) (workers_of log.now) w }
{
    let count = record_count(log, test, w);
    (0..count).any(|k| record_fault(log, test, w, k))
}

// Whether some record of the log has the fault of this test.
pub fn some_record(log: &[u8], test: RecordTest) -> bool
    requires { layout_refusal log.now ≡ 0 }
    ensures answer { result ≡ some_record (test_number test) (workers_of log.now) }
{
    let n = event_log::worker_count(log);
    (0..n).any(|w| worker_fault(log, test, w))
}
