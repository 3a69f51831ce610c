// Test 24: whether a log of form 2 has two receives of one send. Where the receives of each worker name rising sends of each peer, one pass says that there are
// none; else the receives are gone through with a table of bits, one for each event that may be a send.
#![tactic(auto)]

ghost use Rattle.std.specs.Prelude.{◌≡◌, false, ◌⊎◌, ◌+◌, ◌*◌, ◌<◌, ◌≤◌, eqb, length};
ghost use Rattle.event_log.specs.Header.{layout_refusal};
ghost use Rattle.event_log.specs.Model.{worker_count};
ghost use Rattle.records.specs.Event.{received};
ghost use Rattle.event_log.specs.Layout.{workers_of, log_of};
ghost use Rattle.repeats.specs.Repeats.{repeat_fault};
ghost use Rattle.repeats.specs.Inner.Again.{Messages, worker_again, some_again};
ghost use Rattle.repeats.specs.Inner.Table.{word_bits, few_words, many_words, table_bits, bit_at, marked, all_events, place_of};
ghost use Rattle.repeats.specs.Inner.Table.{table_after, found_marked, Numbered, Marks, worker_again_within, some_again_within};

use records::Event;

// The number before the send that an event names. Where it names none this wraps to one above every index: one comparison then serves every
// kind, with no branch.
fn before_send(e: Event) -> u32
    ensures answer { 0 < e.send → result + 1 ≡ e.send }
{
    e.send.wrapping_sub(1)
}

// Whether a receive of worker w names no later send of its peer than a receive before it: only such a one may name a send again.
fn worker_falls(log: &[u8], w: usize) -> bool
    requires { (layout_refusal log.now ≡ 0) × Messages (workers_of log.now) }
    ensures rises { result ≡ false → worker_again (workers_of log.now) w ≡ false }
{
    let start = event_log::event_start(log, w);
    let events = event_log::event_count(log, w) as usize;
    let mut row = [0u32; event_log::MAX_WORKERS];
    for k in 0..events {
        let e = event_log::event_in(log, start, events, k);
        let peer = e.peer as usize;
        let last = row[peer];
        if before_send(e) < last {
            return true;
        }
        row[peer] = last.max(e.send);
    }
    false
}

// Whether some worker has a receive that names a send not above the last one of its peer.
fn some_falls(log: &[u8]) -> bool
    requires { (layout_refusal log.now ≡ 0) × Messages (workers_of log.now) }
    ensures rises { result ≡ false → some_again (workers_of log.now) ≡ false }
{
    let n = event_log::worker_count(log);
    (0..n).any(|w| worker_falls(log, w))
}

// The bits of a word of a table.
const WORD_BITS: usize = 32;

// Marks a bit of a table where `received` is 1; whether it was marked before.
fn mark(table: &mut [u32], place: usize, received: u32) -> bool
    requires { (place < table_bits table.old) × (received ≤ 1) }
    ensures answer { result ≡ eqb (bit_at table.old place + received) 2 }
    ensures table { table.new ≡ marked table.old place received }
{
    let at = place / WORD_BITS;
    let bit = place % WORD_BITS;
    let word = table[at];
    table[at] = word | (received << bit);
    (word >> bit) % 2 + received == 2
}

// The events of all workers are numbered one after the other: the first number of each worker, and how many events there are.
fn number_events(log: &[u8], firsts: &mut [u32]) -> usize
    requires { (layout_refusal log.now ≡ 0) × (worker_count (workers_of log.now) ≤ length firsts.old) }
    ensures firsts { Numbered (workers_of log.now) firsts.new }
    ensures events { result ≡ all_events (workers_of log.now) }
{
    let n = event_log::worker_count(log);
    let mut next: u32 = 0;
    for w in 0..n {
        firsts[w] = next;
        next += event_log::event_count(log, w);
    }
    next as usize
}

// The number of the event that a receive names; of a send, the first number of its peer.
fn place_of(log: &[u8], firsts: &[u32], e: Event) -> usize
    requires { Numbered (workers_of log.now) firsts.now × (e.peer < worker_count (workers_of log.now)) × (received e ≤ e.send) }
    ensures answer { result ≡ place_of (workers_of log.now) e }
{
    let peer = e.peer as usize;
    firsts[peer] as usize + (e.send - records::received(e)) as usize
}

// Marks what an event receives, where the table, whose bits are those from number `low` on, has a bit for it; whether that was marked before.
fn mark_event(log: &[u8], firsts: &[u32], low: usize, e: Event, table: &mut [u32]) -> bool
    requires { Numbered (workers_of log.now) firsts.now × (e.peer < worker_count (workers_of log.now)) × (received e ≤ e.send) × (length table.old ≤ many_words) }
    ensures answer { result ≡ found_marked (workers_of log.now) low e table.old }
    ensures table { table.new ≡ table_after (workers_of log.now) low e table.old }
{
    let place = place_of(log, firsts, e);
    if place < low || WORD_BITS * table.len() <= place - low {
        return false;
    }
    mark(table, place - low, records::received(e))
}

// Marks what the events of worker w receive, up to one that receives what was marked before; whether there is one.
fn mark_worker(log: &[u8], w: usize, firsts: &[u32], low: usize, table: &mut [u32]) -> bool
    requires { (layout_refusal log.now ≡ 0) × Messages (workers_of log.now) × Numbered (workers_of log.now) firsts.now
        × Marks (workers_of log.now) low w 0 table.old × (length table.old ≤ many_words) }
    ensures answer { result ≡ worker_again_within (workers_of log.now) low (low + table_bits table.old) w }
    ensures marks { result ≡ false → Marks (workers_of log.now) low (w + 1) 0 table.new }
{
    let start = event_log::event_start(log, w);
    let events = event_log::event_count(log, w) as usize;
    for k in 0..events {
        let e = event_log::event_in(log, start, events, k);
        if mark_event(log, firsts, low, e, table) {
            return true;
        }
    }
    false
}

// Marks what the events of all workers receive, in a table with no bit marked; whether some event receives what was marked before.
fn mark_all(log: &[u8], firsts: &[u32], low: usize, table: &mut [u32]) -> bool
    requires { (layout_refusal log.now ≡ 0) × Messages (workers_of log.now) × Numbered (workers_of log.now) firsts.now
        × Marks (workers_of log.now) low 0 0 table.old × (length table.old ≤ many_words) }
    ensures answer { result ≡ some_again_within (workers_of log.now) low (low + table_bits table.old) }
{
    let n = event_log::worker_count(log);
    for w in 0..n {
        if mark_worker(log, w, firsts, low, table) {
            return true;
        }
    }
    false
}

// The words of the two tables: 1 KiB, since an array is cleared whole, and 64 KiB, which have a bit for each event of a log whose sections
// share nothing.
const FEW_WORDS: usize = 256;

const MANY_WORDS: usize = 16384;

// Whether a send is received twice, of those that have a bit in a table of WORDS words from number `low` on. The compiler makes it no part of its
// callers, so a log that needs no large table does not have it in its frames.
#[inline(never)]
fn repeat_within<const WORDS: usize>(log: &[u8], firsts: &[u32], low: usize) -> bool
    requires { (layout_refusal log.now ≡ 0) × Messages (workers_of log.now) × Numbered (workers_of log.now) firsts.now
        × ((WORDS ≡ few_words) ⊎ (WORDS ≡ many_words)) }
    ensures answer { result ≡ some_again_within (workers_of log.now) low (low + word_bits * WORDS) }
{
    let mut table = [0u32; WORDS];
    mark_all(log, firsts, low, &mut table)
}

// Test 24: whether the log is of the form in which a send is received at most once, and has two receives of one send. Where the large table has
// no bit for all events, they are taken in groups. The compiler makes this no part of its callers, so the pass for 7 to 10 keeps its registers.
#[inline(never)]
pub fn repeat_fault(log: &[u8]) -> bool
    requires { (layout_refusal log.now ≡ 0) × Messages (workers_of log.now) }
    ensures answer { result ≡ repeat_fault (log_of log.now) }
{
    if !event_log::receives_once(log) || !some_falls(log) {
        return false;
    }
    let mut firsts = [0u32; event_log::MAX_WORKERS];
    let events = number_events(log, &mut firsts);
    if events <= WORD_BITS * FEW_WORDS {
        return repeat_within::<FEW_WORDS>(log, &firsts, 0);
    }
    for low in (0..events).step_by(WORD_BITS * MANY_WORDS) {
        if repeat_within::<MANY_WORDS>(log, &firsts, low) {
            return true;
        }
    }
    false
}
