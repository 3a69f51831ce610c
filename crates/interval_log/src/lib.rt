// The interval log of an accepted log, written as a packed log is.
#![tactic(auto, using(accept::proofs::Accepted::accepted_layout))]

ghost use Rattle.std.specs.Prelude.{◌≡◌, ◌+◌, ◌-◌, ◌*◌, ◌≤◌, ◌++◌, length, take};
ghost use Rattle.ranges.specs.Fold.{join_below};
ghost use Rattle.lent.specs.Lent.{onto, unless_refused};
ghost use Rattle.lent.specs.Inner.Overwrite.{overwrite};
ghost use Rattle.bytes_le.specs.Little.{bytes_of};
ghost use Rattle.event_log.specs.Limits.{max_length};
ghost use Rattle.event_log.specs.Layout.{header_of, workers_of};
ghost use Rattle.event_log.specs.Model.{worker_count, event_count, checkpoint_count};
ghost use Rattle.accept.specs.Refusal.{given};
ghost use Rattle.pack.specs.Packed.{event_bytes, event_at, checkpoint_at, sections_of, sections_size, entry_of, packed_length, packed};
ghost use Rattle.pack.specs.Calls.{pack_answer};
ghost use Rattle.intervals.specs.Interval.{index, interval_at, interval_workers, interval_log};
ghost use Rattle.interval_refusals.specs.Calls.{intervals_refusal};
ghost use Rattle.intervals.specs.Converted.{Converted};
ghost use Rattle.interval_blocks.specs.Inner.Blocks.{most_bits, first_block};
ghost use Rattle.interval_log.specs.Inner.Space.{table_places, naming, NamesEvent, Space};

use interval_blocks::{AcceptedTable, IntervalTable};
use intervals::{EventIndex, IntervalNumber};
use pack::Packed;
use records::Event;

// Writes a receive to 12 bytes, from place `at` on, with the interval that it names in place of the send.
fn write_receive(e: Event, number: IntervalNumber, out: &mut [u8], at: usize)
    requires { at + 12 ≤ length out.old }
    ensures out { out.new ≡ overwrite at (event_bytes (naming e number)) out.old }
{
    bytes_le::write::<1>(out, at, u32::from(records::kind_number(e.kind)));
    bytes_le::write::<1>(out, at + 1, u32::from(e.peer));
    bytes_le::write::<2>(out, at + 2, e.spare);
    bytes_le::write::<4>(out, at + 4, number.0);
    bytes_le::write::<4>(out, at + 8, e.stamp);
}

// Writes a checkpoint that is not withdrawn to 8 bytes, from place `at` on.
fn write_checkpoint(number: IntervalNumber, identifier: u32, out: &mut [u8], at: usize)
    requires { at + 8 ≤ length out.old }
    ensures out { out.new ≡ overwrite at (bytes_of 4 number.0 ++ bytes_of 4 identifier) out.old }
{
    bytes_le::write::<4>(out, at, number.0);
    bytes_le::write::<4>(out, at + 4, identifier);
}

// The interval that a receive names: that of its sender before the send.
fn named_interval(table: &IntervalTable, e: Event) -> IntervalNumber
    requires { NamesEvent (workers_of table.now.log.now) e }
    ensures answer { result ≡ interval_at (workers_of table.now.log.now) e.peer (index (e.send - 1)) }
{
    let before = EventIndex(e.send - 1);
    table.interval_of(e.peer as usize, before)
}

// Writes the receives of worker w from place `at` on. Returns where they end.
fn write_events(table: &AcceptedTable, w: usize, out: &mut [u8], at: usize) -> usize
    requires { at + 12 * event_count (interval_workers (workers_of table.now.intervals.log.now)) w ≤ length out.old }
    ensures answer { result ≡ at + 12 * event_count (interval_workers (workers_of table.now.intervals.log.now)) w }
    ensures out { out.new ≡ overwrite at (join_below (event_at (interval_workers (workers_of table.now.intervals.log.now)) w)
        (event_count (interval_workers (workers_of table.now.intervals.log.now)) w)) out.old }
{
    let log = table.intervals.log;
    let start = event_log::event_start(log, w);
    let events = event_log::event_count(log, w) as usize;
    let mut place = at;
    for k in 0..events {
        let e = event_log::event_in(log, start, events, k);
        if !records::is_receive(e) {
            continue;
        }
        let number = named_interval(&table.intervals, e);
        write_receive(e, number, out, place);
        place += records::EVENT_SIZE;
    }
    place
}

// Writes the checkpoints of worker w that are not withdrawn from place `at` on. Returns where they end.
fn write_checkpoints(table: &AcceptedTable, w: usize, out: &mut [u8], at: usize) -> usize
    requires { at + 8 * checkpoint_count (interval_workers (workers_of table.now.intervals.log.now)) w ≤ length out.old }
    ensures answer { result ≡ at + 8 * checkpoint_count (interval_workers (workers_of table.now.intervals.log.now)) w }
    ensures out { out.new ≡ overwrite at (join_below (checkpoint_at (interval_workers (workers_of table.now.intervals.log.now)) w)
        (checkpoint_count (interval_workers (workers_of table.now.intervals.log.now)) w)) out.old }
{
    let log = table.intervals.log;
    let count = event_log::checkpoint_count(log, w);
    let mut place = at;
    for k in 0..count {
        let checkpoint = event_log::checkpoint_at(log, w, k + 1);
        if checkpoint.withdrawn {
            continue;
        }
        let index = EventIndex(checkpoint.index);
        let number = table.intervals.interval_of(w, index);
        write_checkpoint(number, checkpoint.identifier, out, place);
        place += records::CHECKPOINT_SIZE;
    }
    place
}

// Writes the sections of worker w from place `at` on. Returns where they end.
fn write_worker(table: &AcceptedTable, w: usize, out: &mut [u8], at: usize) -> usize
    requires { at + sections_size (interval_workers (workers_of table.now.intervals.log.now)) w ≤ length out.old }
    ensures answer { result ≡ at + sections_size (interval_workers (workers_of table.now.intervals.log.now)) w }
    ensures out { out.new ≡ overwrite at (sections_of (interval_workers (workers_of table.now.intervals.log.now)) w) out.old }
{
    let behind = write_events(table, w, out, at);
    write_checkpoints(table, w, out, behind)
}

// Writes the sections of each worker.
#[tactic(auto, using(crate::proofs::Kept::entry_laws))]
fn write_sections(table: &AcceptedTable, out: &mut [u8])
    requires { packed_length (interval_workers (workers_of table.now.intervals.log.now)) ≤ length out.old }
    ensures out { out.new ≡ overwrite (header_of (worker_count (workers_of table.now.intervals.log.now)))
        (join_below (sections_of (interval_workers (workers_of table.now.intervals.log.now)))
        (worker_count (workers_of table.now.intervals.log.now))) out.old }
{
    let n = event_log::worker_count(table.intervals.log);
    let mut at = event_log::header_of(n as u32);
    for w in 0..n {
        at = write_worker(table, w, out, at);
    }
}

// Writes the entry of each worker.
#[tactic(auto, using(crate::proofs::Kept::entry_laws), unfolding(pack::specs::Packed::sections_size, pack::specs::Packed::entry_of, pack::specs::Packed::numbers_of))]
fn write_entries(table: &AcceptedTable, out: &mut [u8])
    requires { (packed_length (interval_workers (workers_of table.now.intervals.log.now)) ≤ max_length)
        × (packed_length (interval_workers (workers_of table.now.intervals.log.now)) ≤ length out.old) }
    ensures out { out.new ≡ overwrite (header_of 0)
        (join_below (entry_of (interval_workers (workers_of table.now.intervals.log.now)))
        (worker_count (workers_of table.now.intervals.log.now))) out.old }
{
    let log = table.intervals.log;
    let n = event_log::worker_count(log);
    let mut start = event_log::header_of(n as u32);
    for w in 0..n {
        let last = EventIndex(event_log::event_count(log, w));
        let receives = table.intervals.interval_of(w, last);
        let kept = interval_refusals::kept_count(log, w);
        pack::write_entry(w, start, receives.0, kept, event_log::role_of(log, w), out);
        start += records::EVENT_SIZE * (receives.0 as usize)
            + records::CHECKPOINT_SIZE * (kept as usize);
    }
}

// The places of the table of intervals.
const PLACES: usize = 32768;

// Writes the interval log, whose length is `size`, with a table of the intervals at every 2^b-th event.
fn write_with(log: &[u8], b: u32, size: usize, out: &mut [u8])
    requires { Space log.now size (length out.old) × (b ≤ most_bits) × (first_block (workers_of log.now) b (worker_count (workers_of log.now)) ≤ table_places) }
    ensures out { out.new ≡ onto (packed (interval_log (workers_of log.now))) out.old }
{
    let mut firsts = [0u32; event_log::MAX_WORKERS];
    let mut places = [0u16; PLACES];
    let table = AcceptedTable::new(log, b, &mut firsts, &mut places);
    pack::write_fields(records::THIRD_FORM, event_log::worker_count(log), size, out);
    write_entries(&table, out);
    write_sections(&table, out);
}

// Writes the interval log, whose length is `size`, with the smallest blocks that the table has places for. It is not made a part of its
// caller: so the table does not lie in the frames of the tests of the log.
#[inline(never)]
fn write_packed(log: &[u8], size: usize, out: &mut [u8])
    requires { Space log.now size (length out.old) }
    ensures out { out.new ≡ onto (packed (interval_log (workers_of log.now))) out.old }
{
    let mut b: u32 = 0;
    // A while: a find over 0..16 becomes code with a copy of the count for each b.
    while PLACES < interval_blocks::all_blocks(log, b) {
        b += 1;
    }
    write_with(log, b, size, out);
}

// Writes the interval log into the bytes lent, or refuses; `others` is the refusal of what else the caller was lent.
pub fn intervals(log: &[u8], others: u32, out: &mut [u8]) -> Packed
    ensures refused { result.refusal ≡ intervals_refusal (given log.now) (length out.old) others }
    ensures answer { result ≡ pack_answer result.refusal (interval_workers (workers_of log.now)) }
    ensures out { out.new ≡ unless_refused result.refusal (packed (interval_log (workers_of log.now))) out.old }
    ensures converted { result.refusal ≡ 0 → Converted log.now (take result.written out.new) }
{
    let judged = interval_refusals::judge(log, out.len(), others);
    if judged.refusal != 0 {
        return judged;
    }
    write_packed(log, judged.written as usize, out);
    judged
}
