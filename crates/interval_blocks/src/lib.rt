// The interval of a worker at any of its events, from a table of the intervals at every 2^b-th event: a count from the first event for each
// receive would take events times events.
#![tactic(auto, using(crate::proofs::BlockLaws::block_laws))]

ghost use Rattle.std.specs.Prelude.{◌≡◌, ◌+◌, ◌*◌, ◌^◌, ◌<◌, ◌≤◌, min, length};
ghost use Rattle.event_log.specs.Header.{layout_refusal};
ghost use Rattle.accept.specs.Refusal.{log_refusal};
ghost use Rattle.event_log.specs.Model.{worker_count, event_count};
ghost use Rattle.event_log.specs.Layout.{workers_of};
ghost use Rattle.intervals.specs.Interval.{index, interval_at};
ghost use Rattle.interval_blocks.specs.Inner.Blocks.{most_bits, blocks_of, first_block, Blocks};
ghost use Rattle.interval_blocks.specs.Inner.Row.{Row};

use intervals::{EventIndex, IntervalNumber};

// How many blocks of 2^b events worker w has: the last one begins at or before its last event.
#[tactic(auto, using(crate::proofs::BlockLaws::block_laws), unfolding(crate::specs::Inner::Blocks::blocks_of))]
fn blocks_of(log: &[u8], b: u32, w: usize) -> usize
    requires { (layout_refusal log.now ≡ 0) × (b ≤ most_bits) }
    ensures answer { result ≡ blocks_of (workers_of log.now) b w }
{
    (event_log::event_count(log, w) >> b) as usize + 1
}

// The blocks of all workers.
pub fn all_blocks(log: &[u8], b: u32) -> usize
    requires { (layout_refusal log.now ≡ 0) × (b ≤ most_bits) }
    ensures answer { result ≡ first_block (workers_of log.now) b (worker_count (workers_of log.now)) }
{
    let n = event_log::worker_count(log);
    let mut blocks: usize = 0;
    for w in 0..n {
        blocks += blocks_of(log, b, w);
    }
    blocks
}

// Where block j + 1 of worker w begins, and the worker's last event where there is no such block.
fn block_end(log: &[u8], b: u32, w: usize, j: usize) -> EventIndex
    requires { (layout_refusal log.now ≡ 0) × (b ≤ most_bits) × (j < blocks_of (workers_of log.now) b w) }
    ensures answer { result ≡ index (min ((j + 1) * 2 ^ b) (event_count (workers_of log.now) w)) }
{
    let end = (j as u32 + 1) << b;
    EventIndex(end.min(event_log::event_count(log, w)))
}

// Writes the intervals at the starts of the blocks of worker w to the table, from its place `first` on.
fn fill_row(log: &[u8], b: u32, w: usize, first: usize, table: &mut [u16])
    requires { (layout_refusal log.now ≡ 0) × (b ≤ most_bits) × (first + blocks_of (workers_of log.now) b w ≤ length table.old) }
    ensures row { Row (workers_of log.now) b w first (blocks_of (workers_of log.now) b w) table.old table.new }
{
    let blocks = blocks_of(log, b, w);
    let mut from = EventIndex(0);
    let mut number = IntervalNumber(0);
    for j in 0..blocks {
        table[first + j] = number.0 as u16;
        let to = block_end(log, b, w, j);
        number = intervals::advance(log, w, from, number, to);
        from = to;
    }
}

// Fills the table with the rows of all workers, one behind the other, and `firsts` with the place of the first block of each. What is past
// them is free.
pub fn fill(log: &[u8], b: u32, firsts: &mut [u32], table: &mut [u16])
    requires { (layout_refusal log.now ≡ 0) × (b ≤ most_bits) × (worker_count (workers_of log.now) ≤ length firsts.old)
        × (first_block (workers_of log.now) b (worker_count (workers_of log.now)) ≤ length table.old) }
    ensures blocks { Blocks (workers_of log.now) b firsts.new table.new }
{
    let n = event_log::worker_count(log);
    let mut first: usize = 0;
    for w in 0..n {
        firsts[w] = first as u32;
        fill_row(log, b, w, first, table);
        first += blocks_of(log, b, w);
    }
}

// A log that passes the tests 1 to 6, with a table of the intervals at the starts of its blocks of 2^b events: the rows of all workers, one behind
// the other, and in `firsts` the place of the first block of each.
#[derive(Clone, Copy)]
pub struct IntervalTable<'a> {
    pub log: &'a [u8],
    pub b: u32,
    pub firsts: &'a [u32],
    pub table: &'a [u16],
    pub ghost laid_out: { layout_refusal log.now ≡ 0 },
    pub ghost blocks: { Blocks (workers_of log.now) b firsts.now table.now },
}

impl<'a> IntervalTable<'a> {
    // The table of a log, with blocks of 2^b events, filled in words that are lent for it.
    pub fn new(
        log: &'a [u8],
        b: u32,
        firsts: &'a mut [u32],
        table: &'a mut [u16],
    ) -> IntervalTable<'a>
        requires { (layout_refusal log.now ≡ 0) × (b ≤ most_bits) × (worker_count (workers_of log.now) ≤ length firsts.old)
            × (first_block (workers_of log.now) b (worker_count (workers_of log.now)) ≤ length table.old) }
        ensures log { result.log.now ≡ log.now }
        ensures size { result.b ≡ b }
    {
        fill(log, b, firsts, table);
        IntervalTable {
            log,
            b,
            firsts,
            table,
        }
    }

    // The interval of worker w after its event x: that of the block, and the receives behind it.
    pub fn interval_of(&self, w: usize, x: EventIndex) -> IntervalNumber
        requires { (w < worker_count (workers_of self.now.log.now)) × (x.0 ≤ event_count (workers_of self.now.log.now) w) }
        ensures answer { result ≡ interval_at (workers_of self.now.log.now) w x }
    {
        let block = x.0 >> self.b;
        let place = self.firsts[w] as usize + block as usize;
        let number = IntervalNumber(self.table[place] as u32);
        let start = EventIndex(block << self.b);
        intervals::advance(self.log, w, start, number, x)
    }
}

// The table of an accepted log.
#[derive(Clone, Copy)]
pub struct AcceptedTable<'a> {
    pub intervals: IntervalTable<'a>,
    pub ghost accepted: { log_refusal intervals.log.now ≡ 0 },
}

impl<'a> AcceptedTable<'a> {
    // As `IntervalTable::new`, for a log that is accepted.
    pub fn new(
        log: &'a [u8],
        b: u32,
        firsts: &'a mut [u32],
        table: &'a mut [u16],
    ) -> AcceptedTable<'a>
        requires { (log_refusal log.now ≡ 0) × (b ≤ most_bits) × (worker_count (workers_of log.now) ≤ length firsts.old)
            × (first_block (workers_of log.now) b (worker_count (workers_of log.now)) ≤ length table.old) }
        ensures log { result.intervals.log.now ≡ log.now }
        ensures size { result.intervals.b ≡ b }
    {
        let intervals = IntervalTable::new(log, b, firsts, table);
        AcceptedTable { intervals }
    }
}
