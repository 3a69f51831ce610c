// The words of a plan, cut, start and identifier for each worker, and its replayed events and their units.
#![tactic(auto)]

ghost use Rattle.std.specs.Prelude.{◌≡◌, ◌+◌, ◌-◌, ◌*◌, ◌<◌, ◌≤◌, length};
ghost use Rattle.ranges.specs.Fold.{tabulate};
ghost use Rattle.event_log.specs.Limits.{max_events};
ghost use Rattle.event_log.specs.Layout.{workers_of};
ghost use Rattle.event_log.specs.Model.{worker_count};
ghost use Rattle.accept.specs.Refusal.{log_refusal};
ghost use Rattle.unit_table.specs.Table.{table_of, table_refusal};
ghost use Rattle.cost.specs.Words.{cut_in, start_in, identifier_in, cuts_in, starts_in};
ghost use Rattle.cost.specs.Cost.{events_of, worker_units, units_of};
ghost use Rattle.cost.specs.Inner.Held.{IsHeld};
ghost use Rattle.cost.specs.Inner.Counted.{counted_as, counted_units};

use records::Kind;

// The cut of worker w in plan words.
pub fn cut_in(words: &[u32], w: usize) -> u32
    requires { 3 * w + 3 ≤ length words.now }
    ensures answer { result ≡ cut_in words.now w }
{
    words[3 * w]
}

// The start of worker w in plan words.
pub fn start_in(words: &[u32], w: usize) -> u32
    requires { 3 * w + 3 ≤ length words.now }
    ensures answer { result ≡ start_in words.now w }
{
    words[3 * w + 1]
}

// The identifier of worker w in plan words.
pub fn identifier_in(words: &[u32], w: usize) -> u32
    requires { 3 * w + 3 ≤ length words.now }
    ensures answer { result ≡ identifier_in words.now w }
{
    words[3 * w + 2]
}

// The number of replayed events of worker w.
pub fn worker_events(words: &[u32], w: usize) -> u32
    requires { (3 * w + 3 ≤ length words.now) × (start_in words.now w ≤ cut_in words.now w) }
    ensures answer { result ≡ cut_in words.now w - start_in words.now w }
{
    cut_in(words, w) - start_in(words, w)
}

// Puts each position at its worker's start in plan words.
pub fn write_starts(words: &[u32], positions: &mut [u32])
    requires { 3 * length positions.old ≤ length words.now }
    ensures positions { positions.new ≡ tabulate (start_in words.now) (length positions.old) }
{
    for (w, position) in positions.iter_mut().enumerate() {
        *position = start_in(words, w);
    }
}

// What a receive with its data adds to the sum of counts. A worker has fewer events: the remainder by it counts the receives without
// their data, and the quotient those with it.
const LOGGED_ONE: u64 = 4294967296;

// What an event of a kind adds to the sum of counts.
fn counted_as(kind: Kind) -> u64
    ensures answer { result ≡ counted_as kind }
{
    match kind {
        Kind::Send | Kind::Rest => 0,
        Kind::Unlogged => 1,
        Kind::Logged => LOGGED_ONE,
    }
}

// The units of `events` events of a role, of which `unlogged` are receives without their data and `logged` receives with it.
fn counted_units(table: &[u32], role: usize, events: u32, unlogged: u64, logged: u64) -> u64
    requires { (role < 4) × (events ≤ max_events) × (unlogged + logged ≤ events) × (table_refusal table.now ≡ 0) }
    ensures answer { result ≡ counted_units (table_of table.now) role events unlogged logged }
{
    let sends = u64::from(events) - (unlogged + logged);
    sends * u64::from(unit_table::units_for(table, role, Kind::Send))
        + unlogged * u64::from(unit_table::units_for(table, role, Kind::Unlogged))
        + logged * u64::from(unit_table::units_for(table, role, Kind::Logged))
}

// The units of the replayed events of worker w. One sum counts the receives of both kinds, whatever their order, and the table is read at
// the end.
pub fn worker_units(log: &[u8], table: &[u32], words: &[u32], w: usize) -> u64
    requires { ((log_refusal log.now ≡ 0) × IsHeld (workers_of log.now) words.now) × (w < worker_count (workers_of log.now)) × (table_refusal table.now ≡ 0) }
    ensures answer { result ≡ worker_units (table_of table.now) (workers_of log.now)
        (cuts_in (workers_of log.now) words.now) (starts_in (workers_of log.now) words.now) w }
{
    let cut = cut_in(words, w);
    let start = start_in(words, w);
    let mut counts: u64 = 0;
    for k in start..cut {
        let e = event_log::event_at(log, w, k + 1);
        counts += counted_as(e.kind);
    }
    counted_units(
        table,
        event_log::role_of(log, w) as usize,
        cut - start,
        counts % LOGGED_ONE,
        counts / LOGGED_ONE,
    )
}

// The units of all replayed events, by a table that loads.
pub fn units_of(log: &[u8], table: &[u32], words: &[u32]) -> u64
    requires { ((log_refusal log.now ≡ 0) × IsHeld (workers_of log.now) words.now) × (table_refusal table.now ≡ 0) }
    ensures answer { result ≡ units_of (table_of table.now) (workers_of log.now)
        (cuts_in (workers_of log.now) words.now) (starts_in (workers_of log.now) words.now) }
{
    let n = event_log::worker_count(log);
    (0..n).map(|w| worker_units(log, table, words, w)).sum()
}

// The number of replayed events.
pub fn events_of(log: &[u8], words: &[u32]) -> u64
    requires { (log_refusal log.now ≡ 0) × IsHeld (workers_of log.now) words.now }
    ensures answer { result ≡ events_of (workers_of log.now)
        (cuts_in (workers_of log.now) words.now) (starts_in (workers_of log.now) words.now) }
{
    let n = event_log::worker_count(log);
    (0..n).map(|w| u64::from(worker_events(words, w))).sum()
}
