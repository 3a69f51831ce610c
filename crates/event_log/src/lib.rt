// A house log in bytes: its header and its sections, and the readers that the other crates use.
#![tactic(auto)]

ghost use Rattle.std.specs.Prelude.{◌≡◌, ◌+◌, ◌*◌, ◌<◌, ◌≤◌, length};
ghost use Rattle.records.specs.Forms.{receives_once};
ghost use Rattle.event_log.specs.Limits.{max_workers, max_events, max_checkpoints, max_role};
ghost use Rattle.records.specs.Event.{event_record};
ghost use Rattle.records.specs.Checkpoint.{initial, checkpoint_record};
ghost use Rattle.event_log.specs.Model.{worker_count, event_count, event_of, checkpoint_count, checkpoint_of, role_of};
ghost use Rattle.event_log.specs.Layout.{form_field, size_field, length_field, header_of, field, entry_or_zero, section, event_start, event_section, checkpoint_section, workers_of};
ghost use Rattle.event_log.specs.Header.{form_fault, limit_fault, outside, section_fault, entries_refusal, layout_refusal};

use records::{Checkpoint, Event};

// The limits of a log.
const MIN_LENGTH: usize = 8;

pub const MAX_LENGTH: usize = 4194304;

pub const MAX_WORKERS: usize = 64;

const MAX_EVENTS: u32 = 65535;

const MAX_CHECKPOINTS: u32 = 1024;

const MAX_ROLE: u32 = 3;

// The numbers of a worker's entry in the header.
const EVENT_COUNT_FIELD: usize = 0;

const EVENT_OFFSET_FIELD: usize = 1;

const CHECKPOINT_COUNT_FIELD: usize = 2;

const CHECKPOINT_OFFSET_FIELD: usize = 3;

const ROLE_FIELD: usize = 4;

// The form, the worker count and the length that the header gives.
pub fn form_field(log: &[u8]) -> u32
    requires { 8 ≤ length log.now }
    ensures answer { result ≡ form_field log.now }
{
    bytes_le::read::<2>(log, 0)
}

fn size_field(log: &[u8]) -> u32
    requires { 8 ≤ length log.now }
    ensures answer { result ≡ size_field log.now }
{
    bytes_le::read::<2>(log, 2)
}

fn length_field(log: &[u8]) -> u32
    requires { 8 ≤ length log.now }
    ensures answer { result ≡ length_field log.now }
{
    bytes_le::read::<4>(log, 4)
}

// The bytes of the header of a log of n workers.
pub fn header_of(n: u32) -> usize
    ensures answer { result ≡ header_of n }
{
    8 + 20 * (n as usize)
}

// Number j of the header's entry of worker w.
#[tactic(auto, unfolding(crate::specs::Layout::field))]
fn entry(log: &[u8], w: usize, j: usize) -> u32
    requires { (j < 5) × (header_of (w + 1) ≤ length log.now) }
    ensures answer { result ≡ field log.now w j }
{
    bytes_le::read::<4>(log, 8 + 20 * w + 4 * j)
}

// Test 5 on worker w.
#[tactic(auto, unfolding(crate::specs::Header::limit_fault))]
fn limit_fault(log: &[u8], w: usize) -> bool
    requires { header_of (w + 1) ≤ length log.now }
    ensures answer { result ≡ limit_fault log.now w }
{
    MAX_EVENTS < entry(log, w, EVENT_COUNT_FIELD)
        || MAX_CHECKPOINTS < entry(log, w, CHECKPOINT_COUNT_FIELD)
        || MAX_ROLE < entry(log, w, ROLE_FIELD)
}

// Whether `bytes` bytes from `start` on leave the part of the log behind its header.
#[tactic(auto, unfolding(crate::specs::Header::outside))]
fn is_outside(log: &[u8], start: u32, bytes: usize) -> bool
    requires { (8 ≤ length log.now) × (bytes < 68719476736) }
    ensures answer { result ≡ outside log.now start bytes }
{
    (start as usize) < header_of(size_field(log)) || log.len() < start as usize + bytes
}

// Test 6 on worker w.
#[tactic(auto, unfolding(crate::specs::Header::section_fault))]
fn section_fault(log: &[u8], w: usize) -> bool
    requires { header_of (w + 1) ≤ length log.now }
    ensures answer { result ≡ section_fault log.now w }
{
    let events = records::EVENT_SIZE * (entry(log, w, EVENT_COUNT_FIELD) as usize);
    let checkpoints = records::CHECKPOINT_SIZE * (entry(log, w, CHECKPOINT_COUNT_FIELD) as usize);
    is_outside(log, entry(log, w, EVENT_OFFSET_FIELD), events)
        || is_outside(log, entry(log, w, CHECKPOINT_OFFSET_FIELD), checkpoints)
}

// Tests 5 and 6 on a log whose header is whole.
fn entries_refusal(log: &[u8]) -> u32
    requires { (8 ≤ length log.now) × (header_of (size_field log.now) ≤ length log.now) }
    ensures answer { result ≡ entries_refusal log.now }
{
    let n = size_field(log) as usize;
    if (0..n).any(|w| limit_fault(log, w)) {
        return 5;
    }
    if (0..n).any(|w| section_fault(log, w)) {
        return 6;
    }
    0
}

// Test 2: whether the form is neither of the two.
#[tactic(auto, unfolding(crate::specs::Header::form_fault))]
fn form_fault(log: &[u8]) -> bool
    requires { 8 ≤ length log.now }
    ensures answer { result ≡ form_fault log.now }
{
    !records::is_form(form_field(log))
}

// Tests 1 to 6: the number of the first that fails, or 0.
pub fn layout_refusal(log: &[u8]) -> u32
    ensures answer { result ≡ layout_refusal log.now }
{
    if log.len() < MIN_LENGTH {
        return 1;
    }
    if MAX_LENGTH < log.len() {
        return 1;
    }
    if form_fault(log) {
        return 2;
    }
    let n = size_field(log);
    if n == 0 {
        return 3;
    }
    if MAX_WORKERS < n as usize {
        return 3;
    }
    if length_field(log) as usize != log.len() {
        return 4;
    }
    if log.len() < header_of(n) {
        return 4;
    }
    entries_refusal(log)
}

// A section of the log: the log, where the section starts, and how many records it has. It copies nothing.
#[derive(Clone, Copy)]
pub struct Section<'a> {
    pub log: &'a [u8],
    pub start: usize,
    pub count: usize,
}

// The part of the log that has `count` records of `size` bytes from `start` on.
fn part_at(log: &[u8], start: usize, count: usize, size: usize) -> &[u8]
    requires { start + size * count ≤ length log.now }
    ensures answer { result.now ≡ section log.now start (size * count) }
{
    &log[start..start + size * count]
}

fn section_of<'a>(log: &'a [u8], start: usize, count: usize) -> Section<'a>
    ensures answer { result ≡ record { log = log.entry; start = start; count = count } }
{
    Section { log, start, count }
}

// The part of the log that a section of records of `size` bytes is.
fn part_of<'a>(s: Section<'a>, size: usize) -> &'a [u8]
    requires { s.start + size * s.count ≤ length s.log.now }
    ensures answer { result.now ≡ section s.entry.log.now s.entry.start (size * s.entry.count) }
{
    part_at(s.log, s.start, s.count, size)
}

// The part of the log that a section is, from the log and the numbers of the section: every record is read through this.
fn section_part(log: &[u8], start: usize, count: usize, size: usize) -> &[u8]
    requires { start + size * count ≤ length log.now }
    ensures answer { result.now ≡ section log.now start (size * count) }
{
    part_of(section_of(log, start, count), size)
}

// Record k of the section of `count` records that starts at `start`.
pub fn event_in(log: &[u8], start: usize, count: usize, k: usize) -> Event
    requires { (start + 12 * count ≤ length log.now) × (k < count) }
    ensures answer { result ≡ event_record (section log.now start (12 * count)) k }
{
    records::event_record(section_part(log, start, count, records::EVENT_SIZE), k)
}

fn checkpoint_in(log: &[u8], start: usize, count: usize, k: usize) -> Checkpoint
    requires { (8 ≤ length log.now) × (start + 8 * count ≤ length log.now) × (k < count) }
    ensures answer { result ≡ checkpoint_record (form_field log.now) (section log.now start (8 * count)) k }
{
    records::checkpoint_record(
        form_field(log),
        section_part(log, start, count, records::CHECKPOINT_SIZE),
        k,
    )
}

// Whether the log is of the form in which a send is received at most once.
pub fn receives_once(log: &[u8]) -> bool
    requires { layout_refusal log.now ≡ 0 }
    ensures answer { result ≡ receives_once (form_field log.now) }
{
    records::receives_once(form_field(log))
}

// The number of workers.
pub fn worker_count(log: &[u8]) -> usize
    requires { layout_refusal log.now ≡ 0 }
    ensures answer { result ≡ worker_count (workers_of log.now) }
    ensures few { result ≤ max_workers }
{
    size_field(log) as usize
}

// Number j of the entry of worker w, and 0 past the last worker.
fn entry_or_zero(log: &[u8], w: usize, j: usize) -> u32
    requires { (layout_refusal log.now ≡ 0) × (j < 5) }
    ensures answer { result ≡ entry_or_zero log.now w j }
{
    if worker_count(log) <= w {
        return 0;
    }
    entry(log, w, j)
}

// The role of worker w.
pub fn role_of(log: &[u8], w: usize) -> u32
    requires { layout_refusal log.now ≡ 0 }
    ensures answer { result ≡ role_of (workers_of log.now) w }
    ensures small { result ≤ max_role }
{
    entry_or_zero(log, w, ROLE_FIELD)
}

// The event count of worker w.
pub fn event_count(log: &[u8], w: usize) -> u32
    requires { layout_refusal log.now ≡ 0 }
    ensures answer { result ≡ event_count (workers_of log.now) w }
    ensures few { result ≤ max_events }
{
    entry_or_zero(log, w, EVENT_COUNT_FIELD)
}

// Where the section of events of worker w starts, and 0 past the last worker.
pub fn event_start(log: &[u8], w: usize) -> usize
    requires { layout_refusal log.now ≡ 0 }
    ensures answer { result ≡ event_start log.now w }
{
    entry_or_zero(log, w, EVENT_OFFSET_FIELD) as usize
}

// The number of recorded checkpoints of worker w.
pub fn checkpoint_count(log: &[u8], w: usize) -> u32
    requires { layout_refusal log.now ≡ 0 }
    ensures answer { result ≡ checkpoint_count (workers_of log.now) w }
    ensures few { result ≤ max_checkpoints }
{
    entry_or_zero(log, w, CHECKPOINT_COUNT_FIELD)
}

// The bytes of the records of worker w, which is one of the log's: number j of its entry is how many they are, each of `size` bytes.
fn records_part(log: &[u8], w: usize, j: usize, size: usize) -> &[u8]
    requires { (j < 4) × (header_of (w + 1) ≤ length log.now) × (field log.now w (j + 1) + size * field log.now w j ≤ length log.now) }
    ensures answer { result.now ≡ section log.now (field log.now w (j + 1)) (size * field log.now w j) }
{
    let count = entry(log, w, j);
    let start = entry(log, w, j + 1);
    section_part(log, start as usize, count as usize, size)
}

// The bytes of the events of worker w, and those of its checkpoints.
pub fn events_part(log: &[u8], w: usize) -> &[u8]
    requires { (layout_refusal log.now ≡ 0) × (w < worker_count (workers_of log.now)) }
    ensures answer { result.now ≡ event_section log.now w }
{
    records_part(log, w, EVENT_COUNT_FIELD, records::EVENT_SIZE)
}

pub fn checkpoints_part(log: &[u8], w: usize) -> &[u8]
    requires { (layout_refusal log.now ≡ 0) × (w < worker_count (workers_of log.now)) }
    ensures answer { result.now ≡ checkpoint_section log.now w }
{
    records_part(log, w, CHECKPOINT_COUNT_FIELD, records::CHECKPOINT_SIZE)
}

// Event x of worker w, which is one of the log's, and no event outside 1 .. its count.
pub fn worker_event(log: &[u8], w: usize, x: u32) -> Event
    requires { (layout_refusal log.now ≡ 0) × (w < worker_count (workers_of log.now)) }
    ensures answer { result ≡ event_of (workers_of log.now) w x }
{
    let count = entry(log, w, EVENT_COUNT_FIELD);
    if x == 0 {
        return records::no_event();
    }
    if count < x {
        return records::no_event();
    }
    let start = entry(log, w, EVENT_OFFSET_FIELD);
    event_in(log, start as usize, count as usize, (x - 1) as usize)
}

// Event x of worker w, and no event past the last worker.
pub fn event_at(log: &[u8], w: usize, x: u32) -> Event
    requires { layout_refusal log.now ≡ 0 }
    ensures answer { result ≡ event_of (workers_of log.now) w x }
{
    if worker_count(log) <= w {
        return records::no_event();
    }
    worker_event(log, w, x)
}

// Checkpoint c of worker w: 0 is the initial state, which stands past the last recorded one too.
pub fn checkpoint_at(log: &[u8], w: usize, c: u32) -> Checkpoint
    requires { layout_refusal log.now ≡ 0 }
    ensures answer { result ≡ checkpoint_of (workers_of log.now) w c }
{
    let count = checkpoint_count(log, w);
    if c == 0 {
        return records::initial();
    }
    if count < c {
        return records::initial();
    }
    let start = entry(log, w, CHECKPOINT_OFFSET_FIELD);
    checkpoint_in(log, start as usize, count as usize, (c - 1) as usize)
}
