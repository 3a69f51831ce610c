// The packed log of an accepted log: the same log, with its sections in worker order and without gaps.
#![tactic(auto)]

ghost use Rattle.std.specs.Prelude.{◌≡◌, ◌+◌, ◌*◌, ◌<◌, ◌≤◌, length, take};
ghost use Rattle.ranges.specs.Fold.{join_below};
ghost use Rattle.lent.specs.Lent.{unless_refused};
ghost use Rattle.lent.specs.Inner.Overwrite.{overwrite};
ghost use Rattle.event_log.specs.Header.{layout_refusal};
ghost use Rattle.event_log.specs.Limits.{max_length, max_workers};
ghost use Rattle.event_log.specs.Layout.{header_of, workers_of, log_of};
ghost use Rattle.event_log.specs.Model.{worker_count};
ghost use Rattle.accept.specs.Refusal.{given};
ghost use Rattle.pack.specs.Packed.{field_bytes, number_at, entry_bytes, sections_of, sections_size, start_of, entry_of, packed_length, packed};
ghost use Rattle.pack.specs.Inner.Room.{Room};
ghost use Rattle.pack.specs.Calls.{room_refusal, pack_refusal, pack_answer};
ghost use Rattle.pack.specs.Archive.{Archived};

// What packing returns: the number that refuses it and the bytes written.
#[derive(Clone, Copy)]
pub struct Packed {
    pub refusal: u32,
    pub written: u64,
}

// The bytes of the sections of worker w.
fn sections_size(log: &[u8], w: usize) -> usize
    requires { (layout_refusal log.now ≡ 0) × (w < worker_count (workers_of log.now)) }
    ensures answer { result ≡ sections_size (workers_of log.now) w }
{
    event_log::events_part(log, w).len() + event_log::checkpoints_part(log, w).len()
}

// The length of the packed log.
fn packed_length(log: &[u8]) -> usize
    requires { layout_refusal log.now ≡ 0 }
    ensures answer { result ≡ packed_length (workers_of log.now) }
{
    let n = event_log::worker_count(log);
    let mut at = event_log::header_of(n as u32);
    for w in 0..n {
        at += sections_size(log, w);
    }
    at
}

// Refusals 26 and 25, of the length of the packed log and the number of bytes lent.
pub fn room_refusal(size: usize, lent: usize) -> u32
    ensures answer { result ≡ room_refusal size lent }
{
    if event_log::MAX_LENGTH < size {
        return 26;
    }
    if lent < size {
        return 25;
    }
    0
}

// The refusal of a call with this log that lends this many bytes; `others` is that of what else the caller was lent.
fn pack_refusal(log: &[u8], lent: usize, others: u32) -> u32
    ensures answer { result ≡ pack_refusal (given log.now) lent others }
{
    let refusal = accept::accept(log);
    if refusal != 0 {
        return refusal;
    }
    lent::or_else(room_refusal(packed_length(log), lent), others)
}

// Writes the form, the worker count and the length of a log.
pub fn write_fields(form: u32, n: usize, size: usize, out: &mut [u8])
    requires { (8 ≤ length out.old) × (n ≤ max_workers) × (size ≤ max_length) }
    ensures out { out.new ≡ overwrite 0 (field_bytes form n size) out.old }
{
    bytes_le::write::<2>(out, 0, form);
    bytes_le::write::<2>(out, 2, n as u32);
    bytes_le::write::<4>(out, 4, size as u32);
}

// Writes five numbers to 4 bytes each, from place `at` on.
fn write_numbers(numbers: [u32; 5], out: &mut [u8], at: usize)
    requires { at + 20 ≤ length out.old }
    ensures out { out.new ≡ overwrite at (join_below (number_at numbers) 5) out.old }
{
    for (j, number) in numbers.iter().enumerate() {
        bytes_le::write::<4>(out, at + 4 * j, *number);
    }
}

// Writes the entry of worker w, whose events begin at `start` and its checkpoints right behind them.
pub fn write_entry(w: usize, start: usize, events: u32, checkpoints: u32, role: u32, out: &mut [u8])
    requires { (w < max_workers) × (header_of (w + 1) ≤ length out.old) × (start + 12 * events ≤ max_length) }
    ensures out { out.new ≡ overwrite (header_of w) (entry_bytes start events checkpoints role) out.old }
{
    let behind = start + records::EVENT_SIZE * (events as usize);
    let numbers = [events, start as u32, checkpoints, behind as u32, role];
    write_numbers(numbers, out, event_log::header_of(w as u32));
}

// Writes the entry of each worker.
fn write_entries(log: &[u8], out: &mut [u8])
    requires { Room log.now (length out.old) }
    ensures out { out.new ≡ overwrite (header_of 0) (join_below (entry_of (workers_of log.now)) (worker_count (workers_of log.now))) out.old }
{
    let n = event_log::worker_count(log);
    let mut start = event_log::header_of(n as u32);
    for w in 0..n {
        let events = event_log::event_count(log, w);
        let checkpoints = event_log::checkpoint_count(log, w);
        write_entry(
            w,
            start,
            events,
            checkpoints,
            event_log::role_of(log, w),
            out,
        );
        start += sections_size(log, w);
    }
}

// Copies the events of worker w to place `at`, where its sections begin, and its checkpoints behind them. Returns where those end.
fn copy_sections(log: &[u8], w: usize, out: &mut [u8], at: usize) -> usize
    requires { Room log.now (length out.old) × (w < worker_count (workers_of log.now)) × (at ≡ start_of (workers_of log.now) w) }
    ensures answer { result ≡ start_of (workers_of log.now) (w + 1) }
    ensures out { out.new ≡ overwrite at (sections_of (workers_of log.now) w) out.old }
{
    let events = event_log::events_part(log, w);
    let checkpoints = event_log::checkpoints_part(log, w);
    let behind = at + events.len();
    lent::copy_bytes(events, out, at);
    lent::copy_bytes(checkpoints, out, behind);
    behind + checkpoints.len()
}

// Copies the sections of each worker.
fn write_sections(log: &[u8], out: &mut [u8])
    requires { Room log.now (length out.old) }
    ensures out { out.new ≡ overwrite (header_of (worker_count (workers_of log.now)))
        (join_below (sections_of (workers_of log.now)) (worker_count (workers_of log.now))) out.old }
{
    let n = event_log::worker_count(log);
    let mut at = event_log::header_of(n as u32);
    for w in 0..n {
        at = copy_sections(log, w, out, at);
    }
}

// Writes the packed log into the bytes lent, or refuses; `others` is the refusal of what else the caller was lent.
pub fn pack(log: &[u8], others: u32, out: &mut [u8]) -> Packed
    ensures refused { result.refusal ≡ pack_refusal (given log.now) (length out.old) others }
    ensures answer { result ≡ pack_answer result.refusal (workers_of log.now) }
    ensures out { out.new ≡ unless_refused result.refusal (packed (log_of log.now)) out.old }
    ensures archived { result.refusal ≡ 0 → Archived log.now (take result.written out.new) }
{
    let refusal = pack_refusal(log, out.len(), others);
    if refusal != 0 {
        return Packed {
            refusal,
            written: 0,
        };
    }
    let size = packed_length(log);
    write_fields(
        event_log::form_field(log),
        event_log::worker_count(log),
        size,
        out,
    );
    write_entries(log, out);
    write_sections(log, out);
    Packed {
        refusal: 0,
        written: size as u64,
    }
}
