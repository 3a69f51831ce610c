// What the conversion of a log to an interval log refuses: test 28, and the length of the interval log for 26 and 25.
#![tactic(auto, using(crate::proofs::Apart::counting_laws))]

ghost use Rattle.std.specs.Prelude.{◌≡◌, ◌≤◌};
ghost use Rattle.event_log.specs.Header.{layout_refusal};
ghost use Rattle.event_log.specs.Limits.{max_checkpoints};
ghost use Rattle.event_log.specs.Layout.{workers_of};
ghost use Rattle.event_log.specs.Model.{checkpoint_count};
ghost use Rattle.accept.specs.Refusal.{log_refusal, given};
ghost use Rattle.pack.specs.Packed.{sections_size, packed_length};
ghost use Rattle.pack.specs.Calls.{pack_answer};
ghost use Rattle.intervals.specs.Interval.{interval_workers};
ghost use Rattle.interval_refusals.specs.Calls.{worker_crowded, crowded, intervals_refusal};

use intervals::{EventIndex, IntervalNumber};
use pack::Packed;

// Whether two recorded checkpoints of worker w that are not withdrawn fall into one interval. Indices do not fall, so each is compared with
// the last one that is not withdrawn: `free` is the first interval behind that one's, and 0 where there is none.
#[tactic(auto, using(crate::proofs::Apart::apart_laws), unfolding(crate::specs::Calls::worker_crowded))]
fn worker_crowded(log: &[u8], w: usize) -> bool
    requires { log_refusal log.now ≡ 0 }
    ensures answer { result ≡ worker_crowded (workers_of log.now) w }
{
    let count = event_log::checkpoint_count(log, w);
    let mut from = EventIndex(0);
    let mut number = IntervalNumber(0);
    let mut free = IntervalNumber(0);
    for k in 0..count {
        let checkpoint = event_log::checkpoint_at(log, w, k + 1);
        if checkpoint.withdrawn {
            continue;
        }
        let to = EventIndex(checkpoint.index);
        number = intervals::advance(log, w, from, number, to);
        if number.0 < free.0 {
            return true;
        }
        from = to;
        free = IntervalNumber(number.0 + 1);
    }
    false
}

// Test 28.
fn crowded(log: &[u8]) -> bool
    requires { log_refusal log.now ≡ 0 }
    ensures answer { result ≡ crowded (workers_of log.now) }
{
    let n = event_log::worker_count(log);
    (0..n).any(|w| worker_crowded(log, w))
}

// The checkpoints of worker w that are not withdrawn.
pub fn kept_count(log: &[u8], w: usize) -> u32
    requires { layout_refusal log.now ≡ 0 }
    ensures answer { result ≡ checkpoint_count (interval_workers (workers_of log.now)) w }
    ensures few { result ≤ max_checkpoints }
{
    let count = event_log::checkpoint_count(log, w);
    let mut kept: u32 = 0;
    for k in 0..count {
        if !event_log::checkpoint_at(log, w, k + 1).withdrawn {
            kept += 1;
        }
    }
    kept
}

// The bytes of the sections of worker w in the interval log.
#[tactic(auto, using(crate::proofs::Apart::counting_laws), unfolding(pack::specs::Packed::sections_size))]
fn sections_size(log: &[u8], w: usize) -> usize
    requires { layout_refusal log.now ≡ 0 }
    ensures answer { result ≡ sections_size (interval_workers (workers_of log.now)) w }
{
    let last = EventIndex(event_log::event_count(log, w));
    let receives = intervals::advance(log, w, EventIndex(0), IntervalNumber(0), last);
    records::EVENT_SIZE * (receives.0 as usize)
        + records::CHECKPOINT_SIZE * (kept_count(log, w) as usize)
}

// The length of the interval log.
#[tactic(auto, using(crate::proofs::Apart::length_laws), unfolding(pack::specs::Packed::packed_length))]
fn interval_length(log: &[u8]) -> usize
    requires { layout_refusal log.now ≡ 0 }
    ensures answer { result ≡ packed_length (interval_workers (workers_of log.now)) }
{
    let n = event_log::worker_count(log);
    let mut length = event_log::header_of(n as u32);
    for w in 0..n {
        length += sections_size(log, w);
    }
    length
}

// The refusal of a call with this log that lends this many bytes, and the length of the interval log where there is none; `others` is the
// refusal of what else the caller was lent.
#[tactic(auto, using(crate::proofs::Apart::refusal_laws), unfolding(crate::specs::Calls::intervals_refusal, pack::specs::Calls::pack_answer, lent::specs::Lent::or_else))]
pub fn judge(log: &[u8], lent: usize, others: u32) -> Packed
    ensures refused { result.refusal ≡ intervals_refusal (given log.now) lent others }
    ensures answer { result ≡ pack_answer result.refusal (interval_workers (workers_of log.now)) }
{
    let refusal = accept::accept(log);
    if refusal != 0 {
        return Packed {
            refusal,
            written: 0,
        };
    }
    if crowded(log) {
        return Packed {
            refusal: 28,
            written: 0,
        };
    }
    let size = interval_length(log);
    let rest = lent::or_else(pack::room_refusal(size, lent), others);
    if rest != 0 {
        return Packed {
            refusal: rest,
            written: 0,
        };
    }
    Packed {
        refusal: 0,
        written: size as u64,
    }
}
