// State intervals: the interval log of a log, its interval cuts, and the one function that counts intervals.
#![tactic(auto)]

ghost use Rattle.std.specs.Prelude.{◌≡◌, ◌≤◌};
ghost use Rattle.event_log.specs.Header.{layout_refusal};
ghost use Rattle.event_log.specs.Model.{event_count};
ghost use Rattle.event_log.specs.Layout.{workers_of};
ghost use Rattle.intervals.specs.Interval.{interval_at};

// The index of an event of a worker, and the number of an interval of a worker: the one never stands for the other.
#[derive(Clone, Copy)]
pub struct EventIndex(pub u32);

#[derive(Clone, Copy)]
pub struct IntervalNumber(pub u32);

// The interval of worker w after event `to`, from the one after event `from`: every interval number is counted here.
#[tactic(auto, using(event_log::proofs::Read::next_event, crate::proofs::IntervalModel::interval_next, crate::proofs::IntervalModel::interval_few))]
pub fn advance(
    log: &[u8],
    w: usize,
    from: EventIndex,
    at: IntervalNumber,
    to: EventIndex,
) -> IntervalNumber
    requires { (layout_refusal log.now ≡ 0) × (from.0 ≤ to.0) × (to.0 ≤ event_count (workers_of log.now) w) × (at ≡ interval_at (workers_of log.now) w from) }
    ensures answer { result ≡ interval_at (workers_of log.now) w to }
{
    let start = event_log::event_start(log, w);
    let events = event_log::event_count(log, w) as usize;
    let mut number = at.0;
    for k in from.0..to.0 {
        number += records::received(event_log::event_in(log, start, events, k as usize));
    }
    IntervalNumber(number)
}
