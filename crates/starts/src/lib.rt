// The starts of a plan: each worker is rolled back from its latest checkpoint within the cut, until no send is lost.
#![tactic(auto)]

ghost use Rattle.std.specs.Prelude.{◌≡◌, ◌+◌, ◌*◌, ◌<◌, ◌≤◌, length};
ghost use Rattle.ranges.specs.Fold.{first_below};
ghost use Rattle.lent.specs.Lent.{at};
ghost use Rattle.event_log.specs.Layout.{workers_of};
ghost use Rattle.event_log.specs.Model.{worker_count, event_of, IsEvent};
ghost use Rattle.accept.specs.Refusal.{log_refusal};
ghost use Rattle.causality.specs.Cut.{IsCut};
ghost use Rattle.restore_plan.specs.Plan.{plan_words};
ghost use Rattle.cost.specs.Words.{start_in, cuts_in};
ghost use Rattle.starts.specs.Inner.Rollback.{number_in, may_start_below, number_below, placed, resent, pending, RollingBack, Looked, Settled, finished};

use choice::{loses_send, may_choose};
use cost::{cut_in, identifier_in, start_in};

// The number of worker w's checkpoint, which its third word holds while workers are rolled back.
fn number_in(words: &[u32], w: usize) -> u32
    requires { 3 * w + 3 ≤ length words.now }
    ensures answer { result ≡ number_in words.now w }
{
    identifier_in(words, w)
}

// Whether checkpoint c of worker w may be chosen and has an index below `bound`.
fn may_start_below(log: &[u8], w: usize, bound: u32, c: u32) -> bool
    requires { log_refusal log.now ≡ 0 }
    ensures answer { result ≡ may_start_below (workers_of log.now) w bound c }
{
    may_choose(log, w, c) && event_log::checkpoint_at(log, w, c).index < bound
}

// The last checkpoint of worker w, up to number `from`, that may be chosen and has an index below `bound`.
fn number_below(log: &[u8], w: usize, from: u32, bound: u32) -> u32
    requires { log_refusal log.now ≡ 0 }
    ensures answer { result ≡ number_below (workers_of log.now) w bound from }
{
    (0..=from)
        .rev()
        .find(|c| may_start_below(log, w, bound, *c))
        .unwrap_or(0)
}

// Gives worker w the checkpoint with number c.
fn place(log: &[u8], words: &mut [u32], w: usize, c: u32)
    requires { (log_refusal log.now ≡ 0) × (3 * w + 3 ≤ length words.old) }
    ensures words { words.new ≡ placed (workers_of log.now) words.old w c }
{
    let point = event_log::checkpoint_at(log, w, c);
    words[3 * w + 1] = point.index;
    words[3 * w + 2] = c;
}

// Starts each worker at its latest checkpoint within the cut, with nothing looked at.
fn begin(log: &[u8], words: &mut [u32], looked: &mut [u32])
    requires { (log_refusal log.now ≡ 0) × (length words.old ≡ 3 * worker_count (workers_of log.now))
        × (length looked.old ≡ worker_count (workers_of log.now)) × (IsCut (workers_of log.now) (cuts_in (workers_of log.now) words.old)) }
    ensures begun { RollingBack (workers_of log.now) (cuts_in (workers_of log.now) words.old)
        words.new looked.new }
{
    for (w, look) in looked.iter_mut().enumerate() {
        let cut = cut_in(words, w);
        let c = number_below(log, w, event_log::checkpoint_count(log, w), cut + 1);
        place(log, words, w, c);
        *look = cut;
    }
}

// Looks at event x of worker w: the sender of a receive that loses its send starts below the send.
fn resend(log: &[u8], words: &mut [u32], w: usize, x: u32)
    requires { (log_refusal log.now ≡ 0) × (length words.old ≡ 3 * worker_count (workers_of log.now)) × IsEvent (workers_of log.now) w x }
    ensures words { words.new
        ≡ resent (workers_of log.now) (event_of (workers_of log.now) w x) words.old }
{
    let e = event_log::event_at(log, w, x);
    let p = e.peer as usize;
    if !loses_send(e, start_in(words, p)) {
        return;
    }
    let c = number_below(log, p, number_in(words, p), e.send);
    place(log, words, p, c);
}

// Looks at all events of worker w after its start, from the last that has not been looked at down.
fn look_worker(log: &[u8], words: &mut [u32], looked: &mut [u32], w: usize)
    requires { (log_refusal log.now ≡ 0) × (w < worker_count (workers_of log.now))
        × (IsCut (workers_of log.now) (cuts_in (workers_of log.now) words.old))
        × (RollingBack (workers_of log.now) (cuts_in (workers_of log.now) words.old) words.old looked.old) }
    ensures looked { Looked (workers_of log.now) (cuts_in (workers_of log.now) words.old)
        words.old looked.old words.new looked.new }
    ensures done { at looked.new w ≤ start_in words.new w }
{
    let start = start_in(words, w);
    let mut x = looked[w];
    // A while: where x ends is stored below.
    while start < x {
        resend(log, words, w, x);
        x -= 1;
    }
    looked[w] = x;
}

// Looks at events until no worker has one left.
fn settle(log: &[u8], words: &mut [u32], looked: &mut [u32])
    requires { (log_refusal log.now ≡ 0) × (IsCut (workers_of log.now) (cuts_in (workers_of log.now) words.old))
        × (RollingBack (workers_of log.now) (cuts_in (workers_of log.now) words.old) words.old looked.old) }
    ensures settled { Settled (workers_of log.now) (cuts_in (workers_of log.now) words.old) words.new }
{
    let n = event_log::worker_count(log);
    while let Some(w) = (0..n).find(|w| start_in(words, *w) < looked[*w]) {
        look_worker(log, words, looked, w);
    }
}

// The identifier of each worker's checkpoint in place of its number.
fn finish(log: &[u8], words: &mut [u32])
    requires { (log_refusal log.now ≡ 0) × (length words.old ≡ 3 * worker_count (workers_of log.now)) }
    ensures words { words.new ≡ finished (workers_of log.now) words.old }
{
    let n = event_log::worker_count(log);
    for w in 0..n {
        let point = event_log::checkpoint_at(log, w, number_in(words, w));
        words[3 * w + 2] = point.identifier;
    }
}

// The plan of a cut, which stands in the first word of each worker.
pub fn plan_into(log: &[u8], words: &mut [u32], looked: &mut [u32])
    requires { (log_refusal log.now ≡ 0) × (length words.old ≡ 3 * worker_count (workers_of log.now))
        × (length looked.old ≡ worker_count (workers_of log.now)) × (IsCut (workers_of log.now) (cuts_in (workers_of log.now) words.old)) }
    ensures words { words.new
        ≡ plan_words (workers_of log.now) (cuts_in (workers_of log.now) words.old) }
{
    begin(log, words, looked);
    settle(log, words, looked);
    finish(log, words);
}
