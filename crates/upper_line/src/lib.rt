// The upper line of a breakpoint event: each other worker is moved on, event by event, up to one that the breakpoint event happened before.
#![tactic(auto, using(accept::proofs::Accepted::accepted_layout, causality::proofs::Peers::events_few, causality::proofs::Peers::peer_within))]

ghost use Rattle.std.specs.Prelude.{◌≡◌, ◌≢◌, [], ◌∷◌, ◌+◌, ◌<◌, ◌≤◌, length};
ghost use Rattle.lent.specs.Lent.{left};
ghost use Rattle.event_log.specs.Layout.{workers_of};
ghost use Rattle.event_log.specs.Model.{worker_count, event_count, IsEvent};
ghost use Rattle.accept.specs.Refusal.{log_refusal, given};
ghost use Rattle.upper_line.specs.Upper.{upper_line};
ghost use Rattle.upper_line.specs.Calls.{upper_line_call};
ghost use Rattle.upper_line.specs.Inner.Raising.{blocked, Passed, Raised};

// Whether event k + 1 of worker w is a receive of a send beyond the line, or of the breakpoint event's message. A send names 0, which is
// neither.
fn is_blocked(log: &[u8], i: usize, event: u32, w: usize, k: u32, line: &[u32]) -> bool
    requires { (log_refusal log.now ≡ 0) × (length line.now ≡ worker_count (workers_of log.now)) × (k < event_count (workers_of log.now) w) × (0 < event) }
    ensures answer { result ≡ blocked (workers_of log.now) i event line.now w k }
{
    let e = event_log::event_at(log, w, k + 1);
    let peer = e.peer as usize;
    line[peer] < e.send || peer == i && e.send == event
}

// Moves worker w on to event `target`, or to just before its first event that the breakpoint event happened before. A sender is moved on
// first, as far as its message is awaited; the stamps of the awaited events fall.
fn raise(log: &[u8], i: usize, event: u32, w: usize, target: u32, line: &mut [u32])
    requires { (log_refusal log.now ≡ 0) × IsEvent (workers_of log.now) i event × (w < worker_count (workers_of log.now)) × (w ≢ i)
        × (target ≤ event_count (workers_of log.now) w) × Passed (workers_of log.now) i event line.old }
    ensures line { Raised (workers_of log.now) i event w target line.old line.new }
{
    // A while: by its contract the call for a sender may move w on as well.
    while line[w] < target {
        let k = line[w];
        if !is_blocked(log, i, event, w, k, line) {
            line[w] = k + 1;
            continue;
        }
        let e = event_log::event_at(log, w, k + 1);
        let sender = e.peer as usize;
        if sender == i {
            return;
        }
        raise(log, i, event, sender, e.send, line);
        if line[sender] < e.send {
            return;
        }
    }
}

// Moves worker w on as far as it can go. The breakpoint's own worker stays.
fn raise_worker(log: &[u8], i: usize, event: u32, w: usize, line: &mut [u32])
    requires { (log_refusal log.now ≡ 0) × IsEvent (workers_of log.now) i event × (w < worker_count (workers_of log.now)) × Passed (workers_of log.now) i event line.old }
    ensures line { Raised (workers_of log.now) i event w (event_count (workers_of log.now) w) line.old line.new }
{
    if w == i {
        return;
    }
    let count = event_log::event_count(log, w);
    raise(log, i, event, w, count, line);
}

// The upper line of event `event` of worker i, in as many words as there are workers.
fn upper_into(log: &[u8], i: usize, event: u32, line: &mut [u32])
    requires { (log_refusal log.now ≡ 0) × (length line.old ≡ worker_count (workers_of log.now)) × (i < worker_count (workers_of log.now)) × IsEvent (workers_of log.now) i event }
    ensures line { line.new ≡ upper_line (workers_of log.now) i event }
{
    line.fill(0);
    line[i] = event;
    let n = event_log::worker_count(log);
    for w in 0..n {
        raise_worker(log, i, event, w, line);
    }
}

// The upper line of a breakpoint event: its refusal, or 0 with the line in the first n words.
pub fn upper_line(log: &[u8], worker: u32, event: u32, words: &mut [u32]) -> u32
    ensures left { left result (words.new ∷ []) ≡ upper_line_call (given log.now) worker event words.old }
{
    let refusal = refusals::line_refusal(log, worker, event, 1, words.len(), 0);
    if refusal != 0 {
        return refusal;
    }
    let n = event_log::worker_count(log);
    upper_into(log, worker as usize, event, &mut words[..n]);
    0
}
