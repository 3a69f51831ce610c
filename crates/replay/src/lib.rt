// The replay machine: one step of a worker, over the words of a plan and of the positions; and lists of steps.
#![tactic(auto)]

pub mod list;

ghost use Rattle.std.specs.Prelude.{◌≡◌, List, [], ◌∷◌, ℕ, ◌+◌, ◌*◌, ◌<◌, ◌≤◌, length};
ghost use Rattle.ranges.specs.Fold.{any_below};
ghost use Rattle.lent.specs.Lent.{at, left};
ghost use Rattle.event_log.specs.Layout.{workers_of};
ghost use Rattle.event_log.specs.Model.{worker_count};
ghost use Rattle.accept.specs.Refusal.{log_refusal, given};
ghost use Rattle.cost.specs.Words.{start_in};
ghost use Rattle.replay_machine.specs.Machine.{event_answer};
ghost use Rattle.replay_machine.specs.Calls.{disordered, state_refusal, step_refusal, machine_answer, machine_moved, step_call};
ghost use Rattle.replay_machine.specs.Inner.State.{IsState};

use choice::loses_send;
use cost::{cut_in, start_in};
use records::Event;

// Whether worker w is without start <= position <= cut <= count.
fn is_disordered(log: &[u8], words: &[u32], positions: &[u32], w: usize) -> bool
    requires { (log_refusal log.now ≡ 0) × (w < worker_count (workers_of log.now)) × (3 * worker_count (workers_of log.now) ≤ length words.now)
        × (worker_count (workers_of log.now) ≤ length positions.now) }
    ensures answer { result ≡ disordered (workers_of log.now) words.now positions.now w }
{
    positions[w] < start_in(words, w)
        || cut_in(words, w) < positions[w]
        || event_log::event_count(log, w) < cut_in(words, w)
}

// Whether some worker is without start <= position <= cut <= count.
fn some_disordered(log: &[u8], words: &[u32], positions: &[u32]) -> bool
    requires { (log_refusal log.now ≡ 0) × (3 * worker_count (workers_of log.now) ≤ length words.now) × (worker_count (workers_of log.now) ≤ length positions.now) }
    ensures answer { result ≡ any_below (disordered (workers_of log.now) words.now positions.now) (worker_count (workers_of log.now)) }
{
    let n = event_log::worker_count(log);
    (0..n).any(|w| is_disordered(log, words, positions, w))
}

// Refusals 14 and 16 of a step or a list of steps; `others` is the refusal of what else is lent.
fn state_refusal(log: &[u8], words: &[u32], positions: &[u32], others: u32) -> u32
    requires { log_refusal log.now ≡ 0 }
    ensures answer { result ≡ state_refusal (workers_of log.now) words.now positions.now others }
{
    let n = event_log::worker_count(log);
    let more = lent::or_else(lent::words_refusal(positions.len(), n), others);
    let short = lent::or_else(lent::words_refusal(words.len(), 3 * n), more);
    if short != 0 {
        return short;
    }
    if some_disordered(log, words, positions) {
        return 16;
    }
    0
}

// The log's refusals, then 12, 14 and 16, of a step.
fn step_refusal(log: &[u8], words: &[u32], positions: &[u32], worker: u32) -> u32
    ensures answer { result ≡ step_refusal (given log.now) words.now positions.now worker }
{
    let refusal = accept::accept(log);
    if refusal != 0 {
        return refusal;
    }
    lent::or_else(
        refusals::worker_refusal(log, worker),
        state_refusal(log, words, positions, 0),
    )
}

// The answer of a step to event e. The first comparison is made for every kind: 0 is not awaited.
fn event_answer(words: &[u32], positions: &[u32], e: Event) -> u32
    requires { (e.peer < length positions.now) × (3 * e.peer + 3 ≤ length words.now) }
    ensures answer { (starts : List ℕ) → at starts e.peer ≡ start_in words.now e.peer → result ≡ event_answer starts positions.now e }
{
    let peer = e.peer as usize;
    if positions[peer] < records::unlogged_send(e, 0) {
        return 22;
    }
    if loses_send(e, start_in(words, peer)) {
        return 23;
    }
    0
}

// The answer of a step of worker w that is not refused by the log's numbers, 14 or 16.
fn answer(log: &[u8], words: &[u32], positions: &[u32], w: usize) -> u32
    requires { (log_refusal log.now ≡ 0) × IsState (workers_of log.now) words.now positions.now }
    ensures answer { result ≡ machine_answer (workers_of log.now) words.now positions.now w }
{
    if event_log::worker_count(log) <= w {
        return 12;
    }
    let position = positions[w];
    if cut_in(words, w) <= position {
        return 21;
    }
    event_answer(words, positions, event_log::event_at(log, w, position + 1))
}

// A step of worker w over a state that was tested: its answer, and the position word of a done one.
fn advance(log: &[u8], words: &[u32], positions: &mut [u32], w: usize) -> u32
    requires { (log_refusal log.now ≡ 0) × IsState (workers_of log.now) words.now positions.old }
    ensures answer { result ≡ machine_answer (workers_of log.now) words.now positions.old w }
    ensures positions { positions.new ≡ machine_moved (workers_of log.now) words.now positions.old w }
{
    let refusal = answer(log, words, positions, w);
    if refusal == 0 {
        positions[w] += 1;
    }
    refusal
}

// One step of a worker: 0 and one position more, or the number of its refusal and no change.
pub fn step(log: &[u8], words: &[u32], positions: &mut [u32], worker: u32) -> u32
    ensures left { left result (positions.new ∷ []) ≡ step_call (given log.now) words.now positions.old worker }
{
    let refusal = step_refusal(log, words, positions, worker);
    if refusal != 0 {
        return refusal;
    }
    advance(log, words, positions, worker as usize)
}
