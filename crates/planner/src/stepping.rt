// The step calls of a list over the words of a plan.

ghost use Rattle.std.specs.Prelude.{◌≡◌, ◌∷◌, ◌+◌, ◌*◌, length};
ghost use Rattle.event_log.specs.Layout.{workers_of};
ghost use Rattle.event_log.specs.Model.{worker_count};
ghost use Rattle.accept.specs.Refusal.{log_refusal};
ghost use Rattle.cost.specs.Words.{starts_in};
ghost use Rattle.replay_machine.specs.Machine.{listed, step_words};
ghost use Rattle.replay_machine.specs.Calls.{machine_run, machine_after};
ghost use Rattle.replay_machine.specs.Inner.State.{IsState};

// Stores a call's answer and the positions after it.
fn store(answer: u32, positions: &[u32], part: &mut [u32])
    requires { length part.old ≡ length positions.now + 1 }
    ensures part { part.new ≡ answer ∷ positions.now }
{
    part[0] = answer;
    lent::copy(positions, &mut part[1..]);
}

// One call of `step` for each number of the list, with what each leaves.
fn step_each(log: &[u8], words: &[u32], workers: &[u32], positions: &mut [u32], steps: &mut [u32])
    requires { (log_refusal log.now ≡ 0) × IsState (workers_of log.now) words.now positions.old
        × (length positions.old ≡ worker_count (workers_of log.now)) × (length steps.old ≡ length workers.now * (worker_count (workers_of log.now) + 1)) }
    ensures steps { steps.new ≡ listed step_words (machine_run (workers_of log.now) words.now positions.old workers.now) }
    ensures positions { positions.new ≡ machine_after (workers_of log.now) words.now positions.old workers.now }
{
    let width = positions.len() + 1;
    // By place: of parts lent out by chunks_exact_mut a proof knows nothing afterwards.
    for (j, worker) in workers.iter().enumerate() {
        let answer = crate::step(log, words, positions, *worker);
        let at = j * width;
        store(answer, positions, &mut steps[at..at + width]);
    }
}

// Puts the positions at the starts of plan words, and makes one call of `step` for each number of the list.
pub(crate) fn replay_words(
    log: &[u8],
    words: &[u32],
    workers: &[u32],
    positions: &mut [u32],
    steps: &mut [u32],
)
    requires { (log_refusal log.now ≡ 0) × IsState (workers_of log.now) words.now (starts_in (workers_of log.now) words.now)
        × (length positions.old ≡ worker_count (workers_of log.now)) × (length steps.old ≡ length workers.now * (worker_count (workers_of log.now) + 1)) }
    ensures steps { steps.new
        ≡ listed step_words (machine_run (workers_of log.now) words.now (starts_in (workers_of log.now) words.now) workers.now) }
    ensures positions { positions.new
        ≡ machine_after (workers_of log.now) words.now (starts_in (workers_of log.now) words.now) workers.now }
{
    cost::write_starts(words, positions);
    step_each(log, words, workers, positions, steps);
}
