// A step for each number of a list, and the refusals of a plan with such a list.

ghost use Rattle.std.specs.Prelude.{◌≡◌, [], ◌∷◌, ◌++◌, ◌≤◌, length, drop};
ghost use Rattle.lent.specs.Lent.{left};
ghost use Rattle.event_log.specs.Layout.{workers_of};
ghost use Rattle.accept.specs.Refusal.{log_refusal, given};
ghost use Rattle.replay_machine.specs.Machine.{listed, answer_word};
ghost use Rattle.replay_machine.specs.Calls.{steps_refusal, others_refusal, restore_refusal, machine_run, machine_after, steps_call};
ghost use Rattle.replay_machine.specs.Inner.State.{IsState};

// The log's refusals, then 14 and 16, of a list of steps.
fn steps_refusal(log: &[u8], words: &[u32], positions: &[u32], others: u32) -> u32
    ensures answer { result ≡ steps_refusal (given log.now) words.now positions.now others }
{
    let refusal = accept::accept(log);
    if refusal != 0 {
        return refusal;
    }
    crate::state_refusal(log, words, positions, others)
}

// One step for each number of the list, over a state that was tested. It is not made a part of its caller: so the loop has its pointers in
// registers, which the tests of the log and of the state would take from it.
#[inline(never)]
fn advance_each(
    log: &[u8],
    words: &[u32],
    positions: &mut [u32],
    workers: &[u32],
    answers: &mut [u32],
)
    requires { (log_refusal log.now ≡ 0) × IsState (workers_of log.now) words.now positions.old × (length workers.now ≤ length answers.old) }
    ensures answers { answers.new ≡ listed answer_word (machine_run (workers_of log.now) words.now positions.old workers.now)
        ++ drop (length workers.now) answers.old }
    ensures positions { positions.new ≡ machine_after (workers_of log.now) words.now positions.old workers.now }
{
    // By index: of words lent out by a zip over iter_mut a proof knows nothing afterwards.
    for (j, worker) in workers.iter().enumerate() {
        answers[j] = crate::advance(log, words, positions, *worker as usize);
    }
}

// A list of steps: its refusal, or 0 with each step's answer and the positions after the list.
pub fn steps(
    log: &[u8],
    words: &[u32],
    positions: &mut [u32],
    workers: &[u32],
    answers: &mut [u32],
) -> u32
    ensures left { left result (positions.new ∷ answers.new ∷ [])
        ≡ steps_call (given log.now) words.now positions.old workers.now answers.old }
{
    let others = lent::words_refusal(answers.len(), workers.len());
    let refusal = steps_refusal(log, words, positions, others);
    if refusal != 0 {
        return refusal;
    }
    advance_each(log, words, positions, workers, answers);
    0
}

// Refusal 14 for the totals, the positions and the words of the steps. Whether there are words for all steps is tested by a quotient, so
// that no product wraps.
fn others_refusal(log: &[u8], calls: usize, positions: usize, steps: usize, totals: usize) -> u32
    requires { log_refusal log.now ≡ 0 }
    ensures answer { result ≡ others_refusal (workers_of log.now) calls positions steps totals }
{
    let n = event_log::worker_count(log);
    let placed = lent::words_refusal(positions, n);
    let stepped = lent::words_refusal(steps / (n + 1), calls);
    lent::or_else(
        lent::words_refusal(totals, restore_plan::PLAN_TOTALS),
        lent::or_else(placed, stepped),
    )
}

// The log's refusals, then 12 to 15 and 27, of a plan with a list of step calls.
pub fn restore_refusal(
    log: &[u8],
    worker: u32,
    event: u32,
    calls: usize,
    table: &[u32],
    words: usize,
    scratch: usize,
    positions: usize,
    steps: usize,
    totals: usize,
) -> u32
    ensures answer { result ≡ restore_refusal (given log.now) worker event calls table.now words scratch positions steps totals }
{
    let refusal = accept::accept(log);
    if refusal != 0 {
        return refusal;
    }
    let others = others_refusal(log, calls, positions, steps, totals);
    restore::plan_refusal(log, worker, event, table, words, others, scratch)
}
