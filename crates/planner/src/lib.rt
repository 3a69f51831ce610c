// The calls of the dashboard, on numbers and slices.
#![tactic(auto)]

mod stepping;

ghost use Rattle.std.specs.Prelude.{◌≡◌, List, [], ◌∷◌, ℕ, ◌+◌, ◌*◌, ◌≤◌, length, take};
ghost use Rattle.lent.specs.Lent.{at, words_refusal, unless_refused, KeptIfRefused, left, word_of};
ghost use Rattle.records.specs.Forms.{second_form};
ghost use Rattle.event_log.specs.Layout.{form_field, workers_of, log_of};
ghost use Rattle.event_log.specs.Model.{worker_count};
ghost use Rattle.repeats.specs.Repeats.{ReceivedOnce, ReceivedTwice};
ghost use Rattle.accept.specs.Refusal.{log_refusal, given};
ghost use Rattle.pack.specs.Calls.{pack_call};
ghost use Rattle.pack.specs.Archive.{Archived};
ghost use Rattle.intervals.specs.Converted.{Converted};
ghost use Rattle.causality.specs.Calls.{TellsConsistent};
ghost use Rattle.covering.specs.Covering.{CoversWhenStartable};
ghost use Rattle.covering.specs.Withdrawn.{CoversNoneWithdrawn};
ghost use Rattle.unit_table.specs.Table.{table_words, table_of, built_in_words, table_refusal, built_in_call};
ghost use Rattle.restore_plan.specs.Calls.{plan_total_words};
ghost use Rattle.restore_plan.specs.Floor.{Floor};
ghost use Rattle.restore_plan.specs.Shown.{Shown};
ghost use Rattle.restore_plan.specs.AsBefore.{AsBefore};
ghost use Rattle.sheet.specs.Calls.{sheet_call};
ghost use Rattle.sheet.specs.Summed.{Summed};
ghost use Rattle.replay_machine.specs.Calls.{others_refusal};
ghost use Rattle.replay_machine.specs.Demand3.{Demand3};
ghost use Rattle.planner.specs.Answers.{answers_to, SameAnswers, AnsweredAlike};

use causality::Test;

// 0 for an accepted log, else the number that refuses it.
pub fn log_refusal(log: &[u8]) -> u32
    ensures answer { result ≡ log_refusal log.now }
    ensures once { result ≡ 0 → form_field log.now ≡ second_form → ReceivedOnce (workers_of log.now) }
    ensures twice { result ≡ 24 → (form_field log.now ≡ second_form) × ReceivedTwice (workers_of log.now) }
    ensures same { (t : List ℕ) → SameAnswers log.now t }
{
    accept::accept(log)
}

// Writes the packed log of an accepted log into lent bytes, and the number of bytes written to the first word of `written`.
pub fn pack(log: &[u8], out: &mut [u8], written: &mut [u64]) -> u32
    ensures left { left result (out.new ∷ written.new ∷ [])
        ≡ pack_call (given log.now) (log_of log.now) out.old written.old }
    ensures archived { result ≡ 0 → Archived log.now (take (at written.new 0) out.new) }
    ensures alike { result ≡ 0 → AnsweredAlike (take (at written.new 0) out.new) log.now }
{
    let others = lent::words_refusal(written.len(), 1);
    let packed = pack::pack(log, others, out);
    let refusal = packed.refusal;
    if refusal != 0 {
        return refusal;
    }
    written[0] = packed.written;
    0
}

// Writes the interval log of an accepted log into lent bytes, and the number of bytes written to the first word of `written`.
pub fn intervals(log: &[u8], out: &mut [u8], written: &mut [u64]) -> u32
    ensures left { left result (out.new ∷ written.new ∷ [])
        ≡ (answers_to (given log.now)).of_intervals out.old written.old }
    ensures converted { result ≡ 0 → Converted log.now (take (at written.new 0) out.new) }
{
    let others = lent::words_refusal(written.len(), 1);
    let converted = interval_log::intervals(log, others, out);
    let refusal = converted.refusal;
    if refusal != 0 {
        return refusal;
    }
    written[0] = converted.written;
    0
}

// The dependency vector of an event.
pub fn vector(log: &[u8], worker: u32, event: u32, words: &mut [u32]) -> u32
    ensures left { left result (words.new ∷ []) ≡ (answers_to (given log.now)).of_vector worker event words.old }
{
    causality::vector(log, worker, event, words)
}

// The upper line of a breakpoint event.
pub fn upper_line(log: &[u8], worker: u32, event: u32, words: &mut [u32]) -> u32
    ensures left { left result (words.new ∷ []) ≡ (answers_to (given log.now)).of_upper_line worker event words.old }
{
    upper_line::upper_line(log, worker, event, words)
}

// The lower cut of a breakpoint event; the totals are its visits and its workers word.
pub fn lower_cut(
    log: &[u8],
    worker: u32,
    event: u32,
    words: &mut [u32],
    scratch: &mut [u32],
    totals: &mut [u64],
) -> u32
    ensures left { left result (words.new ∷ totals.new ∷ [])
        ≡ (answers_to (given log.now)).of_lower_cut worker event words.old (length scratch.old) totals.old }
    ensures kept { KeptIfRefused result scratch.old scratch.new }
{
    let others = lent::words_refusal(totals.len(), lower_cut::CUT_TOTALS);
    let found = lower_cut::lower_cut(log, worker, event, others, words, scratch);
    let refusal = found.refusal;
    if refusal != 0 {
        return refusal;
    }
    lower_cut::write_cut(totals, found);
    0
}

// 0 for a unit table that loads, else 27.
pub fn load_table(table: &[u32]) -> u32
    ensures answer { result ≡ table_refusal table.now }
{
    unit_table::table_refusal(table)
}

// Writes the 12 words of the built-in table.
pub fn built_in_table(table: &mut [u32]) -> u32
    ensures left { left result (table.new ∷ []) ≡ built_in_call table.old }
    ensures loads { result ≡ 0 → table_refusal (take table_words table.new) ≡ 0 }
{
    let refusal = lent::words_refusal(table.len(), unit_table::TABLE_WORDS);
    if refusal != 0 {
        return refusal;
    }
    unit_table::write_built_in(&mut table[..unit_table::TABLE_WORDS]);
    0
}

// The plan of a breakpoint event, with its units by the unit table; the totals are its visits, events, units and workers word.
pub fn plan(
    log: &[u8],
    worker: u32,
    event: u32,
    table: &[u32],
    words: &mut [u32],
    scratch: &mut [u32],
    totals: &mut [u64],
) -> u32
    ensures left { left result (words.new ∷ totals.new ∷ []) ≡ (answers_to (given log.now)).of_plan worker event table.now
        words.old (length scratch.old) totals.old }
    ensures kept { KeptIfRefused result scratch.old scratch.new }
    ensures floor { result ≡ 0 → Floor (workers_of log.now) worker event (take (3 * worker_count (workers_of log.now)) words.new) }
    ensures shown { result ≡ 0 → Shown (log_of log.now) (take (3 * worker_count (workers_of log.now)) words.new) }
    ensures before { table.now ≡ built_in_words → AsBefore (given log.now) worker event (length words.old)
        (words_refusal (length totals.old) plan_total_words) (length scratch.old) result totals.old totals.new }
{
    let others = lent::words_refusal(totals.len(), restore_plan::PLAN_TOTALS);
    let found = restore::plan(log, worker, event, table, others, words, scratch);
    let refusal = found.refusal;
    if refusal != 0 {
        return refusal;
    }
    restore::write_plan(totals, found);
    0
}

// The sheet of a list of breakpoints: for each worker the replayed events and units, summed over their plans, and the number of plans that
// replay an event of it.
pub fn sheet(log: &[u8], list: &[u32], table: &[u32], sheet: &mut [u64], scratch: &mut [u32]) -> u32
    ensures left { left result (sheet.new ∷ []) ≡ sheet_call (given log.now) list.now table.now
        sheet.old (length scratch.old) }
    ensures kept { KeptIfRefused result scratch.old scratch.new }
    ensures summed { result ≡ 0 → Summed (table_of table.now) (workers_of log.now) list.now
        (take (3 * worker_count (workers_of log.now)) sheet.new) }
{
    sheet::sheet(log, list, table, sheet, scratch)
}

// Writes what a test found, where it was not refused.
fn write_answer(test: Test, answer: &mut [u32]) -> u32
    requires { test.refusal ≡ 0 → 1 ≤ length answer.old }
    ensures answer { result ≡ test.refusal }
    ensures word { answer.new ≡ unless_refused test.refusal (word_of test.yes ∷ []) answer.old }
{
    let refusal = test.refusal;
    if refusal != 0 {
        return refusal;
    }
    answer[0] = u32::from(test.yes);
    0
}

// The cut test; the answer is 1 where the first n words are a consistent cut, else 0.
pub fn cut_test(log: &[u8], words: &[u32], answer: &mut [u32]) -> u32
    ensures left { left result (answer.new ∷ []) ≡ (answers_to (given log.now)).of_cut_test words.now answer.old }
    ensures exactly { result ≡ 0 → TellsConsistent (workers_of log.now) words.now (at answer.new 0) }
{
    let others = lent::words_refusal(answer.len(), 1);
    write_answer(causality::cut_test(log, words, others), answer)
}

// Whether the checkpoints with this identifier are a covering set; the answer is 1 where they are, else 0.
pub fn covers(log: &[u8], identifier: u32, answer: &mut [u32]) -> u32
    ensures left { left result (answer.new ∷ []) ≡ (answers_to (given log.now)).of_covers identifier answer.old }
    ensures exactly { result ≡ 0 → CoversWhenStartable (workers_of log.now) identifier (at answer.new 0) }
    ensures withdrawn { result ≡ 0 → CoversNoneWithdrawn (log_of log.now) identifier (at answer.new 0) }
{
    let others = lent::words_refusal(answer.len(), 1);
    write_answer(covering::covers(log, identifier, others), answer)
}

// One step of a worker, over the words of a plan.
pub fn step(log: &[u8], words: &[u32], positions: &mut [u32], worker: u32) -> u32
    ensures left { left result (positions.new ∷ []) ≡ (answers_to (given log.now)).of_step words.now positions.old worker }
{
    replay::step(log, words, positions, worker)
}

// A step for each number of a list.
pub fn steps(
    log: &[u8],
    words: &[u32],
    positions: &mut [u32],
    workers: &[u32],
    answers: &mut [u32],
) -> u32
    ensures left { left result (positions.new ∷ answers.new ∷ [])
        ≡ (answers_to (given log.now)).of_steps words.now positions.old workers.now answers.old }
{
    replay::list::steps(log, words, positions, workers, answers)
}

// The plan of a breakpoint event, and one call of `step` for each number of a list from the planned starts: demand 3. For each call its
// answer and then the n positions stand in `steps`.
pub fn restore_and_replay(
    log: &[u8],
    worker: u32,
    event: u32,
    workers: &[u32],
    table: &[u32],
    words: &mut [u32],
    scratch: &mut [u32],
    positions: &mut [u32],
    steps: &mut [u32],
    totals: &mut [u64],
) -> u32
    ensures left { left result (words.new ∷ positions.new ∷ steps.new ∷ totals.new ∷ [])
        ≡ (answers_to (given log.now)).of_restore worker event workers.now table.now words.old (length scratch.old)
        positions.old steps.old totals.old }
    ensures kept { KeptIfRefused result scratch.old scratch.new }
    ensures demand3 { result ≡ 0 → Demand3 (workers_of log.now) worker event (table_of table.now) workers.now (take plan_total_words totals.new)
        (take (3 * worker_count (workers_of log.now)) words.new) (take (worker_count (workers_of log.now)) positions.new)
        (take (length workers.now * (worker_count (workers_of log.now) + 1)) steps.new) }
    ensures floor { result ≡ 0 → Floor (workers_of log.now) worker event
        (take (3 * worker_count (workers_of log.now)) words.new) }
    ensures before { table.now ≡ built_in_words → AsBefore (given log.now) worker event
        (length words.old) (others_refusal (workers_of log.now) (length workers.now) (length positions.old) (length steps.old) (length totals.old))
        (length scratch.old) result totals.old totals.new }
{
    let refusal = replay::list::restore_refusal(
        log,
        worker,
        event,
        workers.len(),
        table,
        words.len(),
        scratch.len(),
        positions.len(),
        steps.len(),
        totals.len(),
    );
    if refusal != 0 {
        return refusal;
    }
    plan(log, worker, event, table, words, scratch, totals);
    let n = event_log::worker_count(log);
    let planned = 3 * n;
    let stepped = workers.len() * (n + 1);
    stepping::replay_words(
        log,
        &words[..planned],
        workers,
        &mut positions[..n],
        &mut steps[..stepped],
    );
    0
}
