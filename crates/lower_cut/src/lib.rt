// The lower cut of a breakpoint event, with the visits made and the workers word.
#![tactic(auto, using(accept::proofs::Accepted::accepted_layout))]

mod figure2;

ghost use Rattle.std.specs.Prelude.{◌≡◌, ◌<◌, ◌≤◌, length};
ghost use Rattle.lent.specs.Lent.{onto, unless_refused, KeptIfRefused};
ghost use Rattle.event_log.specs.Layout.{workers_of};
ghost use Rattle.event_log.specs.Model.{worker_count, IsEvent};
ghost use Rattle.accept.specs.Refusal.{log_refusal, given};
ghost use Rattle.lower_cut.specs.Figure2.{figure2, lower_cut};
ghost use Rattle.refusals.specs.Refusals.{search_refusal};
ghost use Rattle.lower_cut.specs.Workers.{bit_of, workers_word};
ghost use Rattle.lower_cut.specs.Calls.{found_cut, cut_answer, cut_total_words, cut_totals};

// The words that the exported lower cut is lent for what it returns.
pub const CUT_TOTALS: usize = 2;

// What the lower cut returns beside its words.
#[derive(Clone, Copy)]
pub struct Cut {
    pub refusal: u32,
    pub visits: u64,
    pub workers: u64,
}

// The lower cut of an event, in as many words as there are workers, and the visits made. The scratch has n words or more.
fn cut_into(log: &[u8], i: usize, event: u32, cut: &mut [u32], scratch: &mut [u32]) -> u64
    requires { (log_refusal log.now ≡ 0) × (length cut.old ≡ worker_count (workers_of log.now)) × (i < worker_count (workers_of log.now)) × IsEvent (workers_of log.now) i event
        × (worker_count (workers_of log.now) ≤ length scratch.old) }
    ensures cut { cut.new ≡ lower_cut (workers_of log.now) i event }
    ensures answer { result ≡ (figure2 (workers_of log.now) i event).visits }
{
    cut.fill(0);
    cut[i] = event;
    figure2::visit(log, i, 0, event, cut, scratch, 0)
}

// The workers word of a finished cut.
fn workers_word(cut: &[u32]) -> u64
    requires { length cut.now ≤ 64 }
    ensures answer { result ≡ workers_word cut.now (length cut.now) }
{
    let mut word: u64 = 0;
    for (w, events) in cut.iter().enumerate() {
        if *events != 0 {
            word |= 1u64 << w;
        }
    }
    word
}

// The lower cut of an event, in as many words as there are workers, with what the call returns.
pub fn found_cut(log: &[u8], i: usize, event: u32, cut: &mut [u32], scratch: &mut [u32]) -> Cut
    requires { (log_refusal log.now ≡ 0) × (length cut.old ≡ worker_count (workers_of log.now)) × (i < worker_count (workers_of log.now)) × IsEvent (workers_of log.now) i event
        × (worker_count (workers_of log.now) ≤ length scratch.old) }
    ensures answer { result ≡ found_cut (workers_of log.now) i event }
    ensures cut { cut.new ≡ lower_cut (workers_of log.now) i event }
{
    let visits = cut_into(log, i, event, cut, scratch);
    Cut {
        refusal: 0,
        visits,
        workers: workers_word(cut),
    }
}

// The lower cut of an event: its refusal, or the cut in the first n words with the visits made and the workers word. `others` is the
// refusal of what else the caller was lent.
pub fn lower_cut(
    log: &[u8],
    worker: u32,
    event: u32,
    others: u32,
    words: &mut [u32],
    scratch: &mut [u32],
) -> Cut
    ensures refused { result.refusal ≡ search_refusal (given log.now) worker event 1 (length words.old) others (length scratch.old) }
    ensures answer { result ≡ cut_answer result.refusal (workers_of log.now) worker event }
    ensures words { words.new ≡ unless_refused result.refusal (lower_cut (workers_of log.now) worker event) words.old }
    ensures kept { KeptIfRefused result.refusal scratch.old scratch.new }
{
    let refusal = refusals::search_refusal(
        log,
        worker,
        event,
        1,
        words.len(),
        others,
        scratch.len(),
    );
    if refusal != 0 {
        return Cut {
            refusal,
            visits: 0,
            workers: 0,
        };
    }
    let n = event_log::worker_count(log);
    found_cut(log, worker as usize, event, &mut words[..n], scratch)
}

// Writes what the lower cut returns.
pub fn write_cut(totals: &mut [u64], cut: Cut)
    requires { cut_total_words ≤ length totals.old }
    ensures totals { totals.new ≡ onto (cut_totals cut) totals.old }
{
    totals[0] = cut.visits;
    totals[1] = cut.workers;
}
