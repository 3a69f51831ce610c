// Refusals 12 to 15, and the chains of refusals that the calls share.
#![tactic(auto)]

ghost use Rattle.std.specs.Prelude.{◌≡◌, ◌≤◌};
ghost use Rattle.event_log.specs.Header.{layout_refusal};
ghost use Rattle.event_log.specs.Limits.{max_workers};
ghost use Rattle.event_log.specs.Layout.{workers_of};
ghost use Rattle.accept.specs.Refusal.{given};
ghost use Rattle.refusals.specs.Refusals.{worker_refusal, event_refusal, scratch_words, scratch_refusal, event_in_refusal, breakpoint_refusal, line_refusal, search_refusal};

// Refusal 12.
pub fn worker_refusal(log: &[u8], worker: u32) -> u32
    requires { layout_refusal log.now ≡ 0 }
    ensures answer { result ≡ worker_refusal (workers_of log.now) worker }
{
    if event_log::worker_count(log) <= worker as usize {
        return 12;
    }
    0
}

// Refusal 13.
fn event_refusal(log: &[u8], w: usize, event: u32) -> u32
    requires { layout_refusal log.now ≡ 0 }
    ensures answer { result ≡ event_refusal (workers_of log.now) w event }
{
    if event == 0 || event_log::event_count(log, w) < event {
        return 13;
    }
    0
}

// The fewest words of scratch for n workers.
fn scratch_words(n: usize) -> usize
    requires { n ≤ max_workers }
    ensures answer { result ≡ scratch_words n }
{
    if n == 1 {
        return 1;
    }
    2 * n
}

// Refusal 15.
fn scratch_refusal(log: &[u8], lent: usize) -> u32
    requires { layout_refusal log.now ≡ 0 }
    ensures answer { result ≡ scratch_refusal (workers_of log.now) lent }
{
    lent::short_scratch(lent, scratch_words(event_log::worker_count(log)))
}

// Refusals 12 and 13.
pub fn event_in_refusal(log: &[u8], worker: u32, event: u32) -> u32
    requires { layout_refusal log.now ≡ 0 }
    ensures answer { result ≡ event_in_refusal (workers_of log.now) worker event }
{
    lent::or_else(
        worker_refusal(log, worker),
        event_refusal(log, worker as usize, event),
    )
}

// The log's refusals, then 12 and 13, of a call for an event.
pub fn breakpoint_refusal(log: &[u8], worker: u32, event: u32) -> u32
    ensures answer { result ≡ breakpoint_refusal (given log.now) worker event }
{
    let refusal = accept::accept(log);
    if refusal != 0 {
        return refusal;
    }
    event_in_refusal(log, worker, event)
}

// The log's refusals, then 12 to 14, of a call that writes `each` words for each worker into `words` lent ones; `others` is the refusal of what else is lent.
pub fn line_refusal(
    log: &[u8],
    worker: u32,
    event: u32,
    each: u32,
    words: usize,
    others: u32,
) -> u32
    ensures answer { result ≡ line_refusal (given log.now) worker event each words others }
{
    let refusal = breakpoint_refusal(log, worker, event);
    if refusal != 0 {
        return refusal;
    }
    let needed = (each as usize) * event_log::worker_count(log);
    lent::or_else(lent::words_refusal(words, needed), others)
}

// The log's refusals, then 12 to 15, of a call that is lent scratch too.
pub fn search_refusal(
    log: &[u8],
    worker: u32,
    event: u32,
    each: u32,
    words: usize,
    others: u32,
    scratch: usize,
) -> u32
    ensures answer { result ≡ search_refusal (given log.now) worker event each words others scratch }
{
    let refusal = line_refusal(log, worker, event, each, words, others);
    if refusal != 0 {
        return refusal;
    }
    scratch_refusal(log, scratch)
}
