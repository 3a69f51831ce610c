// Lists of breakpoints: two words each, worker and event.
#![tactic(auto)]

ghost use Rattle.std.specs.Prelude.{◌≡◌, ◌+◌, ◌*◌, ◌≤◌, length};
ghost use Rattle.event_log.specs.Header.{layout_refusal};
ghost use Rattle.event_log.specs.Layout.{workers_of};
ghost use Rattle.accept.specs.Refusal.{given};
ghost use Rattle.breakpoints.specs.Breakpoints.{listed_worker, listed_event, breakpoint_count, length_refusal, earliest_refusal, list_refusal};

// The most breakpoints of a list.
const MAX_BREAKPOINTS: usize = 1024;

// How many breakpoints a list has.
pub fn count(list: &[u32]) -> usize
    ensures answer { result ≡ breakpoint_count list.now }
{
    list.len() / 2
}

// The worker of breakpoint k.
pub fn worker_of(list: &[u32], k: usize) -> u32
    requires { 2 * k + 2 ≤ length list.now }
    ensures answer { result ≡ listed_worker list.now k }
{
    list[2 * k]
}

// The event of breakpoint k.
pub fn event_of(list: &[u32], k: usize) -> u32
    requires { 2 * k + 2 ≤ length list.now }
    ensures answer { result ≡ listed_event list.now k }
{
    list[2 * k + 1]
}

// Refusal 29.
fn length_refusal(words: usize) -> u32
    ensures answer { result ≡ length_refusal words }
{
    if words % 2 == 1 || 2 * MAX_BREAKPOINTS < words {
        return 29;
    }
    0
}

// Refusal 12 or 13 of the first breakpoint that has one.
fn earliest_refusal(log: &[u8], list: &[u32]) -> u32
    requires { layout_refusal log.now ≡ 0 }
    ensures answer { result ≡ earliest_refusal (workers_of log.now) list.now }
{
    let all = count(list);
    for k in 0..all {
        let refusal = refusals::event_in_refusal(log, worker_of(list, k), event_of(list, k));
        if refusal != 0 {
            return refusal;
        }
    }
    0
}

// The log's refusals, then 29, then 12 or 13 of the first breakpoint that has one.
pub fn list_refusal(log: &[u8], list: &[u32]) -> u32
    ensures answer { result ≡ list_refusal (given log.now) list.now }
{
    let refusal = accept::accept(log);
    if refusal != 0 {
        return refusal;
    }
    let length = length_refusal(list.len());
    if length != 0 {
        return length;
    }
    earliest_refusal(log, list)
}
