// The checkpoints that may be chosen, and the sends that a start loses.
#![tactic(auto)]

ghost use Rattle.std.specs.Prelude.{◌≡◌, ◌≤◌};
ghost use Rattle.event_log.specs.Layout.{workers_of};
ghost use Rattle.accept.specs.Refusal.{log_refusal};
ghost use Rattle.choice.specs.Choice.{may_choose, loses_send};
ghost use Rattle.choice.specs.Inner.Compared.{above_starts};

use records::Event;

// Whether checkpoint c of worker w may be chosen.
pub fn may_choose(log: &[u8], w: usize, c: u32) -> bool
    requires { log_refusal log.now ≡ 0 }
    ensures answer { result ≡ may_choose (workers_of log.now) w c }
{
    c <= event_log::checkpoint_count(log, w) && !event_log::checkpoint_at(log, w, c).withdrawn
}

// 0 for a receive without its data, and a number above every start for any other event.
fn above_starts(e: Event) -> u64
    ensures answer { result ≡ above_starts e }
    ensures few { result ≤ 4294967296 }
{
    if records::is_unlogged(e) {
        return 0;
    }
    4294967296
}

// Whether event e is a receive that loses its send where the sender starts at `start`. One comparison serves every kind.
pub fn loses_send(e: Event, start: u32) -> bool
    ensures answer { result ≡ loses_send e start }
{
    above_starts(e) + u64::from(e.send) <= u64::from(start)
}
