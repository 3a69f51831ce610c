// Every log is accepted, or refused by the first number of 1 to 11 and 24 that applies.
#![tactic(auto)]

ghost use Rattle.std.specs.Prelude.{◌≡◌};
ghost use Rattle.event_log.specs.Header.{layout_refusal};
ghost use Rattle.records.specs.Forms.{second_form};
ghost use Rattle.event_log.specs.Layout.{form_field, workers_of, log_of};
ghost use Rattle.repeats.specs.Repeats.{ReceivedOnce, ReceivedTwice};
ghost use Rattle.accept.specs.Refusal.{events_refusal, records_refusal, content_refusal, log_refusal};

use record_tests::RecordTest;

// Tests 7 to 10: the number of the first that fails, or 0.
fn events_refusal(log: &[u8]) -> u32
    requires { layout_refusal log.now ≡ 0 }
    ensures answer { result ≡ events_refusal (workers_of log.now) }
{
    if !event_pass::some_event(log) {
        return 0;
    }
    if record_tests::some_record(log, RecordTest::Fields) {
        return 7;
    }
    if record_tests::some_record(log, RecordTest::Stamps) {
        return 8;
    }
    if record_tests::some_record(log, RecordTest::Sources) {
        return 9;
    }
    if record_tests::some_record(log, RecordTest::Orders) {
        return 10;
    }
    0
}

// Tests 7 to 11: the number of the first that fails, or 0.
fn records_refusal(log: &[u8]) -> u32
    requires { layout_refusal log.now ≡ 0 }
    ensures answer { result ≡ records_refusal (workers_of log.now) }
{
    let refusal = events_refusal(log);
    if refusal != 0 {
        return refusal;
    }
    if record_tests::some_record(log, RecordTest::Checkpoints) {
        return 11;
    }
    0
}

// Tests 7 to 11 and 24: the number of the first that fails, or 0.
fn content_refusal(log: &[u8]) -> u32
    requires { layout_refusal log.now ≡ 0 }
    ensures answer { result ≡ content_refusal (log_of log.now) }
{
    let refusal = records_refusal(log);
    if refusal != 0 {
        return refusal;
    }
    if repeats::repeat_fault(log) {
        return 24;
    }
    0
}

// 0 for an accepted log, else the number that refuses it.
pub fn accept(log: &[u8]) -> u32
    ensures answer { result ≡ log_refusal log.now }
    ensures once { result ≡ 0 → form_field log.now ≡ second_form → ReceivedOnce (workers_of log.now) }
    ensures twice { result ≡ 24 → (form_field log.now ≡ second_form) × ReceivedTwice (workers_of log.now) }
{
    let refusal = event_log::layout_refusal(log);
    if refusal != 0 {
        return refusal;
    }
    content_refusal(log)
}
