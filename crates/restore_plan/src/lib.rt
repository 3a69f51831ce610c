// The restore plan: its definitions and theorems, and what it returns.
#![tactic(auto)]

// The words of the plan of a log with as many workers as there may be.
pub const PLAN_WORDS: usize = 3 * event_log::MAX_WORKERS;

// The words that the exported plan is lent for what it returns.
pub const PLAN_TOTALS: usize = 4;

// What the plan returns beside its words.
#[derive(Clone, Copy)]
pub struct Totals {
    pub refusal: u32,
    pub visits: u64,
    pub events: u64,
    pub units: u64,
    pub workers: u64,
}
