// The records of a log: the form that says how they are read, the kinds of an event, the mark of a withdrawn checkpoint, and the readers of
// one record.
#![tactic(auto)]

ghost use Rattle.std.specs.Prelude.{◌≡◌, ◌+◌, ◌*◌, ◌≤◌, length, get_or};
ghost use Rattle.records.specs.Forms.{is_form, marks_withdrawn, receives_once};
ghost use Rattle.records.specs.Kind.{kind_number, column, record_table};
ghost use Rattle.records.specs.Mark.{has_mark, without_mark};
ghost use Rattle.records.specs.Event.{no_event, is_send, is_unlogged, is_receive, received, unlogged_send, kind_byte, event_record};
ghost use Rattle.records.specs.Checkpoint.{initial, checkpoint_record};

// The forms of a log. In the second one a send is received at most once, and a checkpoint may be marked as withdrawn.
const FIRST_FORM: u32 = 1;

const SECOND_FORM: u32 = 2;

// The form of an interval log, which no call takes.
pub const THIRD_FORM: u32 = 3;

// The bytes of a record.
pub const EVENT_SIZE: usize = 12;

pub const CHECKPOINT_SIZE: usize = 8;

// The top bit of an identifier word, the mark of a withdrawn checkpoint.
const MARK: u32 = 2147483648;

// The kind of an event: a case for each kind of the record table, a send, a receive without its data logged and one with it, and one for
// all the rest.
#[derive(Clone, Copy, PartialEq, Eq)]
pub enum Kind {
    Send,
    Unlogged,
    Logged,
    Rest,
}

// An event: `send` is the index of the send that a receive names, and 0 for a send.
#[derive(Clone, Copy)]
pub struct Event {
    pub kind: Kind,
    pub peer: u8,
    pub spare: u32,
    pub send: u32,
    pub stamp: u32,
}

// The state of a worker after `index` events. A withdrawn one has its record alone.
#[derive(Clone, Copy)]
pub struct Checkpoint {
    pub index: u32,
    pub identifier: u32,
    pub withdrawn: bool,
}

// Whether this is one of the forms.
#[tactic(auto, unfolding(crate::specs::Forms::is_form))]
pub fn is_form(form: u32) -> bool
    ensures answer { result ≡ is_form form }
{
    form == FIRST_FORM || form == SECOND_FORM
}

// Whether a send is received at most once in a log of this form.
pub fn receives_once(form: u32) -> bool
    ensures answer { result ≡ receives_once form }
{
    form == SECOND_FORM
}

// Record k, from 0, of a section of events.
pub fn event_record(part: &[u8], k: usize) -> Event
    requires { 12 * k + 12 ≤ length part.now }
    ensures answer { result ≡ event_record part.now k }
    ensures kind { result.kind ≡ get_or record_table (kind_byte part.now k) Kind.Rest }
{
    let at = EVENT_SIZE * k;
    let byte = part[at];
    let kind = match byte {
        1 => Kind::Send,
        2 => Kind::Unlogged,
        3 => Kind::Logged,
        _ => Kind::Rest,
    };
    Event {
        kind,
        peer: part[at + 1],
        spare: bytes_le::read::<2>(part, at + 2),
        send: bytes_le::read::<4>(part, at + 4),
        stamp: bytes_le::read::<4>(part, at + 8),
    }
}

// Whether the identifier words of a log of this form have a mark.
fn marks_withdrawn(form: u32) -> bool
    ensures answer { result ≡ marks_withdrawn form }
{
    form == SECOND_FORM
}

// Whether an identifier word of a log of this form has the mark.
#[tactic(auto, unfolding(crate::specs::Mark::has_mark))]
fn has_mark(form: u32, word: u32) -> bool
    ensures answer { result ≡ has_mark form word }
{
    marks_withdrawn(form) && MARK <= word
}

// The identifier that an identifier word of a log of this form has.
#[tactic(auto, unfolding(crate::specs::Mark::without_mark))]
fn without_mark(form: u32, word: u32) -> u32
    ensures answer { result ≡ without_mark form word }
{
    if marks_withdrawn(form) {
        word % MARK
    } else {
        word
    }
}

// Record k, from 0, of a section of checkpoints of a log of this form.
pub fn checkpoint_record(form: u32, part: &[u8], k: usize) -> Checkpoint
    requires { 8 * k + 8 ≤ length part.now }
    ensures answer { result ≡ checkpoint_record form part.now k }
{
    let at = CHECKPOINT_SIZE * k;
    let word = bytes_le::read::<4>(part, at + 4);
    Checkpoint {
        index: bytes_le::read::<4>(part, at),
        identifier: without_mark(form, word),
        withdrawn: has_mark(form, word),
    }
}

pub fn no_event() -> Event
    ensures answer { result ≡ no_event }
{
    Event {
        kind: Kind::Rest,
        peer: 0,
        spare: 0,
        send: 0,
        stamp: 0,
    }
}

// The initial state.
pub fn initial() -> Checkpoint
    ensures answer { result ≡ initial }
{
    Checkpoint {
        index: 0,
        identifier: 0,
        withdrawn: false,
    }
}

// Whether an event is a send, a receive without its data, a receive.
#[tactic(auto, unfolding(crate::specs::Event::is_send))]
pub fn is_send(e: Event) -> bool
    ensures answer { result ≡ is_send e }
{
    e.kind == Kind::Send
}

#[tactic(auto, unfolding(crate::specs::Event::is_unlogged))]
pub fn is_unlogged(e: Event) -> bool
    ensures answer { result ≡ is_unlogged e }
{
    e.kind == Kind::Unlogged
}

#[tactic(auto, unfolding(crate::specs::Event::is_receive, crate::specs::Event::is_unlogged, crate::specs::Event::is_logged))]
pub fn is_receive(e: Event) -> bool
    ensures answer { result ≡ is_receive e }
{
    matches!(e.kind, Kind::Unlogged | Kind::Logged)
}

// The messages that an event receives: 1 for a receive, else 0.
#[tactic(auto, unfolding(crate::specs::Event::received))]
pub fn received(e: Event) -> u32
    ensures answer { result ≡ received e }
    ensures few { result ≤ 1 }
{
    u32::from(is_receive(e))
}

// The column of the table of units for a kind. That of the rest is behind the last one.
pub fn column(kind: Kind) -> u32
    ensures answer { result ≡ column kind }
{
    match kind {
        Kind::Send => 0,
        Kind::Unlogged => 1,
        Kind::Logged => 2,
        Kind::Rest => 3,
    }
}

// The number of a kind, which is the byte that a record has for it. That of the rest is the number of no kind.
pub fn kind_number(kind: Kind) -> u8
    ensures answer { result ≡ kind_number kind }
{
    (column(kind) + 1) as u8
}

// A number above every index.
pub const NO_SEND: u32 = 4294967295;

// The send that a receive without its data names, and `otherwise` for any other event: one comparison then serves every kind.
#[tactic(auto, unfolding(crate::specs::Event::unlogged_send))]
pub fn unlogged_send(e: Event, otherwise: u32) -> u32
    ensures answer { result ≡ unlogged_send e otherwise }
{
    if is_unlogged(e) { e.send } else { otherwise }
}
