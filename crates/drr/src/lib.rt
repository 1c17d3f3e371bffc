// The data of document 01's scheduler. Its definitions stand in specs/, and what holds of them in
// proofs/; the crates above compute with them.
#![tactic(auto)]

ghost use Rattle.std.specs.Prelude.{◌≡◌};
ghost use Rattle.drr.specs.Answers.{number_of};
ghost use Rattle.drr.specs.State.{common_in};

// Document 01's table of least and most, and what requests add to it (specs/Limits.antt).
pub const MOST_FLOWS: usize = 16;

pub const LEAST_QUANTUM: u32 = 1;

pub const MOST_QUANTUM: u32 = 65535;

pub const LEAST_MAXIMUM: u32 = 1;

pub const MOST_MAXIMUM: u32 = 9216;

pub const MOST_OVERHEAD: u32 = 64;

pub const MOST_WAITING: u8 = 32;

pub const MOST_EVENTS: usize = 1024;

// A flow as setup is given it.
#[repr(C)]
#[derive(Clone, Copy)]
pub struct FlowRecord {
    pub quantum: u32,
    pub maximum: u32,
}

// A list of flow records as it is carried: the first `count` of seventeen, one more than a table may
// have, so that a list too long is seen to be.
#[repr(C)]
#[derive(Clone, Copy)]
pub struct FlowList {
    pub records: [FlowRecord; 17],
    pub count: usize,
}

// What setup is told beside the list: the bytes that the line spends on each packet beside its own.
#[repr(C)]
#[derive(Clone, Copy)]
pub struct Terms {
    pub overhead: u32,
}

// The numbers of a table that are no flow's own.
#[derive(Clone, Copy)]
pub struct Common {
    pub n: usize,
    pub overhead: u32,
}

// What setup fixes: the number of flows, the overhead per packet, and each flow's quantum and maximum.
#[repr(C)]
#[derive(Clone, Copy)]
pub struct Table {
    pub n: usize,
    pub overhead: u32,
    pub quanta: [u32; 16],
    pub maxima: [u32; 16],
}

// The waiting lengths of one flow, oldest first.
#[repr(C)]
#[derive(Clone, Copy)]
pub struct Row {
    pub lengths: [u16; 32],
}

// What arrivals and picks move. In a sound line a flow's sum is that of its waiting lengths.
#[repr(C)]
#[derive(Clone, Copy)]
pub struct Line {
    pub deficits: [u32; 16],
    pub counts: [u8; 16],
    pub sums: [u32; 16],
    pub place: usize,
    pub opened: bool,
    pub rows: [Row; 16],
}

// All that a call is given and hands back: the table, and what moves.
#[repr(C)]
#[derive(Clone, Copy)]
pub struct State {
    pub table: Table,
    pub line: Line,
}

// Why something is refused; `refusal_number` gives document 01's number.
#[derive(Clone, Copy)]
pub enum Refusal {
    UnknownFlow,
    NoLength,
    OverMaximum,
    RowFull,
    FlowCount,
    QuantumRange,
    MaximumRange,
    NotSound,
    FileLength,
    OverheadRange,
    EventCount,
    TablePlace,
    TickOrder,
    ListShort,
}

// Sent: flow, length, deficit after it, visits opened in this pick.
#[derive(Clone, Copy)]
pub enum PickAnswer {
    Idle,
    Sent(usize, u32, u32, u32),
    Refused(Refusal),
}

// Why what is judged record by record is refused, and the number of the record at fault.
#[derive(Clone, Copy)]
pub struct Refused {
    pub why: Refusal,
    pub place: usize,
}

// "Else 0": the place where nothing is judged record by record.
impl From<Refusal> for Refused {
    ghost from_gives = { λ why fault. fault ≡ record { why = why; place = 0 } };

    fn from(why: Refusal) -> Refused {
        Refused { why, place: 0 }
    }
}

// What a call answers, and the state after it: a refusal too leaves a state.
#[derive(Clone, Copy)]
pub struct Answered<A> {
    pub answer: A,
    pub state: State,
}

// The numbers of a table that are no flow's own.
pub fn common_of(table: Table) -> Common
    ensures { result ≡ common_in table }
{
    Common {
        n: table.n,
        overhead: table.overhead,
    }
}

// Document 01's number of a refusal.
pub fn refusal_number(r: Refusal) -> u32
    ensures { result ≡ number_of r }
{
    match r {
        Refusal::UnknownFlow => 1,
        Refusal::NoLength => 2,
        Refusal::OverMaximum => 3,
        Refusal::RowFull => 4,
        Refusal::FlowCount => 5,
        Refusal::QuantumRange => 6,
        Refusal::MaximumRange => 7,
        Refusal::NotSound => 8,
        Refusal::FileLength => 9,
        Refusal::OverheadRange => 10,
        Refusal::EventCount => 11,
        Refusal::TablePlace => 12,
        Refusal::TickOrder => 13,
        Refusal::ListShort => 14,
    }
}
