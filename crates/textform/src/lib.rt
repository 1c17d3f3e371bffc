// The text form of a run file: a text made into a run file, and a run file shown as text.
#![tactic(auto)]

pub mod make;
mod progress;
pub mod show;
pub mod told;

// What was expected where a text has a fault.
#[derive(Clone, Copy)]
pub enum Want {
    Record,
    Overhead,
    Quantum,
    Maximum,
    Tick,
    Flow,
    Length,
    End,
    OverheadFirst,
    OneOverhead,
    FlowsFirst,
    EventsOnly,
    FewerFlows,
    FewerEvents,
    LaterTick,
    Shorter,
}

// A text's first fault: its line, from 1, and what was expected there.
#[derive(Clone, Copy)]
pub struct Fault {
    pub line: usize,
    pub want: Want,
}

// What a line says: nothing, the table's overhead, a flow's quantum and maximum, or an event's tick, flow
// and length.
#[derive(Clone, Copy)]
pub enum Item {
    Nothing,
    OverheadOf(u32),
    FlowOf(u32, u32),
    EventOf(u32, u16, u16),
}

// What becomes of a text: a file of so many bytes, or a fault. The file stands at the start of these bytes,
// zeros behind it; zeros throughout beside a fault.
#[derive(Clone, Copy)]
pub struct Made {
    pub answer: Result<usize, Fault>,
    pub file: [u8; 8340],
}
