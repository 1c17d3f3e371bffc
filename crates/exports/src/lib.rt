// What programs in other languages can call, through exports_c: a state crosses by value, laid out as C
// lays it out, an answer as a struct with a name for each number (specs/Told.antt). Any numbers may stand
// in a state, and its bool is 0 or 1.
#![tactic(auto)]

ghost use Rattle.std.specs.Prelude.{◌≡◌, [], length};
ghost use Rattle.drr.specs.Sound.{sound_state};
ghost use Rattle.drr.specs.Answers.{answer, verdict_paper, pick_paper, arrival_paper, reply};
ghost use Rattle.drr.specs.Setup.{setup_reply, records_in};
ghost use Rattle.drr.specs.Arrival.{arrival_reply};
ghost use Rattle.drr.specs.Computed.{pick_reply};
ghost use Rattle.figures.specs.Answers.{figure_paper, owed_answer, wait_answer, lag_answer, waiting_answer};
ghost use Rattle.runfile.specs.File.{run_answer};
ghost use Rattle.runfile.specs.Listing.{filled};
ghost use Rattle.exports.specs.Told.{setup_told, arrival_told, pick_told, figure_told, run_told};

use drr::{Answered, FlowList, PickAnswer, Refusal, Refused, State, Terms};

// In every answer `refusal` is document 01's number, 0 where nothing is refused; beside a refusal the other
// numbers, place and state apart, are 0.

// Setup: the flow at fault for 6 and 7, and the fresh state, or the empty table beside a refusal.
#[repr(C)]
#[derive(Clone, Copy)]
pub struct SetupResult {
    pub refusal: u32,
    pub place: usize,
    pub state: State,
}

// An arrival: the state after it.
#[repr(C)]
#[derive(Clone, Copy)]
pub struct ArrivalResult {
    pub refusal: u32,
    pub state: State,
}

// A pick: whether a packet was sent, its flow and length, the flow's deficit after it, the visits opened in
// this pick, and the state after it. Idle is an answer that is neither refused nor sent.
#[repr(C)]
#[derive(Clone, Copy)]
pub struct PickResult {
    pub refusal: u32,
    pub sent: bool,
    pub flow: usize,
    pub length: u32,
    pub deficit: u32,
    pub visits: u32,
    pub state: State,
}

// A figure of a flow.
#[repr(C)]
#[derive(Clone, Copy)]
pub struct FigureResult {
    pub refusal: u32,
    pub value: u64,
}

// A run: the number of the record at fault, as in the line `R number place`.
#[repr(C)]
#[derive(Clone, Copy)]
pub struct RunResult {
    pub refusal: u32,
    pub place: usize,
}

impl From<Result<(), Refused>> for RunResult {
    ghost from_gives = { λ v told. told ≡ run_told (verdict_paper v) };

    fn from(v: Result<(), Refused>) -> RunResult {
        match v {
            Ok(()) => RunResult {
                refusal: 0,
                place: 0,
            },
            Err(fault) => RunResult {
                refusal: drr::refusal_number(fault.why),
                place: fault.place,
            },
        }
    }
}

impl From<Answered<Result<(), Refused>>> for SetupResult {
    ghost from_gives = { λ made told. told ≡ setup_told (reply (verdict_paper made.answer) made.state) };

    fn from(made: Answered<Result<(), Refused>>) -> SetupResult {
        let told = RunResult::from(made.answer);
        SetupResult {
            refusal: told.refusal,
            place: told.place,
            state: made.state,
        }
    }
}

impl From<Answered<Result<(), Refusal>>> for ArrivalResult {
    ghost from_gives = { λ a told. told ≡ arrival_told (reply (arrival_paper a.answer) a.state) };

    fn from(a: Answered<Result<(), Refusal>>) -> ArrivalResult {
        ArrivalResult {
            refusal: match a.answer {
                Ok(()) => 0,
                Err(why) => drr::refusal_number(why),
            },
            state: a.state,
        }
    }
}

// A pick that sends nothing, idle or refused.
fn unsent(refusal: u32, state: State) -> PickResult
    ensures { result ≡ pick_told (reply (answer refusal []) state) }
{
    PickResult {
        refusal,
        sent: false,
        flow: 0,
        length: 0,
        deficit: 0,
        visits: 0,
        state,
    }
}

impl From<Answered<PickAnswer>> for PickResult {
    ghost from_gives = { λ p told. told ≡ pick_told (reply (pick_paper p.answer) p.state) };

    fn from(p: Answered<PickAnswer>) -> PickResult {
        match p.answer {
            PickAnswer::Idle => unsent(0, p.state),
            PickAnswer::Sent(flow, length, deficit, visits) => PickResult {
                refusal: 0,
                sent: true,
                flow,
                length,
                deficit,
                visits,
                state: p.state,
            },
            PickAnswer::Refused(why) => unsent(drr::refusal_number(why), p.state),
        }
    }
}

impl From<Result<u64, Refusal>> for FigureResult {
    ghost from_gives = { λ f told. told ≡ figure_told (figure_paper f) };

    fn from(f: Result<u64, Refusal>) -> FigureResult {
        match f {
            Ok(value) => FigureResult { refusal: 0, value },
            Err(why) => FigureResult {
                refusal: drr::refusal_number(why),
                value: 0,
            },
        }
    }
}

// Setup of the first `count` records of the list, or of all seventeen, and the terms.
pub fn wikulambag_setup(list: FlowList, terms: Terms) -> SetupResult
    ensures { result ≡ setup_told (setup_reply (records_in list) terms) }
{
    SetupResult::from(scheduler::flows::setup_of(list, terms))
}

// Whether the state is sound.
pub fn wikulambag_sound(s: State) -> bool
    ensures { result ≡ sound_state s }
{
    scheduler::sound(s)
}

// A packet of `length` bytes arrives for `flow`.
pub fn wikulambag_arrival(s: State, flow: usize, length: u32) -> ArrivalResult
    ensures { result ≡ arrival_told (arrival_reply s flow length) }
{
    ArrivalResult::from(scheduler::arrival(s, flow, length))
}

// The next packet is picked.
pub fn wikulambag_pick(s: State) -> PickResult
    ensures { result ≡ pick_told (pick_reply s) }
{
    PickResult::from(scheduler::pick(s))
}

// What the flow is owed of this many bytes.
pub fn wikulambag_owed(s: State, flow: usize, bytes: u32) -> FigureResult
    ensures { result ≡ figure_told (owed_answer s flow bytes) }
{
    FigureResult::from(figures::owed(s, flow, bytes))
}

// The least number of bytes of which the flow is owed one.
pub fn wikulambag_wait(s: State, flow: usize) -> FigureResult
    ensures { result ≡ figure_told (wait_answer s flow) }
{
    FigureResult::from(figures::wait(s, flow))
}

// C of the flow.
pub fn wikulambag_lag(s: State, flow: usize) -> FigureResult
    ensures { result ≡ figure_told (lag_answer s flow) }
{
    FigureResult::from(figures::lag(s, flow))
}

// How many bytes wait in the flow.
pub fn wikulambag_waiting_bytes(s: State, flow: usize) -> FigureResult
    ensures { result ≡ figure_told (waiting_answer s flow) }
{
    FigureResult::from(figures::waiting_bytes(s, flow))
}

// Runs the file; its listing stands at the start of the lent list, or the refusal is told.
pub fn wikulambag_run(file: &[u8], out: &mut [u64]) -> RunResult
    ensures value { result ≡ run_told (run_answer file.now (length out.old)) }
    ensures out_after { out.new ≡ filled file.now out.old }
{
    RunResult::from(runfile::run(file, out))
}
