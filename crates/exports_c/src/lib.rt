// The library as an archive for programs in other languages: the functions of `exports` under their own names,
// by C's calling convention. A state crosses by value, a lent slice as its address and its length. Any numbers
// may stand in a state, and its bool is 0 or 1.
#![tactic(auto)]

ghost use Rattle.std.specs.Prelude.{◌≡◌, length};
ghost use Rattle.drr.specs.Sound.{sound_state};
ghost use Rattle.drr.specs.Setup.{setup_reply, records_in};
ghost use Rattle.drr.specs.Arrival.{arrival_reply};
ghost use Rattle.drr.specs.Computed.{pick_reply};
ghost use Rattle.figures.specs.Answers.{owed_answer, wait_answer, lag_answer, waiting_answer};
ghost use Rattle.runfile.specs.File.{run_answer};
ghost use Rattle.runfile.specs.Listing.{filled};
ghost use Rattle.exports.specs.Told.{setup_told, arrival_told, pick_told, figure_told, run_told};

use drr::{FlowList, State, Terms};
use exports::{ArrivalResult, FigureResult, PickResult, RunResult, SetupResult};

// Setup of the first `count` records of the list, or of all seventeen, and the terms.
#[unsafe(no_mangle)]
pub extern "C" fn wikulambag_setup(list: FlowList, terms: Terms) -> SetupResult
    ensures { result ≡ setup_told (setup_reply (records_in list) terms) }
{
    exports::wikulambag_setup(list, terms)
}

// Whether the state is sound.
#[unsafe(no_mangle)]
pub extern "C" fn wikulambag_sound(s: State) -> bool
    ensures { result ≡ sound_state s }
{
    exports::wikulambag_sound(s)
}

// A packet of `length` bytes arrives for `flow`.
#[unsafe(no_mangle)]
pub extern "C" fn wikulambag_arrival(s: State, flow: usize, length: u32) -> ArrivalResult
    ensures { result ≡ arrival_told (arrival_reply s flow length) }
{
    exports::wikulambag_arrival(s, flow, length)
}

// The next packet is picked.
#[unsafe(no_mangle)]
pub extern "C" fn wikulambag_pick(s: State) -> PickResult
    ensures { result ≡ pick_told (pick_reply s) }
{
    exports::wikulambag_pick(s)
}

// What the flow is owed of this many bytes.
#[unsafe(no_mangle)]
pub extern "C" fn wikulambag_owed(s: State, flow: usize, bytes: u32) -> FigureResult
    ensures { result ≡ figure_told (owed_answer s flow bytes) }
{
    exports::wikulambag_owed(s, flow, bytes)
}

// The least number of bytes of which the flow is owed one.
#[unsafe(no_mangle)]
pub extern "C" fn wikulambag_wait(s: State, flow: usize) -> FigureResult
    ensures { result ≡ figure_told (wait_answer s flow) }
{
    exports::wikulambag_wait(s, flow)
}

// C of the flow.
#[unsafe(no_mangle)]
pub extern "C" fn wikulambag_lag(s: State, flow: usize) -> FigureResult
    ensures { result ≡ figure_told (lag_answer s flow) }
{
    exports::wikulambag_lag(s, flow)
}

// How many bytes wait in the flow.
#[unsafe(no_mangle)]
pub extern "C" fn wikulambag_waiting_bytes(s: State, flow: usize) -> FigureResult
    ensures { result ≡ figure_told (waiting_answer s flow) }
{
    exports::wikulambag_waiting_bytes(s, flow)
}

// Runs the file; its listing stands at the start of the lent list, or the refusal is told.
#[unsafe(no_mangle)]
pub extern "C" fn wikulambag_run(file: &[u8], out: &mut [u64]) -> RunResult
    ensures value { result ≡ run_told (run_answer file.now (length out.old)) }
    ensures out_after { out.new ≡ filled file.now out.old }
{
    exports::wikulambag_run(file, out)
}
