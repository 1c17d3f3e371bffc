// Document 01's figures of a flow: what it is owed of S bytes, how long it waits for the first (in
// bytes, and in time on a line of a given rate), and C; and how many bytes wait in it.
//
// The definitions are the least numbers that the document names (drr, specs/Figures.antt). The code
// takes the way round by division, and the laws of drr, proofs/Figures.antt, say that it is the same.
// A figure takes any state and any numbers: `asked` stands before it and refuses, and behind it the
// table is within setup's limits, as `Measures` has it.
#![tactic(auto)]

ghost use Rattle.std.specs.Prelude.{◌≡◌, [], ◌++◌, length, get_or, drop, OnOk};
ghost use Rattle.drr.specs.Answers.{Answer};
ghost use Rattle.drr.specs.Facts.{SoundState};
ghost use Rattle.figures.specs.Answers.{figure_paper, guard_paper, asked_answer, owed_answer, wait_answer, lag_answer, time_answer};
ghost use Rattle.figures.specs.Answers.{waiting_answer, value_of, all_figures, figures_within};
ghost use Rattle.figures.specs.Needs.{Known};

mod measures;

use drr::{Refusal, State};
use measures::Measures;

// Before any figure: 8 where the state is not sound, then 1 where there is no such flow.
fn asked(s: State, flow: usize) -> Result<(), Refusal>
    ensures figure_value { (figure : Answer) → guard_paper result figure ≡ asked_answer s flow figure }
    ensures sound_state { OnOk result (SoundState s × Known s.table flow) }
{
    if !scheduler::sound_line(s.table, s.line) {
        return Err(Refusal::NotSound);
    }
    if s.table.n <= flow {
        return Err(Refusal::UnknownFlow);
    }
    Ok(())
}

// What the flow is owed of this many bytes.
pub fn owed(s: State, flow: usize, bytes: u32) -> Result<u64, Refusal>
    ensures { figure_paper result ≡ owed_answer s flow bytes }
{
    asked(s, flow)?;
    Ok(Measures::of(s.table, flow).owed(bytes))
}

// The least number of bytes of which the flow is owed one.
pub fn wait(s: State, flow: usize) -> Result<u64, Refusal>
    ensures { figure_paper result ≡ wait_answer s flow }
{
    asked(s, flow)?;
    Ok(Measures::of(s.table, flow).wait())
}

// The time until then, in hundred-millionths of a second, on a line of so many bits a second; 0 for a rate of 0.
pub fn wait_time(s: State, flow: usize, rate: u64) -> Result<u64, Refusal>
    ensures { figure_paper result ≡ time_answer s flow rate }
{
    asked(s, flow)?;
    Ok(Measures::of(s.table, flow).time(rate))
}

// C of the flow.
pub fn lag(s: State, flow: usize) -> Result<u64, Refusal>
    ensures { figure_paper result ≡ lag_answer s flow }
{
    asked(s, flow)?;
    Ok(Measures::of(s.table, flow).lag())
}

// The bytes that wait in the flow. The line keeps their sum, which in a sound state is true.
pub fn waiting_bytes(s: State, flow: usize) -> Result<u64, Refusal>
    ensures { figure_paper result ≡ waiting_answer s flow }
{
    asked(s, flow)?;
    Ok(cell_at(&s.line.sums, flow))
}

// The value of a figure, 0 beside a refusal.
pub fn value_of(f: Result<u64, Refusal>) -> u64
    ensures { result ≡ value_of (figure_paper f) }
{
    f.unwrap_or(0)
}

// A flow's number in an array, 0 past its end.
fn cell_at(cells: &[u32], flow: usize) -> u64
    ensures { result ≡ get_or cells.now flow 0 }
{
    cells.get(flow).map_or(0, |cell| widths::u64_of_u32(*cell))
}

// Flow, quantum, maximum, C and wait.
fn own_figures(s: State, flow: usize) -> [u64; 5]
    ensures { result ≡ all_figures s flow [] }
{
    [
        flow as u64,
        cell_at(&s.table.quanta, flow),
        cell_at(&s.table.maxima, flow),
        value_of(lag(s, flow)),
        value_of(wait(s, flow)),
    ]
}

// A flow's figures at the start of a lent list, those of its own and what it is owed of each number of bytes,
// and how many numbers that is; nothing, and 0, where the list is too short.
pub fn all_figures(s: State, flow: usize, sizes: &[u32], out: &mut [u64]) -> usize
    ensures { let written = figures_within s flow sizes.now (length out.old) in
        (result ≡ length written) × (out.new ≡ written ++ drop (length written) out.old) }
{
    let count = 5 + sizes.len();
    if out.len() < count {
        return 0;
    }
    out[..5].copy_from_slice(&own_figures(s, flow));
    for (i, &bytes) in sizes.iter().enumerate() {
        out[5 + i] = value_of(owed(s, flow, bytes));
    }
    count
}
