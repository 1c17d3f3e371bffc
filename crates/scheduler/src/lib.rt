// Document 01's scheduler over packet lengths: setup, arrival, pick and the soundness test.
//
// The functions here take and give back a State by value, and take any numbers at all. Beneath them
// stands `engine`, which does each step once, over a lent table and line; a run stands on it too.
#![tactic(auto)]

pub mod flows;

ghost use Rattle.std.specs.Prelude.{◌≡◌};
ghost use Rattle.drr.specs.State.{line_in};
ghost use Rattle.drr.specs.Sound.{soundb, sound_state};
ghost use Rattle.drr.specs.Answers.{pick_paper, arrival_paper, reply};
ghost use Rattle.drr.specs.Arrival.{arrival_reply};
ghost use Rattle.drr.specs.Computed.{pick_reply};

use drr::{Answered, Line, PickAnswer, Refusal, State, Table};

// Whether the line is sound over the table.
pub fn sound_line(table: Table, line: Line) -> bool
    ensures { result ≡ soundb table (line_in line) }
{
    engine::sound_in(&table, &line)
}

// Whether the state is sound.
pub fn sound(s: State) -> bool
    ensures { result ≡ sound_state s }
{
    engine::sound_in(&s.table, &s.line)
}

// A packet of `length` bytes arrives for `flow`.
pub fn arrival(mut s: State, flow: usize, length: u32) -> Answered<Result<(), Refusal>>
    ensures { reply (arrival_paper result.answer) result.state ≡ arrival_reply s flow length }
{
    if !engine::sound_in(&s.table, &s.line) {
        return Answered {
            answer: Err(Refusal::NotSound),
            state: s,
        };
    }
    let answer = engine::book(&s.table, &mut s.line, flow, length);
    Answered { answer, state: s }
}

// The next packet is picked.
pub fn pick(mut s: State) -> Answered<PickAnswer>
    ensures { reply (pick_paper result.answer) result.state ≡ pick_reply s }
{
    if !engine::sound_in(&s.table, &s.line) {
        return Answered {
            answer: PickAnswer::Refused(Refusal::NotSound),
            state: s,
        };
    }
    let answer = engine::pick_in(&s.table, &mut s.line);
    Answered { answer, state: s }
}
