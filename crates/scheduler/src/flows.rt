// Setup: from a list of flow records to a fresh state.
//
// `table_of` judges a list and makes its table; a run stands on it, and makes its own line. `setup_of` makes
// the whole fresh state; programs and other languages call it, since its parameters are plain. `setup` is
// document 01's form, a lent slice of any length: it is thin, copies the records and calls `setup_of`.
ghost use Rattle.std.specs.Prelude.{◌≡◌, ◌-◌, ◌≤◌, length};
ghost use Rattle.std.specs.Result.{result_unwrap_or};
ghost use Rattle.drr.specs.Limits.{most_flows};
ghost use Rattle.drr.specs.State.{no_flows, fresh_state, empty_table};
ghost use Rattle.drr.specs.Answers.{number_of, refused_at, verdict_paper, reply};
ghost use Rattle.drr.specs.Setup.{table_for, flows_answer, setup_answer, setup_table, setup_reply, records_in};

use drr::{Answered, FlowList, FlowRecord, Line, Refusal, Refused, Row, State, Table, Terms};

// Nothing waits, deficits 0, no visit open, place n-1, the flow before flow 0 round the table. Public for a run,
// which has a table and no records.
pub fn fresh(table: Table) -> State
    ensures { result ≡ fresh_state table }
{
    let row = Row {
        lengths: [0u16; 32],
    };
    State {
        table,
        line: Line {
            deficits: [0u32; 16],
            counts: [0u8; 16],
            sums: [0u32; 16],
            place: drr::common_of(table).n.saturating_sub(1),
            opened: false,
            rows: [row; 16],
        },
    }
}

// A refusal gives the empty table.
pub fn refused(why: Refusal, place: usize) -> Answered<Result<(), Refused>>
    ensures { (verdict_paper result.answer ≡ refused_at (number_of why) place) × (result.state ≡ empty_table) }
{
    let none = Table {
        n: 0,
        overhead: 0,
        quanta: [0u32; 16],
        maxima: [0u32; 16],
    };
    Answered {
        answer: Err(Refused { why, place }),
        state: fresh(none),
    }
}

// The fresh state of a table that was made, or a refusal with the empty table. Public for the reader of a run
// file, which has refusals of its own.
pub fn made(table: Result<Table, Refused>) -> Answered<Result<(), Refused>>
    ensures { reply (verdict_paper result.answer) result.state
        ≡ reply (verdict_paper table) (fresh_state (result_unwrap_or table no_flows)) }
{
    match table {
        Ok(table) => Answered {
            answer: Ok(()),
            state: fresh(table),
        },
        Err(fault) => refused(fault.why, fault.place),
    }
}

// The table of the records and the terms.
fn filled(records: &[FlowRecord], terms: Terms) -> Table
    requires { length records.now ≤ most_flows }
    ensures { result ≡ table_for records.now terms }
{
    let mut quanta = [0u32; 16];
    let mut maxima = [0u32; 16];
    for (f, record) in records.iter().enumerate() {
        quanta[f] = record.quantum;
        maxima[f] = record.maximum;
    }
    Table {
        n: records.len(),
        overhead: terms.overhead,
        quanta,
        maxima,
    }
}

// The first fault, flow by flow, the quantum's before the maximum's.
fn judged(records: &[FlowRecord]) -> Result<(), Refused>
    ensures { verdict_paper result ≡ flows_answer 0 records.now }
{
    for (place, record) in records.iter().enumerate() {
        let quantum = record.quantum;
        if quantum < drr::LEAST_QUANTUM || drr::MOST_QUANTUM < quantum {
            return Err(Refused {
                why: Refusal::QuantumRange,
                place,
            });
        }
        let maximum = record.maximum;
        if maximum < drr::LEAST_MAXIMUM || drr::MOST_MAXIMUM < maximum {
            return Err(Refused {
                why: Refusal::MaximumRange,
                place,
            });
        }
    }
    Ok(())
}

// Setup's answer on a list and the terms, and the table that it makes.
pub fn table_of(list: FlowList, terms: Terms) -> Result<Table, Refused>
    ensures { (verdict_paper result ≡ setup_answer (records_in list) terms)
        × (result_unwrap_or result no_flows ≡ setup_table (records_in list) terms) }
{
    if drr::MOST_OVERHEAD < terms.overhead {
        return Err(Refusal::OverheadRange.into());
    }
    if list.count == 0 || drr::MOST_FLOWS < list.count {
        return Err(Refusal::FlowCount.into());
    }
    let records = &list.records[..list.count];
    judged(records)?;
    Ok(filled(records, terms))
}

// Setup of a list as it is carried.
pub fn setup_of(list: FlowList, terms: Terms) -> Answered<Result<(), Refused>>
    ensures { reply (verdict_paper result.answer) result.state ≡ setup_reply (records_in list) terms }
{
    made(table_of(list, terms))
}

// Setup of a lent list of any length: more than seventeen records are refused as seventeen are.
pub fn setup(list: &[FlowRecord], terms: Terms) -> Answered<Result<(), Refused>>
    ensures { reply (verdict_paper result.answer) result.state ≡ setup_reply list.now terms }
{
    let none = FlowRecord {
        quantum: 0,
        maximum: 0,
    };
    let mut records = [none; 17];
    let count = list.len().min(17);
    records[..count].copy_from_slice(&list[..count]);
    setup_of(FlowList { records, count }, terms)
}
