// The reader of a run file: any bytes at all, and every refusal in document 01's order.
ghost use Rattle.std.specs.Prelude.{◌≡◌, ◌+◌, ◌*◌, ◌≤◌, ◌<◌, length, IfOk};
ghost use Rattle.std.specs.Result.{result_unwrap_or};
ghost use Rattle.drr.specs.Limits.{most_flows, most_events};
ghost use Rattle.drr.specs.State.{no_flows, fresh_state};
ghost use Rattle.drr.specs.Answers.{verdict_paper, reply};
ghost use Rattle.drr.specs.Setup.{setup_answer, setup_table, records_in};
ghost use Rattle.runfile.specs.File.{header_size, Narrow, layout_in, no_tables, tablesb, Laid, header_paper};
ghost use Rattle.runfile.specs.File.{header_answer, header_layout, flows_from, flows_in, terms_in, events_from, ticks_answer};
ghost use Rattle.runfile.specs.File.{file_answer, file_table, file_events, flows_reply};

use super::fields::{le2, le4};
use drr::{Answered, FlowList, FlowRecord, Refusal, Refused, Table, Terms};

// The header's bytes, and the most that a file may have (specs/File.antt).
const HEADER_SIZE: usize = 20;

const MOST_BYTES: usize = 12288;

// A table of the file: how many records it has, and its offset.
#[derive(Clone, Copy)]
pub struct Part {
    pub count: usize,
    pub at: usize,
}

// Where the two tables are.
#[derive(Clone, Copy)]
pub struct Layout {
    pub flows: Part,
    pub events: Part,
}

// What the file holds: its table, and where its events stand.
#[derive(Clone, Copy)]
pub struct Contents {
    pub table: Table,
    pub events: Part,
}

// The header's fields of the two tables.
fn layout_of(file: &[u8]) -> Layout
    requires { header_size ≤ length file.now }
    ensures { (result ≡ layout_in file.now) × Narrow result.flows × Narrow result.events }
{
    let flows = Part {
        count: le2(file, 0),
        at: le4(file, 4),
    };
    let events = Part {
        count: le2(file, 2),
        at: le4(file, 8),
    };
    Layout { flows, events }
}

// The rules for the two tables' places. Sums of 32-bit offsets do not wrap in 64 bits.
fn tables_ok(flows: Part, events: Part, size: usize) -> bool
    requires { Narrow flows × Narrow events }
    ensures { result ≡ tablesb flows.count events.count flows.at events.at size }
{
    let flows_end = flows.at + 8 * flows.count;
    let events_end = events.at + 8 * events.count;
    ((flows.at % 4 == 0) & (events.at % 4 == 0))
        & ((HEADER_SIZE <= flows.at) & (HEADER_SIZE <= events.at))
        & ((flows_end <= size) & (events_end <= size))
        & ((flows.count == 0)
            | (events.count == 0)
            | (flows_end <= events.at)
            | (events_end <= flows.at))
}

// Refusals 9, 10, 5, 11 and 12, in this order, and where the tables are.
fn header(file: &[u8]) -> Result<Layout, Refusal>
    ensures answer_value { header_paper result ≡ header_answer file.now }
    ensures layout_value { result_unwrap_or result no_tables ≡ header_layout file.now }
{
    let size = file.len();
    if size < HEADER_SIZE || MOST_BYTES < size {
        return Err(Refusal::FileLength);
    }
    if le4(file, 12) != size {
        return Err(Refusal::FileLength);
    }
    if (drr::MOST_OVERHEAD as usize) < le4(file, 16) {
        return Err(Refusal::OverheadRange);
    }
    let layout = layout_of(file);
    let flows = layout.flows;
    let events = layout.events;
    if flows.count == 0 || drr::MOST_FLOWS < flows.count {
        return Err(Refusal::FlowCount);
    }
    if drr::MOST_EVENTS < events.count {
        return Err(Refusal::EventCount);
    }
    if !tables_ok(flows, events, size) {
        return Err(Refusal::TablePlace);
    }
    Ok(layout)
}

// The n flow records that stand at the start of a part of the file.
fn records(t: &[u8], n: usize) -> FlowList
    requires { (8 * n ≤ length t.now) × (n ≤ most_flows) }
    ensures { records_in result ≡ flows_from t.now 0 n }
{
    let none = FlowRecord {
        quantum: 0,
        maximum: 0,
    };
    let mut records = [none; 17];
    for i in 0..n {
        records[i] = FlowRecord {
            quantum: le4(t, 8 * i) as u32,
            maximum: le4(t, 8 * i + 4) as u32,
        };
    }
    FlowList { records, count: n }
}

// 13, of m events that stand at the start of a part of the file.
fn ticks(t: &[u8], m: usize) -> Result<(), Refused>
    requires { (8 * m ≤ length t.now) × (m ≤ most_events) }
    ensures { verdict_paper result ≡ ticks_answer 0 0 (events_from t.now 0 m) }
{
    let mut last: usize = 0;
    for place in 0..m {
        let tick = le4(t, 8 * place);
        if tick < last {
            return Err(Refused {
                why: Refusal::TickOrder,
                place,
            });
        }
        last = tick;
    }
    Ok(())
}

// 6 and 7 of a file whose header has no fault, and the table of its flows.
fn flows_of(file: &[u8], flows: Part) -> Result<Table, Refused>
    requires { Laid file.now × (flows ≡ (layout_in file.now).flows) }
    ensures answer_value { verdict_paper result ≡ setup_answer (flows_in file.now) (terms_in file.now) }
    ensures table_value { result_unwrap_or result no_flows ≡ setup_table (flows_in file.now) (terms_in file.now) }
{
    let list = records(&file[flows.at..], flows.count);
    let overhead = le4(file, 16) as u32;
    scheduler::flows::table_of(list, Terms { overhead })
}

// Every refusal of the file itself, in order; its table and where its events stand where there is none.
pub fn read(file: &[u8]) -> Result<Contents, Refused>
    ensures answer_value { verdict_paper result ≡ file_answer file.now }
    ensures contents_value { IfOk result (λ holds. (holds.table ≡ file_table file.now) × (holds.events ≡ file_events file.now)) }
{
    let layout = header(file)?;
    let table = flows_of(file, layout.flows)?;
    let events = layout.events;
    ticks(&file[events.at..], events.count)?;
    Ok(Contents { table, events })
}

// 9, 10, 5, 11, 12, 6 and 7, with the table of the file's flows: the events are left alone.
fn table_in(file: &[u8]) -> Result<Table, Refused>
    ensures { reply (verdict_paper result) (fresh_state (result_unwrap_or result no_flows)) ≡ flows_reply file.now }
{
    let layout = header(file)?;
    flows_of(file, layout.flows)
}

// The fresh state of the file's flows, for a program that leaves the events alone: every refusal but 13.
pub fn read_flows(file: &[u8]) -> Answered<Result<(), Refused>>
    ensures { reply (verdict_paper result.answer) result.state ≡ flows_reply file.now }
{
    scheduler::flows::made(table_in(file))
}
