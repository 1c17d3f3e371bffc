// The records of a text so far, in the file that they make.
ghost use Rattle.std.specs.Prelude.{◌≡◌, ◌+◌, ◌≤◌, length};
ghost use Rattle.std.proofs.lemmas.List.Edits.{sets};
ghost use Rattle.drr.specs.Limits.{most_flows, most_events};

use super::{Item, Made, Want};

// The header's bytes (runfile/specs/File.antt).
const HEADER_SIZE: usize = 20;

// The file, with the records behind the place of its header; the overhead if it was said, how many flows
// and events there are, and the tick of the last event.
#[derive(Clone, Copy)]
pub struct Progress {
    file: [u8; 8340],
    overhead: Option<u32>,
    flows: usize,
    events: usize,
    last: u32,
    ghost flows_fit: { flows ≤ most_flows },
    ghost events_fit: { events ≤ most_events },
}

// Bytes as they are, from `at` on.
fn put(buf: &mut [u8], at: usize, bytes: &[u8])
    requires { at + length bytes.now ≤ length buf.old }
    ensures { buf.new ≡ sets buf.old at bytes.now }
{
    buf[at..at + bytes.len()].copy_from_slice(bytes);
}

impl Progress {
    ghost use Rattle.textform.specs.declared.Item.TheVariants.{OverheadOf, FlowOf, EventOf};
    ghost use Rattle.textform.specs.Made.{no_records, judged};
    ghost use Rattle.textform.specs.Needs.{Holds, Stepped, Finished};

    pub fn new() -> Progress
        ensures { Holds result no_records }
    {
        Progress {
            file: [0; 8340],
            overhead: None,
            flows: 0,
            events: 0,
            last: 0,
        }
    }

    // How many flows there are.
    pub fn flows(&self) -> usize
        ensures { result ≡ self.now.flows }
    {
        self.flows
    }

    // The overhead, which stands in the header and not among the records.
    fn put_overhead(&mut self, overhead: u32) -> Result<(), Want>
        ensures { Stepped self.old (λ d. judged d (OverheadOf overhead)) self.new result }
    {
        if 0 < self.flows {
            return Err(Want::OverheadFirst);
        }
        if self.overhead.is_some() {
            return Err(Want::OneOverhead);
        }
        self.overhead = Some(overhead);
        Ok(())
    }

    // A flow more.
    fn put_flow(&mut self, quantum: u32, maximum: u32) -> Result<(), Want>
        ensures { Stepped self.old (λ d. judged d (FlowOf quantum maximum)) self.new result }
    {
        if 0 < self.events {
            return Err(Want::EventsOnly);
        }
        if drr::MOST_FLOWS <= self.flows {
            return Err(Want::FewerFlows);
        }
        let at = HEADER_SIZE + 8 * self.flows;
        put(&mut self.file, at, &quantum.to_le_bytes());
        put(&mut self.file, at + 4, &maximum.to_le_bytes());
        self.flows += 1;
        Ok(())
    }

    // An event more.
    fn put_event(&mut self, tick: u32, flow: u16, size: u16) -> Result<(), Want>
        ensures { Stepped self.old (λ d. judged d (EventOf tick flow size)) self.new result }
    {
        if self.flows == 0 {
            return Err(Want::FlowsFirst);
        }
        if drr::MOST_EVENTS <= self.events {
            return Err(Want::FewerEvents);
        }
        if tick < self.last {
            return Err(Want::LaterTick);
        }
        let at = HEADER_SIZE + 8 * self.flows + 8 * self.events;
        put(&mut self.file, at, &tick.to_le_bytes());
        put(&mut self.file, at + 4, &flow.to_le_bytes());
        put(&mut self.file, at + 6, &size.to_le_bytes());
        self.events += 1;
        self.last = tick;
        Ok(())
    }

    // What a line says joins the records, or is not what was expected.
    pub fn put_item(&mut self, item: Item) -> Result<(), Want>
        ensures { Stepped self.old (λ d. judged d item) self.new result }
    {
        match item {
            Item::Nothing => Ok(()),
            Item::OverheadOf(overhead) => self.put_overhead(overhead),
            Item::FlowOf(quantum, maximum) => self.put_flow(quantum, maximum),
            Item::EventOf(tick, flow, size) => self.put_event(tick, flow, size),
        }
    }

    // The file of these records, without gaps: the header, and how many bytes there are.
    pub fn made(self) -> Made
        ensures { Finished self result }
    {
        let events_at = HEADER_SIZE + 8 * self.flows;
        let end = events_at + 8 * self.events;
        let overhead = self.overhead.unwrap_or(0);
        let mut file = self.file;
        put(&mut file, 0, &(self.flows as u16).to_le_bytes());
        put(&mut file, 2, &(self.events as u16).to_le_bytes());
        put(&mut file, 4, &(HEADER_SIZE as u32).to_le_bytes());
        put(&mut file, 8, &(events_at as u32).to_le_bytes());
        put(&mut file, 12, &(end as u32).to_le_bytes());
        put(&mut file, 16, &overhead.to_le_bytes());
        Made {
            answer: Ok(end),
            file,
        }
    }
}
