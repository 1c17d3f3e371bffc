// The run of a file's events: the engine's booking and pick on a line of its own, a line written for each
// packet sent and each event refused, and beside it what the line's flow has waiting.
ghost use Rattle.std.specs.Prelude.{◌≡◌, ◌++◌, ◌+◌, ◌*◌, ◌≤◌, ◌<◌, length, drop};
ghost use Rattle.drr.specs.Limits.{most_events};
ghost use Rattle.drr.specs.Facts.{Ranged};
ghost use Rattle.drr.specs.Answers.{arrival_paper};
ghost use Rattle.runfile.specs.File.{event_at, events_from};
ghost use Rattle.runfile.specs.Listing.{tally, drop_line, after_event, beside_event, written, events_listing, events_waiting};
ghost use Rattle.runfile.specs.Needs.{Room, at_flow, comeb};

use super::fields::{le2, le4};
use drr::{Line, PickAnswer, Refusal, Table};

// Packets sent, events refused, and the tick of line 3, so far.
#[derive(Clone, Copy, Default)]
pub struct Tally {
    pub sent: usize,
    pub refused: usize,
    pub last: usize,
}

impl Tally {
    // How many lines are written.
    fn lines(self) -> usize
        requires { self.sent + self.refused ≤ most_events }
        ensures { result ≡ self.sent + self.refused }
    {
        self.sent + self.refused
    }

    // The count after an event that was booked.
    fn after_event(self, tick: usize, answer: Result<(), Refusal>) -> Tally
        requires { self.refused ≤ most_events }
        ensures { result ≡ after_event tick (arrival_paper answer).refusal self }
    {
        Tally {
            refused: self.refused + usize::from(answer.is_err()),
            last: if self.sent == 0 { tick } else { self.last },
            ..self
        }
    }

    // The count after a packet that is sent until the tick `end`.
    fn after_sent(self, end: usize) -> Tally
        requires { self.sent ≤ most_events }
        ensures { result ≡ tally (self.sent + 1) self.refused end }
    {
        Tally {
            sent: self.sent + 1,
            last: end,
            ..self
        }
    }
}

// An event of the file.
#[derive(Clone, Copy)]
pub struct Event {
    pub tick: usize,
    pub flow: usize,
    pub length: usize,
}

// Line k of the lent list.
fn put_line(out: &mut [u64], k: usize, line: [u64; 6])
    requires { (6 * k + 6 ≤ length out.old) × (k ≤ most_events) }
    ensures { out.new ≡ written 6 out.old k line }
{
    out[6 * k..6 * k + 6].copy_from_slice(&line);
}

// The bytes that wait in a flow; none in one that there is not.
fn waiting_at(line: &Line, flow: usize) -> u64
    ensures { result ≡ at_flow line.now.sums flow }
{
    line.sums.get(flow).map_or(0, |bytes| u64::from(*bytes))
}

// An event that was booked: where it was refused, a line and beside it the bytes that wait in its flow;
// and the count after it.
fn note(
    out: &mut [u64],
    beside: &mut [u64],
    y: Tally,
    e: Event,
    waiting: u64,
    answer: Result<(), Refusal>,
) -> Tally
    requires line { Room 6 y out.old }
    requires number { Room 1 y beside.old }
    ensures value { result ≡ after_event e.tick (arrival_paper answer).refusal y }
    ensures out_after { out.new
        ≡ written 6 out.old (y.sent + y.refused) (drop_line e.tick e.flow e.length (arrival_paper answer).refusal) }
    ensures beside_after { beside.new
        ≡ written 1 beside.old (y.sent + y.refused) (beside_event (arrival_paper answer).refusal waiting) }
{
    if let Err(why) = answer {
        let k = y.lines();
        let number = u64::from(drr::refusal_number(why));
        put_line(
            out,
            k,
            [2, e.tick as u64, e.flow as u64, e.length as u64, number, 0],
        );
        beside[k] = waiting;
    }
    y.after_event(e.tick, answer)
}

// Whether event `at` of m is there, and its tick is at or before `tick`.
fn has_come(t: &[u8], m: usize, at: usize, tick: usize) -> bool
    requires { (8 * m ≤ length t.now) × (m ≤ most_events) }
    ensures { result ≡ comeb t.now m at tick }
{
    at < m && le4(t, 8 * at) <= tick
}

// Event `at`, which is there.
fn event_at(t: &[u8], at: usize) -> Event
    requires { (8 * at + 8 ≤ length t.now) × (at ≤ most_events) }
    ensures { (result ≡ event_at t.now at) × (result.length < 65536) }
{
    Event {
        tick: le4(t, 8 * at),
        flow: le2(t, 8 * at + 4),
        length: le2(t, 8 * at + 6),
    }
}

// The run of the m events that stand at the start of a part of the file, from tick 0 and a fresh line,
// into lent lists with room for its lines and for the numbers beside them.
pub fn run_events(t: &[u8], m: usize, table: Table, out: &mut [u64], beside: &mut [u64])
    requires m_in_bounds { (8 * m ≤ length t.now) × (m ≤ most_events) }
    requires ranged { Ranged table × (1 ≤ table.n) }
    requires m_in_bounds_2 { (6 * (m + 1) ≤ length out.old) × (m ≤ length beside.old) }
    ensures out_after { out.new
        ≡ events_listing table (events_from t.now 0 m) ++ drop (6 * (m + 1)) out.old }
    ensures beside_after { beside.new
        ≡ events_waiting table (events_from t.now 0 m) ++ drop m beside.old }
{
    let mut line = scheduler::flows::fresh(table).line;
    let mut y = Tally::default();
    let mut now: usize = 0;
    let mut at: usize = 0;
    loop {
        if has_come(t, m, at, now) {
            let e = event_at(t, at);
            let answer = engine::book(&table, &mut line, e.flow, e.length as u32);
            y = note(out, beside, y, e, waiting_at(&line, e.flow), answer);
            at += 1;
            continue;
        }
        let answer = engine::pick_in(&table, &mut line);
        let PickAnswer::Sent(flow, len, deficit, visits) = answer else {
            if m <= at {
                let last = [3, y.last as u64, y.sent as u64, y.refused as u64, 0, 0];
                put_line(out, y.lines(), last);
                return;
            }
            now = le4(t, 8 * at);
            continue;
        };
        // the line is free again after as many ticks as the packet is charged
        let end = now + engine::charge_of(&table, len as u16) as usize;
        let (len, deficit, visits) = (u64::from(len), u64::from(deficit), u64::from(visits));
        let sent = [1, now as u64, flow as u64, len, deficit, visits];
        put_line(out, y.lines(), sent);
        beside[y.lines()] = waiting_at(&line, flow);
        y = y.after_sent(end);
        now = end;
    }
}
