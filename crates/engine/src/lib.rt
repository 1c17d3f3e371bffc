// The scheduler's steps over a lent table and line, each done once: the soundness test, the booking of an
// arrival, and the pick. The public functions lend a State's table and line to it, a run its own.
//
// The contracts speak of a stored line as `line_in line`, which has its rows as lists of lengths.
#![tactic(auto)]

ghost use Rattle.std.specs.Prelude.{◌≡◌, true, false, ◌+◌, ◌-◌, ◌≤◌, ◌<◌, IfSome};
ghost use Rattle.drr.specs.Limits.{most_flows, most_overhead};
ghost use Rattle.drr.specs.State.{line_in, charge, shifted_of, with_visit};
ghost use Rattle.drr.specs.Sound.{headb, rangeb, flow_creditb, flow_numbersb, cellb, soundb};
ghost use Rattle.drr.specs.Facts.{Sound};
ghost use Rattle.drr.specs.Answers.{pick_paper, arrival_paper, outcome};
ghost use Rattle.drr.specs.Arrival.{arrival_of};
ghost use Rattle.drr.specs.Pick.{after, first_of};
ghost use Rattle.drr.specs.Computed.{sending, look as look_of, pick_of};
ghost use Rattle.engine.specs.Needs.{Bookable, Sendable};

use drr::{Common, Line, PickAnswer, Refusal, Table};

// What a packet of this length is charged. Public for a run, whose line is busy for as many ticks.
pub fn charge_of(table: &Table, length: u16) -> u32
    requires { table.now.overhead ≤ most_overhead }
    ensures { result ≡ charge table.now length }
{
    length as u32 + table.overhead
}

// The flow after f, round a table of n.
fn after_flow(n: usize, f: usize) -> usize
    requires { f < most_flows }
    ensures { result ≡ after n f }
{
    if f + 1 < n { f + 1 } else { 0 }
}

// The first flow with a packet waiting, from the flow after the place, round the table, the place
// itself last.
fn next_waiting(n: usize, counts: &[u8; 16], place: usize) -> Option<usize>
    requires n_le_most_flows { n ≤ most_flows }
    requires place_lt_most_flows { place < most_flows }
    ensures first { result ≡ first_of n counts.now n place }
    ensures low { IfSome result (λ f. f < most_flows) }
{
    let mut f = place;
    for _ in 0..n {
        f = after_flow(n, f);
        if 0 < counts[f] {
            return Some(f);
        }
    }
    None
}

// A row loses its oldest length; the freed cell is zero.
fn shift(row: &mut [u16; 32])
    ensures { row.new ≡ shifted_of row.old }
{
    row.copy_within(1.., 0);
    row[31] = 0;
}

// The oldest packet of flow f is sent, in its open visit.
fn send(table: &Table, line: &mut Line, f: usize, visits: u32) -> PickAnswer
    requires { Sendable table.now (line_in line.old) f }
    ensures { outcome (pick_paper result) (line_in line.new)
        ≡ sending table.now (with_visit (line_in line.old) f true) f visits }
{
    let length = line.rows[f].lengths[0];
    let d = line.deficits[f] - charge_of(table, length);
    line.deficits[f] = d;
    line.counts[f] -= 1;
    line.sums[f] -= length as u32;
    shift(&mut line.rows[f].lengths);
    line.place = f;
    line.opened = true;
    PickAnswer::Sent(f, length as u32, d, visits)
}

// Steps 2 and 3: visits are opened round the table until a packet is sent, or nothing waits. The place of
// the last one is told the line only then: read back from it at each visit, a run of quantum 1 took a tenth longer.
fn look(table: &Table, line: &mut Line) -> PickAnswer
    requires sound { Sound table.now (line_in line.old) }
    requires closed { line.old.opened ≡ false }
    ensures { outcome (pick_paper result) (line_in line.new) ≡ look_of table.now 0 (line_in line.old) }
{
    let mut place = line.place;
    let mut visits: u32 = 0;
    loop {
        let Some(f) = next_waiting(table.n, &line.counts, place) else {
            line.place = place;
            return PickAnswer::Idle;
        };
        visits += 1;
        let charge = charge_of(table, line.rows[f].lengths[0]);
        let d = line.deficits[f] + table.quanta[f];
        line.deficits[f] = d;
        place = f;
        if charge <= d {
            return send(table, line, f, visits);
        }
    }
}

// The pick on a sound line.
pub fn pick_in(table: &Table, line: &mut Line) -> PickAnswer
    requires { Sound table.now (line_in line.old) }
    ensures { outcome (pick_paper result) (line_in line.new) ≡ pick_of table.now (line_in line.old) }
{
    let f = line.place;
    if line.opened {
        if line.counts[f] == 0 {
            line.deficits[f] = 0;
        } else if charge_of(table, line.rows[f].lengths[0]) <= line.deficits[f] {
            return send(table, line, f, 0);
        }
        line.opened = false;
    }
    look(table, line)
}

// A packet of `length` bytes for `flow` is put at the end of its row, or refused by 1, 2, 3 or 4.
pub fn book(table: &Table, line: &mut Line, flow: usize, length: u32) -> Result<(), Refusal>
    requires { Bookable table.now (line_in line.old) }
    ensures { outcome (arrival_paper result) (line_in line.new)
        ≡ arrival_of table.now (line_in line.old) flow length }
{
    if table.n <= flow {
        return Err(Refusal::UnknownFlow);
    }
    if length == 0 {
        return Err(Refusal::NoLength);
    }
    if table.maxima[flow] < length {
        return Err(Refusal::OverMaximum);
    }
    let count = line.counts[flow];
    if drr::MOST_WAITING <= count {
        return Err(Refusal::RowFull);
    }
    line.rows[flow].lengths[count as usize] = length as u16;
    line.counts[flow] += 1;
    line.sums[flow] += length;
    Ok(())
}

// n is 0 to 16, the overhead 0 to 64; the place is below n, or 0 and closed if n is 0, and the overhead 0.
fn head_ok(table: &Table, line: &Line) -> bool
    ensures { result ≡ headb table.now (line_in line.now) }
{
    let Common { n, overhead } = drr::common_of(*table);
    if n == 0 {
        overhead == 0 && line.place == 0 && !line.opened
    } else {
        n <= drr::MOST_FLOWS && overhead <= drr::MOST_OVERHEAD && line.place < n
    }
}

// The numbers of a flow that is in use.
fn range_ok(quantum: u32, maximum: u32, count: u8) -> bool
    ensures { result ≡ rangeb quantum maximum count }
{
    (drr::LEAST_QUANTUM..=drr::MOST_QUANTUM).contains(&quantum)
        && (drr::LEAST_MAXIMUM..=drr::MOST_MAXIMUM).contains(&maximum)
        && count <= drr::MOST_WAITING
}

// The deficit of flow f, which is in use: in an open visit, with nothing waiting, or with a packet waiting.
fn credit_ok(table: &Table, line: &Line, f: usize) -> bool
    requires flow { f < most_flows }
    requires overhead { table.now.overhead ≤ most_overhead }
    ensures { result ≡ flow_creditb table.now (line_in line.now) f }
{
    if line.opened && line.place == f {
        line.deficits[f] < table.quanta[f]
    } else if line.counts[f] == 0 {
        line.deficits[f] == 0
    } else {
        line.deficits[f] < charge_of(table, line.rows[f].lengths[0])
    }
}

// The numbers of flow f, in use or not.
fn numbers_ok(table: &Table, line: &Line, f: usize) -> bool
    requires flow { f < most_flows }
    requires overhead { table.now.overhead ≤ most_overhead }
    ensures { result ≡ flow_numbersb table.now (line_in line.now) f }
{
    let (quantum, maximum, count) = (table.quanta[f], table.maxima[f], line.counts[f]);
    if f < table.n {
        range_ok(quantum, maximum, count) && credit_ok(table, line, f)
    } else {
        quantum == 0 && maximum == 0 && line.deficits[f] == 0 && count == 0
    }
}

// Cell k of a row of which `count` lengths wait.
fn cell_ok(k: usize, count: u8, maximum: u32, length: u16) -> bool
    ensures { result ≡ cellb k count maximum length }
{
    if k < count as usize {
        (1..=maximum).contains(&(length as u32))
    } else {
        length == 0
    }
}

// Whether the line is sound over the table. Both loops are left at the first fault. The inner one adds up
// the lengths as it goes: those behind the waiting ones are zero.
pub fn sound_in(table: &Table, line: &Line) -> bool
    ensures { result ≡ soundb table.now (line_in line.now) }
{
    if !head_ok(table, line) {
        return false;
    }
    'flows: {
        for f in 0..16 {
            if !numbers_ok(table, line, f) {
                break 'flows false;
            }
            let mut bytes: u32 = 0;
            for (k, length) in line.rows[f].lengths.iter().enumerate() {
                if !cell_ok(k, line.counts[f], table.maxima[f], *length) {
                    break 'flows false;
                }
                bytes += *length as u32;
            }
            if bytes != line.sums[f] {
                break 'flows false;
            }
        }
        true
    }
}
