// A run file shown as text, into a lent buffer.
ghost use Rattle.std.specs.Prelude.{◌≡◌, ◌+◌, ◌*◌, ◌≤◌, ◌++◌, length};
ghost use Rattle.io.specs.Counts.{IsPrefixLen};
ghost use Rattle.drr.specs.Limits.{most_flows, most_events};
ghost use Rattle.runfile.specs.File.{events_from};
ghost use Rattle.text.specs.Text.{numbers_text, overlaid};
ghost use Rattle.answers.specs.Printed.{overhead_room};
ghost use Rattle.textform.specs.Made.{each};
ghost use Rattle.textform.specs.Shown.{flow_text, event_text, flows_of, table_text, flow_line_room, event_line_room, shown_within};

use drr::Table;
use runfile::fields::{le2, le4};

// Bytes that are room for any run file's text.
pub const SHOWN_ROOM: usize = 71438;

// A record's line: its word, with the space behind it, and its numbers. This and the next functions ask
// for the room that such lines may take, and answer how many bytes they took.
fn put_record(word: &[u8], numbers: &[u64], buf: &mut [u8]) -> usize
    requires { length word.now + 21 * length numbers.now ≤ length buf.old }
    ensures { let text = word.now ++ numbers_text numbers.now in
        (result ≡ length text) × (buf.new ≡ overlaid text buf.old) }
{
    let size = word.len();
    buf[..size].copy_from_slice(word);
    size + text::numbers_text(numbers, &mut buf[size..])
}

// A line for each flow of a table.
fn put_flows(table: Table, buf: &mut [u8]) -> usize
    requires { (table.n ≤ most_flows) × (flow_line_room * table.n ≤ length buf.old) }
    ensures { let text = each flow_text (flows_of table) in
        (result ≡ length text) × (buf.new ≡ overlaid text buf.old) }
{
    let mut at = 0;
    for (quantum, maximum) in table.quanta.iter().zip(&table.maxima).take(table.n) {
        let numbers = [u64::from(*quantum), u64::from(*maximum)];
        at += put_record(b"flow ", &numbers, &mut buf[at..]);
    }
    at
}

// .. behind the line of its overhead.
fn put_table(table: Table, buf: &mut [u8]) -> usize
    requires { (table.n ≤ most_flows) × (overhead_room + flow_line_room * table.n ≤ length buf.old) }
    ensures { let text = table_text table in
        (result ≡ length text) × (buf.new ≡ overlaid text buf.old) }
{
    let at = answers::overhead_line(table.overhead, buf);
    at + put_flows(table, &mut buf[at..])
}

// A line for each of m events that stand at the start of a part of the file.
fn put_events(t: &[u8], m: usize, buf: &mut [u8]) -> usize
    requires { (8 * m ≤ length t.now) × (m ≤ most_events) × (event_line_room * m ≤ length buf.old) }
    ensures { let text = each event_text (events_from t.now 0 m) in
        (result ≡ length text) × (buf.new ≡ overlaid text buf.old) }
{
    let mut at = 0;
    for event in t[..8 * m].chunks_exact(8) {
        let numbers = [
            le4(event, 0) as u64,
            le2(event, 4) as u64,
            le2(event, 6) as u64,
        ];
        at += put_record(b"event ", &numbers, &mut buf[at..]);
    }
    at
}

// The text of a file's bytes, or the line of its refusal, at the start of a lent buffer, and how many bytes
// it has; nothing, and 0, where the buffer has fewer than 71,438 bytes.
pub fn show_text(file: &[u8], buf: &mut [u8]) -> usize
    ensures value { result ≡ length (shown_within file.now (length buf.old)) }
    ensures buf_after { buf.new ≡
        overlaid (shown_within file.now (length buf.old)) buf.old }
    ensures prefix_len { IsPrefixLen result buf.new }
{
    if buf.len() < SHOWN_ROOM {
        return 0;
    }
    match runfile::reader::read(file) {
        Ok(read) => {
            let size = put_table(read.table, buf);
            let events = read.events;
            size + put_events(&file[events.at..], events.count, &mut buf[size..])
        }
        Err(fault) => answers::refusal_line(fault.why, fault.place, buf),
    }
}
