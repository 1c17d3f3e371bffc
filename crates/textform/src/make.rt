// A text made into a run file: any bytes at all, and the first fault by its line.
ghost use Rattle.std.specs.Prelude.{◌≡◌, ◌≤◌, not, eqb, length, None, IfOk, IfErr};
ghost use Rattle.std.specs.List.{prefix_len};
ghost use Rattle.textform.specs.Grammar.{lines_of, words_of, first, others, field, blankb};
ghost use Rattle.textform.specs.Grammar.{nothing_more, overhead_item, flow_item, event_item, item_in, item_of};
ghost use Rattle.textform.specs.Made.{no_records, fault, judged_line, drafted, newlines, made_in, made_of, Whole};
ghost use Rattle.textform.specs.Needs.{Reads, Stepped, Becomes};

use super::progress::Progress;
use super::{Fault, Item, Made, Want};

// The most bytes of a text (specs/Made.antt).
pub const MOST_TEXT: usize = 131072;

// Whether a byte parts words.
fn is_blank(byte: u8) -> bool
    ensures { result ≡ blankb byte }
{
    byte == b' ' || byte == b'\t' || byte == b'\r'
}

// How many bytes of a line stand before its comment.
fn comment_at(line: &[u8]) -> usize
    ensures value { result ≡ prefix_len (λ b. not (eqb b 35)) line.now }
    ensures inside { result ≤ length line.now }
{
    line.iter().take_while(|b| **b != b'#').count()
}

// How many blanks a line begins with.
fn blanks(line: &[u8]) -> usize
    ensures value { result ≡ prefix_len blankb line.now }
    ensures inside { result ≤ length line.now }
{
    line.iter().take_while(|b| is_blank(**b)).count()
}

// How many bytes the word has with which a line begins.
fn word_len(line: &[u8]) -> usize
    ensures value { result ≡ prefix_len (λ b. not (blankb b)) line.now }
    ensures inside { result ≤ length line.now }
{
    line.iter().take_while(|b| !is_blank(**b)).count()
}

// The next word of a line, without a byte where there is none, and what stands behind it.
fn next_word(line: &[u8]) -> (&[u8], &[u8])
    ensures word { result.0.now ≡ first (words_of line.now) }
    ensures behind { words_of result.1.now ≡ others (words_of line.now) }
{
    let words = &line[blanks(line)..];
    words.split_at(word_len(words))
}

// The number that a word says, where it is in range.
fn field(word: &[u8], least: u64, most: u64) -> Option<u64>
    ensures { result ≡ field least most word.now }
{
    text::word_of(word).filter(|n| (least..=most).contains(n))
}

// The number that the next word says, and what stands behind the word; or what was expected there.
fn number(line: &[u8], least: u64, most: u64, want: Want) -> Result<(u64, &[u8]), Want>
    ensures ok { IfOk result (λ r. Reads (words_of line.now) least most r.0 r.1.now) }
    ensures err { IfErr result (λ w. (w ≡ want) × (field least most (first (words_of line.now)) ≡ None)) }
{
    let (word, rest) = next_word(line);
    let n = field(word, least, most).ok_or(want)?;
    Ok((n, rest))
}

// The record, if nothing stands behind its last field.
fn nothing_more(rest: &[u8], item: Item) -> Result<Item, Want>
    ensures { result ≡ nothing_more (first (words_of rest.now)) item }
{
    let (word, _) = next_word(rest);
    if word.is_empty() {
        Ok(item)
    } else {
        Err(Want::End)
    }
}

// `overhead BYTES`, behind its first word.
fn overhead_item(fields: &[u8]) -> Result<Item, Want>
    ensures { result ≡ overhead_item (words_of fields.now) }
{
    let (overhead, rest) = number(fields, 0, u64::from(drr::MOST_OVERHEAD), Want::Overhead)?;
    nothing_more(rest, Item::OverheadOf(overhead as u32))
}

// `flow QUANTUM MAXIMUM`, behind its first word.
fn flow_item(fields: &[u8]) -> Result<Item, Want>
    ensures { result ≡ flow_item (words_of fields.now) }
{
    let (quantum, fields) = number(
        fields,
        u64::from(drr::LEAST_QUANTUM),
        u64::from(drr::MOST_QUANTUM),
        Want::Quantum,
    )?;
    let (maximum, rest) = number(
        fields,
        u64::from(drr::LEAST_MAXIMUM),
        u64::from(drr::MOST_MAXIMUM),
        Want::Maximum,
    )?;
    nothing_more(rest, Item::FlowOf(quantum as u32, maximum as u32))
}

// `event TICK FLOW LENGTH`, behind its first word.
fn event_item(fields: &[u8]) -> Result<Item, Want>
    ensures { result ≡ event_item (words_of fields.now) }
{
    let (tick, fields) = number(fields, 0, u64::from(u32::MAX), Want::Tick)?;
    let (flow, fields) = number(fields, 0, u64::from(u16::MAX), Want::Flow)?;
    let (length, rest) = number(fields, 0, u64::from(u16::MAX), Want::Length)?;
    nothing_more(rest, Item::EventOf(tick as u32, flow as u16, length as u16))
}

// What a line without its comment says.
fn item_in(line: &[u8]) -> Result<Item, Want>
    ensures { result ≡ item_in (words_of line.now) }
{
    let (name, fields) = next_word(line);
    if name.is_empty() {
        return Ok(Item::Nothing);
    }
    if text::same(name, b"overhead") {
        return overhead_item(fields);
    }
    if text::same(name, b"flow") {
        return flow_item(fields);
    }
    if text::same(name, b"event") {
        return event_item(fields);
    }
    Err(Want::Record)
}

// What a line says.
fn item_of(line: &[u8]) -> Result<Item, Want>
    ensures { result ≡ item_of line.now }
{
    let said = &line[..comment_at(line)];
    // an empty line or a comment is done with before words are looked for
    if said.is_empty() {
        return Ok(Item::Nothing);
    }
    item_in(said)
}

fn newlines(text: &[u8]) -> usize
    ensures { (result ≡ newlines text.now) × (result ≤ length text.now) }
{
    let mut n = 0;
    for byte in text {
        n += usize::from(*byte == b'\n');
    }
    n
}

// What a line says joins the records, or is not what was expected.
fn put_line(records: &mut Progress, line: &[u8]) -> Result<(), Want>
    ensures { Stepped records.old (λ d. judged_line d (item_of line.now)) records.new result }
{
    records.put_item(item_of(line)?)
}

// A text line by line; a table has a flow.
fn make_lines(text: &[u8]) -> Result<Progress, Fault>
    ensures { Becomes (drafted 0 no_records (lines_of text.now)) result }
{
    let mut records = Progress::new();
    let mut line = 0;
    for words in text.split(|b| *b == b'\n') {
        line += 1;
        put_line(&mut records, words).map_err(|want| Fault { line, want })?;
    }
    if records.flows() == 0 {
        return Err(Fault {
            line,
            want: Want::FlowsFirst,
        });
    }
    Ok(records)
}

// A fault, and a file of zeros.
fn faulty(found: Fault) -> Made
    ensures { result ≡ made_in (fault found.line found.want) }
{
    Made {
        answer: Err(found),
        file: [0; 8340],
    }
}

// The run file of a text, or its first fault.
pub fn make_file(text: &[u8]) -> Made
    ensures value { result ≡ made_of text.now }
    ensures whole { Whole result }
{
    if MOST_TEXT < text.len() {
        let line = newlines(&text[..MOST_TEXT]) + 1;
        return faulty(Fault {
            line,
            want: Want::Shorter,
        });
    }
    match make_lines(text) {
        Ok(records) => records.made(),
        Err(found) => faulty(found),
    }
}
