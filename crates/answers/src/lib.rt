// What the programs print: a file's bytes to the text of its answer, in a lent buffer. A program over
// these reads and writes, and nothing else.
#![tactic(auto)]

ghost use Rattle.std.specs.Prelude.{◌≡◌, length};
ghost use Rattle.io.specs.Counts.{IsPrefixLen};
ghost use Rattle.drr.specs.Answers.{number_of};
ghost use Rattle.text.specs.Text.{refusal_within, overlaid};
ghost use Rattle.answers.specs.Printed.{overhead_within, run_text_within, waiting_text_within, figures_text_within};

mod sheet;

use drr::{Refusal, Refused};
use sheet::Sheet;

// Bytes that are room for any run's text, for the same with the bytes waiting, and for the figures of any
// table.
pub const RUN_ROOM: usize = 110700;

pub const WAITING_ROOM: usize = 132204;

pub const FIGURES_ROOM: usize = 11250;
// How many numbers of bytes may be asked.
pub const MOST_SIZES: usize = 16;

// The line of a refusal at the start of a lent buffer, and how many bytes it has; nothing, and 0, where
// the buffer has fewer than 44 bytes.
pub fn refusal_line(why: Refusal, place: usize, buf: &mut [u8]) -> usize
    ensures { let text = refusal_within (number_of why) place (length buf.old) in
        (result ≡ length text) × (buf.new ≡ overlaid text buf.old) }
{
    let number = widths::u64_of_u32(drr::refusal_number(why));
    text::refusal_text(number, widths::u64_of_usize(place), buf)
}

// The line of an overhead at the start of a lent buffer, and how many bytes it has; nothing, and 0, where
// the overhead is 0 or the buffer has fewer than 30 bytes.
pub fn overhead_line(overhead: u32, buf: &mut [u8]) -> usize
    ensures { let text = overhead_within overhead (length buf.old) in
        (result ≡ length text) × (buf.new ≡ overlaid text buf.old) }
{
    if overhead == 0 {
        return 0;
    }
    text::around_text(b"overhead ", u64::from(overhead), b"\n", buf)
}

// What `drrrun` prints of a file's bytes, at the start of a lent buffer, and how many bytes it has;
// nothing, and 0, where the buffer has fewer than 110,700 bytes.
pub fn run_text(file: &[u8], buf: &mut [u8]) -> usize
    ensures value { result ≡ length (run_text_within file.now (length buf.old)) }
    ensures buf_after { buf.new ≡
        overlaid (run_text_within file.now (length buf.old)) buf.old }
    ensures prefix_len { IsPrefixLen result buf.new }
{
    if buf.len() < RUN_ROOM {
        return 0;
    }
    // room for the lines of 1,024 events and the last: no file is refused for want of room
    let mut list = [0u64; 6150];
    match runfile::run(file, &mut list) {
        Ok(()) => text::listing_text(&list, buf),
        Err(Refused { why, place }) => refusal_line(why, place, buf),
    }
}

// What `drrrun --waiting` prints of a file's bytes, at the start of a lent buffer, and how many bytes it
// has; nothing, and 0, where the buffer has fewer than 132,204 bytes.
pub fn run_waiting_text(file: &[u8], buf: &mut [u8]) -> usize
    ensures value { result ≡ length (waiting_text_within file.now (length buf.old)) }
    ensures buf_after { buf.new ≡
        overlaid (waiting_text_within file.now (length buf.old)) buf.old }
    ensures prefix_len { IsPrefixLen result buf.new }
{
    if buf.len() < WAITING_ROOM {
        return 0;
    }
    // .. and for a number beside each line but the last
    let mut lines = [0u64; 6150];
    let mut beside = [0u64; 1024];
    match runfile::run_waiting(file, &mut lines, &mut beside) {
        Ok(()) => text::beside_text(&lines, &beside, buf),
        Err(Refused { why, place: at }) => refusal_line(why, at, buf),
    }
}

// How the figures are dressed: the byte that parts the fields, whether titles come first, and the line's
// rate in bits a second, for the wait in seconds; 0 where no time is asked.
#[derive(Clone, Copy)]
pub struct Dress {
    pub parting: u8,
    pub titled: bool,
    pub rate: u64,
}

// What `drrfigures` prints of a file's bytes and these numbers of bytes in a dress, at the start of a
// lent buffer, and how many bytes it has; nothing, and 0, where the buffer has fewer than 11,250 bytes or
// the numbers are more than 16.
pub fn figures_text(file: &[u8], sizes: &[u32], dress: Dress, buf: &mut [u8]) -> usize
    ensures value { result ≡ length
        (figures_text_within file.now sizes.now dress (length buf.old)) }
    ensures buf_after { buf.new ≡
        overlaid (figures_text_within file.now sizes.now dress (length buf.old))
        buf.old }
    ensures prefix_len { IsPrefixLen result buf.new }
{
    if buf.len() < FIGURES_ROOM || MOST_SIZES < sizes.len() {
        return 0;
    }
    let made = runfile::reader::read_flows(file);
    match made.answer {
        Ok(()) => Sheet {
            state: made.state,
            sizes,
            dress,
        }
        .put(buf),
        Err(fault) => refusal_line(fault.why, fault.place, buf),
    }
}
