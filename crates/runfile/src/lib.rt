// The run file: its reader, the run of its events on one line, and the listing of that run.
#![tactic(auto)]

pub mod fields;
pub mod reader;
mod turns;

ghost use Rattle.std.specs.Prelude.{◌≡◌, length};
ghost use Rattle.drr.specs.Answers.{verdict_paper};
ghost use Rattle.runfile.specs.File.{run_answer};
ghost use Rattle.runfile.specs.Listing.{filled, room_of, filled_lines, filled_beside};

use drr::{Refusal, Refused};

// The whole run of a file: its listing at the start of the lent list, six numbers a line, or a refusal
// that leaves the list alone.
pub fn run(file: &[u8], out: &mut [u64]) -> Result<(), Refused>
    ensures result_value { verdict_paper result ≡ run_answer file.now (length out.old) }
    ensures out_after { out.new ≡ filled file.now out.old }
{
    // room beside the lines of 1,024 events: no file is refused for want of it
    let mut beside = [0u64; 1024];
    run_waiting(file, out, &mut beside)
}

// The same run with a second lent list: beside each line of the listing but the last, the bytes that wait in
// the line's flow when it is written, one number a line. 14 where either list is too short.
pub fn run_waiting(file: &[u8], out: &mut [u64], beside: &mut [u64]) -> Result<(), Refused>
    ensures result_value { verdict_paper result ≡ run_answer file.now (room_of out.old beside.old) }
    ensures out_after { out.new ≡ filled_lines (room_of out.old beside.old) file.now out.old }
    ensures beside_after { beside.new ≡ filled_beside (room_of out.old beside.old) file.now beside.old }
{
    let read = reader::read(file)?;
    let events = read.events;
    let m = events.count;
    if out.len() < 6 * (m + 1) || beside.len() < m {
        return Err(Refusal::ListShort.into());
    }
    turns::run_events(&file[events.at..], m, read.table, out, beside);
    Ok(())
}
