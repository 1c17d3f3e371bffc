// Reads the text form of a run file from standard input, and writes the run file to standard output
// (textform::make::make_file); of a text with a fault it writes the fault's line to standard error, and
// nothing else (textform::told::fault_text).
#![tactic(auto)]

use textform::Made;

// Room for one byte more than a text may have, so that a text too long is seen to be.
const ROOM: usize = textform::make::MOST_TEXT + 1;

fn main() {
    let mut text = [0; ROOM];
    let n = io::read_full(0, &mut text);
    let Made { answer, file } = textform::make::make_file(&text[..n]);
    match answer {
        Ok(size) => {
            io::write_all(1, &file[..size]);
        }
        Err(fault) => {
            let mut said = [0; 80];
            let size = textform::told::fault_text(fault, &mut said);
            io::write_all(2, &said[..size]);
        }
    }
}
