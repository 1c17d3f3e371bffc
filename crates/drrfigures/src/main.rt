// Reads a run file from standard input and prints a line for each flow of its table: flow, quantum,
// maximum, C, wait, and owed of each number of bytes that is given as an argument, of 1,000,000 if none
// is; before them all the line of the table's overhead, if that is not 0. For a file that is refused it
// prints the line of its refusal (answers::figures_text).
//
// Options stand among the numbers, in any order: --header for a line of titles before the flows', --csv
// for commas in place of the spaces, --rate BITS for the wait in seconds, as the last field, on a line of
// so many bits a second. With a wrong argument it says what is wrong, and prints nothing.
#![tactic(auto)]

ghost use Rattle.std.specs.Prelude.{◌≤◌};

use answers::{Dress, MOST_SIZES};
use std::env::{Env, FillError};

// The highest rate.
const MOST_RATE: u64 = 1000000000000;

// What an argument says.
#[derive(Clone, Copy)]
enum Said {
    Header,
    Csv,
    RateNext,
    Rate(u64),
    Bytes(u32),
}

// Why the arguments ask for nothing.
#[derive(Clone, Copy)]
enum Fault {
    EmptyOrLong,
    NoRate,
    NoBytes,
    NoOption,
    TooMany,
    RateDue,
}

// A word where a rate is due.
fn rate_meant(word: &[u8]) -> Result<Said, Fault> {
    match text::word_of(word) {
        Some(rate @ 1..=MOST_RATE) => Ok(Said::Rate(rate)),
        _ => Err(Fault::NoRate),
    }
}

// A word that is no option.
fn bytes_meant(word: &[u8]) -> Result<Said, Fault> {
    let number = text::word_of(word).ok_or(Fault::NoBytes)?;
    let bytes = u32::try_from(number).map_err(|_| Fault::NoBytes)?;
    Ok(Said::Bytes(bytes))
}

// A word, by whether a rate is due.
fn meaning(word: &[u8], due: bool) -> Result<Said, Fault> {
    match word {
        b"" => Err(Fault::EmptyOrLong),
        _ if due => rate_meant(word),
        b"--header" => Ok(Said::Header),
        b"--csv" => Ok(Said::Csv),
        b"--rate" => Ok(Said::RateNext),
        [b'-', b'-', ..] => Err(Fault::NoOption),
        _ => bytes_meant(word),
    }
}

// What the arguments have said so far: these numbers of bytes, as many as `count`, the dress, and whether a
// rate is due.
#[derive(Clone, Copy)]
struct Asked {
    sizes: [u32; MOST_SIZES],
    count: usize,
    dress: Dress,
    due: bool,
    ghost in_bounds: { count ≤ 16 },
}

impl Asked {
    fn new() -> Asked {
        Asked {
            sizes: [0; MOST_SIZES],
            count: 0,
            dress: Dress {
                parting: b' ',
                titled: false,
                rate: 0,
            },
            due: false,
        }
    }

    // One argument more.
    fn hear(&mut self, word: &[u8]) -> Result<(), Fault> {
        let said = meaning(word, self.due)?;
        self.due = matches!(said, Said::RateNext);
        match said {
            Said::Header => self.dress.titled = true,
            Said::Csv => self.dress.parting = b',',
            Said::RateNext => {}
            Said::Rate(bits) => self.dress.rate = bits,
            Said::Bytes(bytes) => {
                if self.count == MOST_SIZES {
                    return Err(Fault::TooMany);
                }
                self.sizes[self.count] = bytes;
                self.count += 1;
            }
        }
        Ok(())
    }

    // The end of the arguments: 1,000,000 bytes where they name none.
    fn end(&mut self) -> Result<(), Fault> {
        if self.due {
            return Err(Fault::RateDue);
        }
        if self.count == 0 {
            self.sizes[0] = 1000000;
            self.count = 1;
        }
        Ok(())
    }
}

// Says what is wrong with the arguments, or with this word of theirs.
fn complain(fault: Fault, word: &[u8]) {
    io::write_all(2, b"drrfigures: ");
    if let Fault::NoRate | Fault::NoBytes | Fault::NoOption = fault {
        io::write_all(2, b"'");
        io::write_all(2, word);
    }
    let why: &[u8] = match fault {
        Fault::EmptyOrLong => b"an argument is empty, or too long to be a number or an option\n",
        Fault::NoRate => {
            b"' is not a rate: digits alone are wanted, 1 to 1000000000000 bits a second, such as 10000000\n"
        }
        Fault::NoBytes => {
            b"' is not a number of bytes: digits alone are wanted, such as 1000000, and at most 4294967295\n"
        }
        Fault::NoOption => b"' is no option: --header, --csv and --rate BITS are\n",
        Fault::TooMany => b"more than 16 numbers of bytes\n",
        Fault::RateDue => b"--rate wants a number of bits a second behind it, such as 10000000\n",
    };
    io::write_all(2, why);
}

// What the arguments ask for, if none is wrong.
fn asked_for(rt: &impl Env) -> Option<Asked> {
    let mut asked = Asked::new();
    for i in 1..usize::MAX {
        // no number and no option has more than 32 bytes
        let mut word = [0; 32];
        let n = match rt.arg(i, &mut word) {
            Err(FillError::NotPresent) => break,
            Err(FillError::TooLong) => 0,
            Ok(n) => n,
        };
        if let Err(fault) = asked.hear(&word[..n]) {
            complain(fault, &word[..n]);
            return None;
        }
    }
    if let Err(fault) = asked.end() {
        complain(fault, b"");
        return None;
    }
    Some(asked)
}

fn main(rt: HostRuntime) {
    let Some(asked) = asked_for(&rt) else {
        return;
    };
    // one byte more than a run file may have, so that a file too long is seen to be
    let mut file = [0; 12289];
    let n = io::read_full(0, &mut file);
    let mut text = [0; answers::FIGURES_ROOM];
    let size = answers::figures_text(
        &file[..n],
        &asked.sizes[..asked.count],
        asked.dress,
        &mut text,
    );
    io::write_all(1, &text[..size]);
}
