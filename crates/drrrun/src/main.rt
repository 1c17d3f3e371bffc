// Reads a run file from standard input, and prints the text of its run: the listing, or the line of its
// refusal (answers::run_text). With the argument --waiting each line of the listing but the last has one
// field more, the bytes waiting in its flow (answers::run_waiting_text). With any other it says what is
// wrong, and prints nothing.
#![tactic(auto)]

ghost use Rattle.io.specs.Counts.{IsPrefixLen};

use std::env::{Env, FillError};

// What the arguments ask for.
#[derive(Clone, Copy)]
enum Asked {
    Listing,
    Waiting,
}

// What is asked for, if no argument is wrong.
fn asked_for(rt: &impl Env) -> Option<Asked> {
    // an option has no more than 32 bytes
    let mut word = [0; 32];
    let first = rt.arg(1, &mut word);
    let second = rt.arg(2, &mut [0]);
    match (first, second) {
        (Err(FillError::NotPresent), _) => Some(Asked::Listing),
        (Ok(n), Err(FillError::NotPresent)) if text::same(&word[..n], b"--waiting") => Some(
            Asked::Waiting,
        ),
        _ => {
            io::write_all(
                2,
                b"drrrun: takes one argument at most, and that is --waiting\n",
            );
            None
        }
    }
}

// What is printed of a file, at the start of a lent buffer, and how many bytes it has.
fn printed(asked: Asked, file: &[u8], text: &mut [u8]) -> usize
    ensures { IsPrefixLen result text.new }
{
    match asked {
        Asked::Listing => answers::run_text(file, text),
        Asked::Waiting => answers::run_waiting_text(file, text),
    }
}

fn main(rt: HostRuntime) {
    let Some(asked) = asked_for(&rt) else {
        return;
    };
    // one byte more than a run file may have, so that a file too long is seen to be
    let mut file = [0; 12289];
    let n = io::read_full(0, &mut file);
    let mut text = [0; answers::WAITING_ROOM];
    let size = printed(asked, &file[..n], &mut text);
    io::write_all(1, &text[..size]);
}
