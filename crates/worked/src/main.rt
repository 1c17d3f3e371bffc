// Document 01's worked example by direct calls of setup, arrival and pick.
//
// Prints a line a call: `A flow length` for an accepted arrival, `D flow length refusal` for a
// refused one, `S flow length deficit visits` for a packet sent, `I` for idle, and after each pick
// `= deficit deficit deficit`, those of the three flows; `R refusal place` for a refused setup. The ticks
// of the run are left out: the calls stand in its order.
#![tactic(auto)]

use drr::{FlowRecord, PickAnswer, State, Terms};

// A line: what it tells, and its numbers.
fn line(told: &[u8], numbers: &[u64]) {
    io::write_all(1, told);
    for number in numbers {
        io::write_all(1, b" ");
        io::print_decimal(1, *number);
    }
    io::write_all(1, b"\n");
}

fn arrive(s: State, flow: usize, length: u32) -> State {
    let arrived = scheduler::arrival(s, flow, length);
    let (flow, length) = (widths::u64_of_usize(flow), widths::u64_of_u32(length));
    match arrived.answer {
        Ok(()) => line(b"A", &[flow, length]),
        Err(why) => {
            let number = u64::from(drr::refusal_number(why));
            line(b"D", &[flow, length, number])
        }
    }
    arrived.state
}

fn take(s: State) -> State {
    let picked = scheduler::pick(s);
    match picked.answer {
        PickAnswer::Idle => line(b"I", &[]),
        PickAnswer::Sent(flow, length, deficit, visits) => {
            let numbers = [length, deficit, visits].map(u64::from);
            line(b"S", &[flow as u64, numbers[0], numbers[1], numbers[2]])
        }
        PickAnswer::Refused(why) => { line(b"R", &[u64::from(drr::refusal_number(why))]) }
    }
    let deficits = picked.state.line.deficits.map(u64::from);
    line(b"=", &deficits[..3]);
    picked.state
}

fn calls(fresh: State) {
    let mut s = fresh;
    s = arrive(s, 0, 200);
    s = arrive(s, 0, 750);
    s = arrive(s, 1, 500);
    s = arrive(s, 2, 400);
    s = take(s);
    s = arrive(s, 2, 700);
    s = take(s);
    s = take(s);
    s = arrive(s, 1, 250);
    s = take(s);
    s = take(s);
    s = take(s);
}

fn main() {
    let flow = |quantum, maximum| FlowRecord { quantum, maximum };
    let list = [flow(500, 800), flow(300, 800), flow(400, 600)];
    let made = scheduler::flows::setup(&list, Terms { overhead: 0 });
    match made.answer {
        Ok(()) => calls(made.state),
        Err(fault) => {
            let number = u64::from(drr::refusal_number(fault.why));
            line(b"R", &[number, fault.place as u64])
        }
    }
}
