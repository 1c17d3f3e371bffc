// The line that tells a text's fault.
ghost use Rattle.std.specs.Prelude.{◌≡◌, length};
ghost use Rattle.io.specs.Counts.{IsPrefixLen};
ghost use Rattle.text.specs.Text.{overlaid};
ghost use Rattle.textform.specs.Words.{expected, fault_within};

use super::{Fault, Want};

// What stands behind the line's number.
fn expected(want: Want) -> &'static [u8]
    ensures { result.now ≡ expected want }
{
    match want {
        Want::Record => b": expected overhead, flow or event\n",
        Want::Overhead => b": expected an overhead, 0 to 64\n",
        Want::Quantum => b": expected a quantum, 1 to 65535\n",
        Want::Maximum => b": expected a maximum, 1 to 9216\n",
        Want::Tick => b": expected a tick, 0 to 4294967295\n",
        Want::Flow => b": expected a flow, 0 to 65535\n",
        Want::Length => b": expected a length, 0 to 65535\n",
        Want::End => b": expected the end of the line\n",
        Want::OverheadFirst => b": expected the overhead before the flows\n",
        Want::OneOverhead => b": expected at most one overhead\n",
        Want::FlowsFirst => b": expected a flow before any event\n",
        Want::EventsOnly => b": expected an event: flows come first\n",
        Want::FewerFlows => b": expected at most 16 flows\n",
        Want::FewerEvents => b": expected at most 1024 events\n",
        Want::LaterTick => b": expected a tick not below the one before\n",
        Want::Shorter => b": expected the text to end by byte 131072\n",
    }
}

// The line of a fault at the start of a lent buffer, and how many bytes it has; nothing, and 0, where the
// buffer has not room for any line number. 80 bytes are enough (fault_fits).
pub fn fault_text(fault: Fault, buf: &mut [u8]) -> usize
    ensures value { result ≡ length (fault_within fault.line fault.want (length buf.old)) }
    ensures buf_after { buf.new ≡
        overlaid (fault_within fault.line fault.want (length buf.old)) buf.old }
    ensures prefix_len { IsPrefixLen result buf.new }
{
    text::around_text(
        b"line ",
        widths::u64_of_usize(fault.line),
        expected(fault.want),
        buf,
    )
}
