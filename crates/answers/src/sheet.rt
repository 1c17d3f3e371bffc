// The figures of a state, a line for each flow. Each function puts its text at the start of a lent buffer that
// has room for it, and says how many bytes that is.
ghost use Rattle.std.specs.Prelude.{◌≡◌, ◌≤◌, true, length};
ghost use Rattle.drr.specs.Limits.{most_flows};
ghost use Rattle.drr.specs.Sound.{sound_state};
ghost use Rattle.answers.specs.Printed.{most_sizes};

use crate::Dress;
use drr::State;

// A sound state, the numbers of bytes that are asked, and the dress.
#[derive(Clone, Copy)]
pub struct Sheet<'a> {
    pub state: State,
    pub sizes: &'a [u32],
    pub dress: Dress,
    ghost sound: { sound_state state ≡ true },
    ghost flows_few: { state.table.n ≤ most_flows },
    ghost sizes_few: { length sizes.now ≤ most_sizes },
}

impl Sheet<'_> {
    ghost use Rattle.std.specs.Prelude.{◌<◌};
    ghost use Rattle.text.specs.Text.{overlaid};
    ghost use Rattle.answers.specs.Printed.{row_room, flows_room, titled_room, figures_room};
    ghost use Rattle.answers.specs.Printed.{flow_line, flow_lines, titled_text, rows_text, dressed_text};

    // The line of a flow.
    fn put_flow(&self, flow: usize, buf: &mut [u8]) -> usize
        requires { (flow < self.now.state.table.n) × (row_room ≤ length buf.old) }
        ensures { let text = flow_line self.now.state.table self.now.sizes.now self.now.dress.rate flow in
            (result ≡ length text) × (buf.new ≡ overlaid text buf.old) }
    {
        let mut list = [0u64; 21];
        let n = figures::all_figures(self.state, flow, self.sizes, &mut list);
        if 0 < self.dress.rate {
            let time = figures::value_of(figures::wait_time(self.state, flow, self.dress.rate));
            return text::timed_text(&list[..n], time, buf);
        }
        text::numbers_text(&list[..n], buf)
    }

    // A line for each flow.
    fn put_flows(&self, buf: &mut [u8]) -> usize
        requires { flows_room ≤ length buf.old }
        ensures { let text = flow_lines self.now.state.table self.now.sizes.now self.now.dress.rate 0 self.now.state.table.n in
            (result ≡ length text) × (buf.new ≡ overlaid text buf.old) }
    {
        let mut at = 0;
        for flow in 0..self.state.table.n {
            at += self.put_flow(flow, &mut buf[at..]);
        }
        at
    }

    // The titles, if they are asked for, and a line for each flow.
    fn put_titled(&self, buf: &mut [u8]) -> usize
        requires { titled_room ≤ length buf.old }
        ensures { let text = titled_text self.now.state.table self.now.sizes.now self.now.dress in
            (result ≡ length text) × (buf.new ≡ overlaid text buf.old) }
    {
        if self.dress.titled {
            let at = text::titles_text(self.sizes, 0 < self.dress.rate, buf);
            return at + self.put_flows(&mut buf[at..]);
        }
        self.put_flows(buf)
    }

    // The same behind the line of the table's overhead.
    fn put_rows(&self, buf: &mut [u8]) -> usize
        requires { figures_room ≤ length buf.old }
        ensures { let text = rows_text self.now.state.table self.now.sizes.now self.now.dress in
            (result ≡ length text) × (buf.new ≡ overlaid text buf.old) }
    {
        let at = crate::overhead_line(self.state.table.overhead, buf);
        at + self.put_titled(&mut buf[at..])
    }

    // .. dressed whole.
    pub fn put(&self, buf: &mut [u8]) -> usize
        requires { figures_room ≤ length buf.old }
        ensures { let text = dressed_text self.now.state.table self.now.sizes.now self.now.dress in
            (result ≡ length text) × (buf.new ≡ overlaid text buf.old) }
    {
        let n = self.put_rows(buf);
        text::part_by(self.dress.parting, &mut buf[..n]);
        n
    }
}
