// The two figures of a flow, C, and the wait in time, of the four numbers that they are made of. The type has these
// numbers within the bounds of a table within setup's limits, so that no sum or product of them passes 64 bits.
ghost use Rattle.std.specs.Prelude.{◌≡◌, ◌*◌, ◌≤◌, length, sum};
ghost use Rattle.drr.specs.Limits.{most_flows, least_quantum, most_quantum, most_charge, most_quanta, most_charges};

use drr::Table;

// A second, in hundred-millionths of one.
const SECOND: u64 = 100000000;

// The flow's quantum and maximum charge, and the sums of all of them.
#[derive(Clone, Copy)]
pub struct Measures {
    quantum: u64,
    charge: u64,
    quanta: u64,
    charges: u64,
    ghost quantum_least: { least_quantum ≤ quantum },
    ghost quantum_most: { quantum ≤ most_quantum },
    ghost charge_most: { charge ≤ most_charge },
    ghost quantum_in: { quantum ≤ quanta },
    ghost charge_in: { charge ≤ charges },
    ghost quanta_most: { quanta ≤ most_quanta },
    ghost charges_most: { charges ≤ most_charges },
}

// The sum of the cells: of all quanta it is F, of all maxima L without the overheads.
fn sum_of(cells: &[u32]) -> u64
    requires { length cells.now ≤ most_flows }
    ensures total { result ≡ sum cells.now }
    ensures within { result ≤ most_flows * 4294967295 }
{
    cells.iter().map(|cell| u64::from(*cell)).sum()
}

impl Measures {
    ghost use Rattle.std.specs.Prelude.{ℕ};
    ghost use Rattle.drr.specs.declared.Table.{Table};
    ghost use Rattle.drr.specs.Figures.{owed, wait};
    ghost use Rattle.figures.specs.Needs.{Known, AreOf, lag_from, most_wait};
    ghost use Rattle.figures.specs.Time.{wait_time};

    // Those of a flow of the table.
    pub fn of(table: Table, flow: usize) -> Self
        requires { Known table flow }
        ensures { AreOf result table flow }
    {
        let overhead = widths::u64_of_u32(table.overhead);
        Measures {
            quantum: u64::from(table.quanta[flow]),
            charge: u64::from(table.maxima[flow]) + overhead,
            quanta: sum_of(&table.quanta[..table.n]),
            charges: sum_of(&table.maxima[..table.n]) + widths::u64_of_usize(table.n) * overhead,
        }
    }

    // C = Q × (L - l) + (F - Q) × (Q + l), with each l raised by the overhead.
    pub fn lag(self) -> u64
        ensures { result ≡ lag_from self }
    {
        self.quantum * (self.charges - self.charge)
            + (self.quanta - self.quantum) * (self.quantum + self.charge)
    }

    // Q × S - C by F, rounded up; nothing is owed while Q × S is at most C.
    pub fn owed(self, bytes: u32) -> u64
        ensures { (T : Table) (i : ℕ) → AreOf self T i → result ≡ owed T i bytes }
    {
        (self.quantum * u64::from(bytes))
            .saturating_sub(self.lag())
            .div_ceil(self.quanta)
    }

    // "C / Q rounded down, plus 1".
    pub fn wait(self) -> u64
        ensures within { result ≤ most_wait }
        ensures value { (T : Table) (i : ℕ) → AreOf self T i → result ≡ wait T i }
    {
        self.lag() / self.quantum + 1
    }

    // The wait in hundred-millionths of a second on a line of so many bits a second, rounded up; 0 for a rate of 0.
    pub fn time(self, rate: u64) -> u64
        ensures { (T : Table) (i : ℕ) → AreOf self T i → result ≡ wait_time T i rate }
    {
        if rate == 0 {
            return 0;
        }
        let bits = self.wait() * 8;
        (bits * SECOND).div_ceil(rate)
    }
}
