// The characteristic value of each c, from a row of its own; of four c at once where that gives the same.
ghost use Rattle.std.specs.Prelude.{◌≡◌, true, false, ℕ, ◌+◌, ◌<◌, ◌≤◌, length, get_or, IfOk};
ghost use Rattle.arith.specs.Double.{at, #0};
ghost use Rattle.requests.specs.Answers.{code};
ghost use Rattle.requests.specs.Refusals.{out_of_range, cs_of, entries_of};
ghost use Rattle.sheets.specs.Sheet as Sheet;
ghost use Rattle.sheets.specs.Inside.Parameters.{Bisected, RowsFrom, Put};

use requests::{Kind, Mode, Refusal};

// The rows of a mode, one for each c; each has the allowance whole. The list of the c stays beside it: its
// bound is asked together with an index of it, which would stay in the clauses anyhow.
#[derive(Clone, Copy)]
pub(crate) struct Rows {
    pub(crate) kind: Kind,
    pub(crate) m: u16,
    pub(crate) n: u16,
    pub(crate) allowance: u32,
    ghost in_range: { out_of_range (Sheet.mode_with m n #0) ≡ false },
}

// The values at n of the rows of `count` c, one or four: an array, for a sheet has no heap.
#[derive(Clone, Copy)]
pub(crate) struct Found {
    pub(crate) count: usize,
    pub(crate) values: [f64; 4],
}

impl Rows {
    fn mode(self, c: f64) -> Mode
        ensures { result ≡ Sheet.mode_with self.m self.n c }
    {
        Mode {
            m: self.m,
            n: self.n,
            c,
        }
    }

    // The value at n of the row of c.
    fn value_for(self, c: f64) -> Result<f64, Refusal>
        ensures refused { code result ≡ Sheet.row_refusal_for self.kind self.m self.n self.allowance c }
        ensures given { IfOk result (λ value. value ≡ Sheet.cv_for self.kind self.m self.n self.allowance c) }
    {
        // Five arrays, as `rows::row` fills five slices.
        let mut values: [f64; 200] = arith::filled(0.0);
        let mut steps: [u32; 200] = arith::filled(0);
        let mut lowers: [f64; 200] = arith::filled(0.0);
        let mut uppers: [f64; 200] = arith::filled(0.0);
        let mut substituted: [u8; 200] = arith::filled(0);
        let mode = self.mode(c);
        let row = rows::row(
            self.kind,
            mode,
            self.allowance,
            &mut values,
            &mut steps,
            &mut lowers,
            &mut uppers,
            &mut substituted,
        );
        row?;
        Ok(values[(self.n - self.m) as usize])
    }

    // Of the c at index i.
    fn one_row(self, cs: &[f64], i: usize) -> Result<Found, Refusal>
        requires { i < length cs.now }
        ensures { RowsFrom self.kind self.m self.n self.allowance cs.now i result }
    {
        let value = self.value_for(cs[i])?;
        Ok(Found {
            count: 1,
            values: [value, 0.0, 0.0, 0.0],
        })
    }

    // Whether this c has a row that is bisected, of a mode that has angular pairs.
    fn bisected(self, c: f64) -> bool
        ensures { result ≡ true → Bisected self.m self.n c }
    {
        if c < 1e-10 {
            return false;
        }
        let mode = self.mode(c);
        mode.row_refusal().is_ok() && mode.usable().is_ok()
    }

    // Whether there are four c from index i on, each with such a row.
    fn four_bisected(self, cs: &[f64], i: usize) -> bool
        requires { length cs.now ≤ 32 }
        ensures i_in_bounds { result ≡ true → i + 4 ≤ length cs.now }
        ensures bisected { result ≡ true → (q : ℕ) → q < 4 → Bisected self.m self.n (at cs.now (i + q)) }
    {
        if cs.len() < 4 {
            return false;
        }
        if cs.len() - 4 < i {
            return false;
        }
        for q in 0..4 {
            if !self.bisected(cs[i + q]) {
                return false;
            }
        }
        true
    }

    // The cs of the four c from index i on.
    fn four_cs(self, cs: &[f64], i: usize) -> [f64; 4]
        requires { (i + 4 ≤ length cs.now) × (length cs.now ≤ 32) }
        ensures { (q : ℕ) → q < 4 → at result q ≡ cs_of self.kind (Sheet.mode_with self.m self.n (at cs.now (i + q))) }
    {
        let mut out = [0.0; 4];
        for q in 0..4 {
            let mode = self.mode(cs[i + q]);
            out[q] = mode.cs(self.kind);
        }
        out
    }

    // How many entries their matrices have. A loop of its own: `entries` asks that no row is refused, and
    // `cs` asks nothing.
    fn four_entries(self, cs: &[f64], i: usize) -> [u32; 4]
        requires i_in_bounds { (i + 4 ≤ length cs.now) × (length cs.now ≤ 32) }
        requires bisected { (q : ℕ) → q < 4 → Bisected self.m self.n (at cs.now (i + q)) }
        ensures { (q : ℕ) → q < 4 → get_or result q 0 ≡ entries_of (Sheet.mode_with self.m self.n (at cs.now (i + q))) }
    {
        let mut out: [u32; 4] = [0; 4];
        for q in 0..4 {
            let mode = self.mode(cs[i + q]);
            out[q] = requests::entries(mode);
        }
        out
    }

    // Of the four c from index i on, side by side.
    fn four_rows(self, cs: &[f64], i: usize) -> Result<Found, Refusal>
        requires i_in_bounds { (i + 4 ≤ length cs.now) × (length cs.now ≤ 32) }
        requires bisected { (q : ℕ) → q < 4 → Bisected self.m self.n (at cs.now (i + q)) }
        ensures { RowsFrom self.kind self.m self.n self.allowance cs.now i result }
    {
        let squares = self.four_cs(cs, i);
        let entries = self.four_entries(cs, i);
        let m = self.m as u32;
        let n = self.n as u32;
        let last = last_values::last_values(m, n, squares, entries, self.allowance);
        let values = last?;
        Ok(Found { count: 4, values })
    }

    // Of the c from index i on: four or one.
    fn rows_from(self, cs: &[f64], i: usize) -> Result<Found, Refusal>
        requires { (i < length cs.now) × (length cs.now ≤ 32) }
        ensures { RowsFrom self.kind self.m self.n self.allowance cs.now i result }
    {
        if self.four_bisected(cs, i) {
            return self.four_rows(cs, i);
        }
        self.one_row(cs, i)
    }

    // The characteristic value of each c into its place, unless a row is refused.
    pub(crate) fn characteristic_values(
        self,
        cs: &[f64],
        cvs: &mut [f64; 32],
    ) -> Result<(), Refusal>
        requires { length cs.now ≤ 32 }
        ensures refused { code result ≡ Sheet.first_refusal (Sheet.row_refusal_for self.kind self.m self.n self.allowance) cs.now }
        ensures values { code result ≡ 0 → (i : ℕ) → i < length cs.now → at cvs.new i ≡ Sheet.cv_for self.kind self.m self.n self.allowance (at cs.now i) }
    {
        let mut i: usize = 0;
        // A `while`: each turn goes on by one or by four.
        while i < cs.len() {
            let found = self.rows_from(cs, i)?;
            put(found.values, found.count, i, cvs);
            i = i + found.count;
        }
        Ok(())
    }
}

// The first `count` values into the places from index i on. By index, as the contract speaks of places.
fn put(values: [f64; 4], count: usize, i: usize, cvs: &mut [f64; 32])
    requires { (count ≤ 4) × (i + count ≤ 32) }
    ensures { Put values count i cvs.old cvs.new }
{
    for q in 0..count {
        cvs[i + q] = values[q];
    }
}
