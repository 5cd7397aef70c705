// Matrix entries of the modes of order m whose degree is m + k, k of one parity.
ghost use Rattle.std.specs.Prelude.{◌≡◌, ◌+◌, ◌*◌, ◌<◌, ◌≤◌};
ghost use Rattle.sturm.specs.Entries.{entry_a, entry_d, entry_g, entry_e, blank_entries, diagonal, off_diagonal};

// m, k and cs stay numbers, and each function asks for m + k < 4096 or parity < 2 where it needs it: a
// struct of them would be made anew for every entry, and serve for that one.

pub fn entry_a(m: u32, k: u32, cs: f64) -> f64
    requires { m + k < 4096 }
    ensures { result ≡ entry_a m k cs }
{
    factors::factor_a(m, k) * cs
}

pub fn entry_d(m: u32, k: u32, cs: f64) -> f64
    requires { m + k < 4096 }
    ensures { result ≡ entry_d m k cs }
{
    let dm = m as f64;
    let dk0 = (m + k) as f64;
    let dk1 = (m + k + 1) as f64;
    let dk2 = (2 * (m + k)) as f64;
    dk0 * dk1 + (2.0 * dk0 * dk1 - 2.0 * dm * dm - 1.0) / ((dk2 - 1.0) * (dk2 + 3.0)) * cs
}

pub fn entry_g(m: u32, k: u32, cs: f64) -> f64
    requires { m + k < 4096 }
    ensures { result ≡ entry_g m k cs }
{
    let dk = k as f64;
    let dk2 = (2 * (m + k)) as f64;
    dk * (dk - 1.0) / ((dk2 - 3.0) * (dk2 - 1.0)) * cs
}

// Of entry i, counted from 0; zero in the first.
#[tactic(auto, unfolding(crate::specs::Entries::entry_e))]
fn entry_e(m: u32, parity: u32, i: u32, cs: f64) -> f64
    requires { (parity < 2) × (m + (2 * i + parity) < 4096) }
    ensures { result ≡ entry_e m (2 * i + parity) cs }
{
    if i == 0 {
        return 0.0;
    }
    let a = factors::looked_up(m, parity, i - 1) * cs;
    arith::sqrt(a * entry_g(m, 2 * i + parity, cs))
}

// The symmetric tridiagonal matrix of a family: its first `entries` entries on the diagonal and, in e,
// beside it. The e of an entry lies between it and the entry before. Two arrays with their length: memory is
// fixed, and `routines_fill` lends d and e apart.
#[derive(Drop)]
pub struct Matrix {
    pub d: [f64; 300],
    pub e: [f64; 300],
    pub entries: usize,
    ghost fits: { entries ≤ 300 },
}

impl Matrix {
    // The entries, into a matrix that is blank. A call, since the compiler copies the matrix once more
    // where the stores are inlined.
    #[inline(never)]
    #[tactic(auto, unfolding(crate::specs::Entries::first_entries))]
    fn fill(&mut self, m: u32, parity: u32, cs: f64)
        requires { (m < 1000) × (parity < 2) × (self.old.d ≡ blank_entries) × (self.old.e ≡ blank_entries) }
        ensures on_diagonal { self.new.d ≡ diagonal m parity cs self.old.entries }
        ensures beside { self.new.e ≡ off_diagonal m parity cs self.old.entries }
        ensures size { self.new.entries ≡ self.old.entries }
    {
        for at in 0..self.entries {
            let i = at as u32;
            self.d[at] = entry_d(m, 2 * i + parity, cs);
            self.e[at] = entry_e(m, parity, i, cs);
        }
    }
}

// Inlined, so that a matrix is filled where the caller keeps it. Not inlined, both arrays were copied
// twice, a quarter of the time of a small matrix.
#[inline(always)]
#[tactic(auto, unfolding(crate::specs::Entries::blank_entries))]
pub fn family_matrix(m: u32, parity: u32, cs: f64, entries: u32) -> Matrix
    requires { (m < 1000) × (parity < 2) × (entries ≤ 300) }
    ensures on_diagonal { result.d ≡ diagonal m parity cs entries }
    ensures beside { result.e ≡ off_diagonal m parity cs entries }
    ensures size { result.entries ≡ entries }
{
    let d: [f64; 300] = arith::filled(0.0);
    let e: [f64; 300] = arith::filled(0.0);
    let mut matrix = Matrix {
        d,
        e,
        entries: entries as usize,
    };
    matrix.fill(m, parity, cs);
    matrix
}
