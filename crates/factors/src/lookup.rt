// The part of a before cs, in two ways that give the same bits.
ghost use Rattle.std.specs.Prelude.{◌≡◌, ◌+◌, ◌*◌, ◌<◌};
ghost use Rattle.factors.specs.Factors.{factor_a};

use super::factor_table::table;

// Worked out. Both products are exact, so only the division rounds.
pub fn factor_a(m: u32, k: u32) -> f64
    requires { m + k < 4096 }
    ensures { result ≡ factor_a m k }
{
    let d2k = (2 * m + k) as f64;
    let dk2 = (2 * (m + k)) as f64;
    (d2k + 2.0) * (d2k + 1.0) / ((dk2 + 3.0) * (dk2 + 5.0))
}

// Of entry i of a family: the table has the first 200 entries of the orders up to 3.
#[tactic(auto, using(crate::proofs::Places::read_there, crate::proofs::Places::no_nan))]
pub fn looked_up(m: u32, parity: u32, i: u32) -> f64
    requires { (parity < 2) × (m + (2 * i + parity) < 4096) }
    ensures { result ≡ factor_a m (2 * i + parity) }
{
    if m < 4 {
        if i < 200 {
            let place = 400 * m + 200 * parity + i;
            return f64::from_bits(table()[place as usize]);
        }
    }
    factor_a(m, 2 * i + parity)
}
