// The source's `msta2`.
ghost use Rattle.std.specs.Prelude.{◌≡◌, ◌≤◌, ◌<◌, unwrap_or, IfSome};
ghost use Rattle.bessel.specs.Msta2 as Msta2;

// What is searched for, and from which order on.
#[derive(Clone, Copy)]
struct Search {
    obj: f64,
    n0: u32,
}

fn search_for(a0: f64, n: u32, mp: u32) -> Search
    ensures { result ≡ Msta2.search_for a0 n mp }
{
    let hmp = 0.5 * (mp as f64);
    let ejn = super::secant::envj(a0, n);
    if ejn <= hmp {
        let n0 = super::msta1::first_order(a0);
        return Search { obj: mp as f64, n0 };
    }
    Search {
        obj: hmp + ejn,
        n0: n,
    }
}

// An order from which backward recurrence gives mp digits of all Bessel functions at x up to order n,
// or none where an order outside 1 to 100,000 would have to be tried.
pub fn msta2(x: f64, n: u32, mp: u32) -> Option<u32>
    ensures value { unwrap_or result 0 ≡ Msta2.msta2 x n mp }
    ensures some_bounds { IfSome result (λ k. (10 < k) × (k ≤ 100010)) }
{
    let a0 = arith::abs(x);
    let s = search_for(a0, n, mp);
    let order = super::secant::searched(a0, s.obj, s.n0)?;
    Some(order + 10)
}
