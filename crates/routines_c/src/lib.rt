// The ported routines as Rust callers link them, for the differential test and the benchmark. What
// buyers link is `spheroidal_c`. It is a C interface: a mode comes as m, n and c, so that each routine asks
// for `Usable`; arrays come apart; and a number that was not found is 0.
#![tactic(auto)]

ghost use Rattle.std.specs.Prelude.{◌≡◌, cond, eqb, ◌<◌, ◌≤◌};
ghost use Rattle.sturm.specs.Entries.{diagonal, off_diagonal};
ghost use Rattle.expansion.specs.Terms.{Usable};
ghost use Rattle.expansion.specs.Sdmn as Sdmn;
ghost use Rattle.expansion.specs.Sckb as Sckb;
ghost use Rattle.angular.specs.Aswfa as Aswfa;
ghost use Rattle.joining.specs.Kmn as Kmn;
ghost use Rattle.joining.specs.Qstar as Qstar;
ghost use Rattle.joining.specs.Cbk as Cbk;
ghost use Rattle.bessel.specs.Msta1 as Msta1;
ghost use Rattle.bessel.specs.Msta2 as Msta2;
ghost use Rattle.bessel.specs.Sphj as Sphj;
ghost use Rattle.bessel.specs.Sphy as Sphy;

use expansion::terms::Mode;

// The diagonal of one parity's matrix and the roots beside it.
#[unsafe(no_mangle)]
pub extern "C" fn routines_fill(
    m: u32,
    parity: u32,
    cs: f64,
    entries: u32,
    d: &mut [f64; 300],
    e: &mut [f64; 300],
)
    requires { (m < 1000) × (parity < 2) × (entries ≤ 300) }
    ensures d_after { d.new ≡ diagonal m parity cs entries }
    ensures e_after { e.new ≡ off_diagonal m parity cs entries }
{
    let matrix = sturm::family_matrix(m, parity, cs, entries);
    d.copy_from_slice(&matrix.d);
    e.copy_from_slice(&matrix.e);
}

// kd is 1 or -1.
#[unsafe(no_mangle)]
pub extern "C" fn routines_sdmn(m: u32, n: u32, c: f64, cv: f64, kd: f64, df: &mut [f64; 200])
    requires { Usable m n c }
    ensures { df.new ≡ Sdmn.sdmn m n c cv kd }
{
    *df = expansion::sdmn::sdmn(Mode { m, n, c }, cv, kd);
}

#[unsafe(no_mangle)]
pub extern "C" fn routines_sckb(df: &[f64; 200], m: u32, n: u32, c: f64, ck: &mut [f64; 200])
    requires { Usable m n c }
    ensures { ck.new ≡ Sckb.sckb df.now m n c }
{
    *ck = expansion::sckb::sckb(df, Mode { m, n, c });
}

#[unsafe(no_mangle)]
pub extern "C" fn routines_kmn(df: &[f64; 200], m: u32, n: u32, c: f64) -> f64
    requires { Usable m n c }
    ensures { result ≡ Kmn.kmn df.now m n c }
{
    joining::kmn::kmn(df, Mode { m, n, c })
}

#[unsafe(no_mangle)]
pub extern "C" fn routines_qstar(
    ck: &[f64; 200],
    m: u32,
    n: u32,
    c: f64,
    ck1: f64,
    qs: &mut f64,
    qt: &mut f64,
)
    requires { (m < 200) × (m ≤ n) }
    ensures { record { qs = qs.new; qt = qt.new } ≡ Qstar.qstar ck.now m n c ck1 }
{
    let factors = joining::qstar::qstar(ck, m, n, c, ck1);
    *qs = factors.qs;
    *qt = factors.qt;
}

#[unsafe(no_mangle)]
pub extern "C" fn routines_cbk(
    ck: &[f64; 200],
    m: u32,
    n: u32,
    c: f64,
    cv: f64,
    qt: f64,
    bk: &mut [f64; 200],
)
    requires { Usable m n c }
    ensures { bk.new ≡ Cbk.cbk ck.now m n c cv qt }
{
    *bk = joining::cbk::cbk(ck, Mode { m, n, c }, cv, qt);
}

#[unsafe(no_mangle)]
pub extern "C" fn routines_aswfa(
    m: u32,
    n: u32,
    c: f64,
    cv: f64,
    kd: f64,
    x: f64,
    value: &mut f64,
    derivative: &mut f64,
)
    requires { Usable m n c }
    ensures value_after { value.new ≡ (Aswfa.aswfa m n c cv kd x).value }
    ensures derivative_after { derivative.new ≡ (Aswfa.aswfa m n c cv kd x).derivative }
{
    let p = angular::aswfa::aswfa(Mode { m, n, c }, cv, kd, x);
    *value = p.value;
    *derivative = p.derivative;
}

// 0 where an order outside 1 to 100,000 would have to be tried.
#[unsafe(no_mangle)]
pub extern "C" fn routines_msta1(x: f64, mp: u32) -> u32
    ensures { result ≡ Msta1.msta1 x mp }
{
    bessel::msta1::msta1(x, mp).unwrap_or(0)
}

#[unsafe(no_mangle)]
pub extern "C" fn routines_msta2(x: f64, n: u32, mp: u32) -> u32
    ensures { result ≡ Msta2.msta2 x n mp }
{
    bessel::msta2::msta2(x, n, mp).unwrap_or(0)
}

// The highest order computed, or 0 where the order from which the recurrence starts was not found.
#[unsafe(no_mangle)]
pub extern "C" fn routines_sphj(x: f64, n: u32, sj: &mut [f64; 252], dj: &mut [f64; 252]) -> u32
    requires { (2 ≤ n) × (n < 252) }
    ensures value { result ≡ cond (eqb (Sphj.orders x n).from 0) 0 (Sphj.orders x n).nm }
    ensures sj_after { (sj.new ≡ Sphj.sj x n) × (dj.new ≡ Sphj.dj x n) }
{
    let orders = bessel::sphj::find_orders(x, n);
    let nm = orders.nm;
    let from = orders.from;
    *sj = arith::filled(0.0);
    *dj = arith::filled(0.0);
    bessel::sphj::sphj(x, n, orders, sj, dj);
    if from == 0 {
        return 0;
    }
    nm
}

// The highest order that counts as computed.
#[unsafe(no_mangle)]
pub extern "C" fn routines_sphy(x: f64, n: u32, sy: &mut [f64; 252], dy: &mut [f64; 252]) -> u32
    requires { (2 ≤ n) × (n < 252) }
    ensures value { result ≡ Sphy.highest x n }
    ensures sy_after { (sy.new ≡ Sphy.sy x n) × (dy.new ≡ Sphy.dy x n) }
{
    *sy = arith::filled(0.0);
    *dy = arith::filled(0.0);
    bessel::sphy::sphy(x, n, sy, dy)
}
