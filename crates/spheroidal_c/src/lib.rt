// The library as C and Rust callers link it; include/spheroidal.h declares it. Each function answers document 01's
// refusal number, or 0, and asks nothing: a refused call leaves every place as it was. Prolate and oblate calls are
// functions of their own, with m, n and c one by one, five slices for a row, a place for each number and an answer of 8
// bits: that is the C interface, and the functions behind it take what it lends as it comes.
#![tactic(auto)]

ghost use Rattle.std.specs.Prelude.{◌≡◌};
ghost use Rattle.segv.specs.Row.{slices, answer};
ghost use Rattle.requests.specs.declared.checking.Kind.TheVariants.{Prolate, Oblate};
ghost use Rattle.rows.specs.Rows.{row_of, dlmf_of};
ghost use Rattle.requests.specs.Answers.{code, pair_answer};
ghost use Rattle.modes.specs.Coefficients.{coefficients_of};
ghost use Rattle.modes.specs.Angular.{angular_of};
ghost use Rattle.modes.specs.Radial.{radial_of, quadruple_answer};
ghost use Rattle.modes.specs.FirstKind.{first_of};
ghost use Rattle.sheets.specs.Sheet.{sheet_of};
ghost use Rattle.spheroidal_c.specs.Places.{pair_put, quadruple_put};

use modes::{Kind, Mode, Pair, Radial, Refusal};

// The number that a C caller is answered.
fn code(answer: Result<(), Refusal>) -> u8
    ensures { result ≡ code answer }
{
    match answer {
        Ok(()) => 0,
        Err(refusal) => refusal.number(),
    }
}

fn row(
    kind: Kind,
    mode: Mode,
    allowance: u32,
    values: &mut [f64],
    steps: &mut [u32],
    lowers: &mut [f64],
    uppers: &mut [f64],
    substituted: &mut [u8],
) -> u8
    ensures { answer result (slices values.new steps.new lowers.new uppers.new substituted.new)
        ≡ row_of kind mode allowance (slices values.old steps.old lowers.old uppers.old substituted.old) }
{
    code(modes::row(
        kind,
        mode,
        allowance,
        values,
        steps,
        lowers,
        uppers,
        substituted,
    ))
}

fn dlmf_row(kind: Kind, mode: Mode, allowance: u32, values: &mut [f64]) -> u8
    ensures { answer result values.new ≡ dlmf_of kind mode allowance values.old }
{
    code(modes::dlmf_row(kind, mode, allowance, values))
}

fn coefficients(kind: Kind, mode: Mode, cv: f64, values: &mut [f64]) -> u8
    ensures { answer result values.new ≡ coefficients_of kind mode cv values.old }
{
    code(modes::coefficients(kind, mode, cv, values))
}

// Writes a pair into its places, or nothing for a refusal. C lends two places for a pair, and four for both radial kinds.
#[tactic(auto, unfolding(crate::specs::Places::pair_put))]
fn put_pair(
    found: Result<Pair, Refusal>,
    value: &mut f64,
    derivative: &mut f64,
) -> Result<(), Refusal>
    ensures { answer (code result) (value.new, derivative.new) ≡ pair_put (pair_answer found) (value.old, derivative.old) }
{
    let pair = found?;
    *value = pair.value;
    *derivative = pair.derivative;
    Ok(())
}

// The same for both radial kinds.
#[tactic(auto, unfolding(crate::specs::Places::quadruple_put))]
fn put_quadruple(
    found: Result<Radial, Refusal>,
    value1: &mut f64,
    derivative1: &mut f64,
    value2: &mut f64,
    derivative2: &mut f64,
) -> Result<(), Refusal>
    ensures { answer (code result) (value1.new, derivative1.new, value2.new, derivative2.new)
        ≡ quadruple_put (quadruple_answer found) (value1.old, derivative1.old, value2.old, derivative2.old) }
{
    let kinds = found?;
    *value1 = kinds.first.value;
    *derivative1 = kinds.first.derivative;
    *value2 = kinds.second.value;
    *derivative2 = kinds.second.derivative;
    Ok(())
}

fn angular(kind: Kind, mode: Mode, cv: f64, x: f64, value: &mut f64, derivative: &mut f64) -> u8
    ensures { answer result (value.new, derivative.new)
        ≡ pair_put (angular_of kind mode cv x) (value.old, derivative.old) }
{
    code(put_pair(modes::angular(kind, mode, cv, x), value, derivative))
}

fn sheet(
    kind: Kind,
    m: u16,
    n: u16,
    allowance: u32,
    cs: &[f64],
    xs: &[f64],
    block: &mut [f64],
) -> u8
    ensures { answer result block.new ≡ sheet_of kind m n allowance cs.now xs.now block.old }
{
    code(sheets::sheet(kind, m, n, allowance, cs, xs, block))
}

// The characteristic values of the modes from m to n, each with its step number, its bracket, and 1 where 1e-30 was put
// in for a zero pivot in a count made for it, else 0.
#[unsafe(no_mangle)]
pub extern "C" fn spheroidal_prolate_row(
    m: u16,
    n: u16,
    c: f64,
    allowance: u32,
    values: &mut [f64],
    steps: &mut [u32],
    lowers: &mut [f64],
    uppers: &mut [f64],
    substituted: &mut [u8],
) -> u8
    ensures { answer result (slices values.new steps.new lowers.new uppers.new substituted.new)
        ≡ row_of Prolate (record { m = m; n = n; c = c }) allowance (slices values.old steps.old lowers.old uppers.old substituted.old) }
{
    row(
        Kind::Prolate,
        Mode { m, n, c },
        allowance,
        values,
        steps,
        lowers,
        uppers,
        substituted,
    )
}

#[unsafe(no_mangle)]
pub extern "C" fn spheroidal_oblate_row(
    m: u16,
    n: u16,
    c: f64,
    allowance: u32,
    values: &mut [f64],
    steps: &mut [u32],
    lowers: &mut [f64],
    uppers: &mut [f64],
    substituted: &mut [u8],
) -> u8
    ensures { answer result (slices values.new steps.new lowers.new uppers.new substituted.new)
        ≡ row_of Oblate (record { m = m; n = n; c = c }) allowance (slices values.old steps.old lowers.old uppers.old substituted.old) }
{
    row(
        Kind::Oblate,
        Mode { m, n, c },
        allowance,
        values,
        steps,
        lowers,
        uppers,
        substituted,
    )
}

// The row in DLMF's form: each value less c * c where it is prolate, plus c * c where it is oblate.
#[unsafe(no_mangle)]
pub extern "C" fn spheroidal_prolate_dlmf_row(
    m: u16,
    n: u16,
    c: f64,
    allowance: u32,
    values: &mut [f64],
) -> u8
    ensures { answer result values.new ≡ dlmf_of Prolate (record { m = m; n = n; c = c }) allowance values.old }
{
    dlmf_row(Kind::Prolate, Mode { m, n, c }, allowance, values)
}

#[unsafe(no_mangle)]
pub extern "C" fn spheroidal_oblate_dlmf_row(
    m: u16,
    n: u16,
    c: f64,
    allowance: u32,
    values: &mut [f64],
) -> u8
    ensures { answer result values.new ≡ dlmf_of Oblate (record { m = m; n = n; c = c }) allowance values.old }
{
    dlmf_row(Kind::Oblate, Mode { m, n, c }, allowance, values)
}

// The 200 expansion coefficients of a mode with the characteristic value cv.
#[unsafe(no_mangle)]
pub extern "C" fn spheroidal_prolate_coefficients(
    m: u16,
    n: u16,
    c: f64,
    cv: f64,
    values: &mut [f64],
) -> u8
    ensures { answer result values.new ≡ coefficients_of Prolate (record { m = m; n = n; c = c }) cv values.old }
{
    coefficients(Kind::Prolate, Mode { m, n, c }, cv, values)
}

#[unsafe(no_mangle)]
pub extern "C" fn spheroidal_oblate_coefficients(
    m: u16,
    n: u16,
    c: f64,
    cv: f64,
    values: &mut [f64],
) -> u8
    ensures { answer result values.new ≡ coefficients_of Oblate (record { m = m; n = n; c = c }) cv values.old }
{
    coefficients(Kind::Oblate, Mode { m, n, c }, cv, values)
}

// The angular function of a mode with the characteristic value cv, and its derivative, at x.
#[unsafe(no_mangle)]
pub extern "C" fn spheroidal_prolate_angular(
    m: u16,
    n: u16,
    c: f64,
    cv: f64,
    x: f64,
    value: &mut f64,
    derivative: &mut f64,
) -> u8
    ensures { answer result (value.new, derivative.new)
        ≡ pair_put (angular_of Prolate (record { m = m; n = n; c = c }) cv x) (value.old, derivative.old) }
{
    angular(Kind::Prolate, Mode { m, n, c }, cv, x, value, derivative)
}

#[unsafe(no_mangle)]
pub extern "C" fn spheroidal_oblate_angular(
    m: u16,
    n: u16,
    c: f64,
    cv: f64,
    x: f64,
    value: &mut f64,
    derivative: &mut f64,
) -> u8
    ensures { answer result (value.new, derivative.new)
        ≡ pair_put (angular_of Oblate (record { m = m; n = n; c = c }) cv x) (value.old, derivative.old) }
{
    angular(Kind::Oblate, Mode { m, n, c }, cv, x, value, derivative)
}

// The angular pair of a mode for each c at each x, value and derivative, x by x for the first c, then for the next. Each c
// has the characteristic value at n of its own row, and each row the allowance whole.
#[unsafe(no_mangle)]
pub extern "C" fn spheroidal_prolate_sheet(
    m: u16,
    n: u16,
    allowance: u32,
    cs: &[f64],
    xs: &[f64],
    block: &mut [f64],
) -> u8
    ensures { answer result block.new ≡ sheet_of Prolate m n allowance cs.now xs.now block.old }
{
    sheet(Kind::Prolate, m, n, allowance, cs, xs, block)
}

#[unsafe(no_mangle)]
pub extern "C" fn spheroidal_oblate_sheet(
    m: u16,
    n: u16,
    allowance: u32,
    cs: &[f64],
    xs: &[f64],
    block: &mut [f64],
) -> u8
    ensures { answer result block.new ≡ sheet_of Oblate m n allowance cs.now xs.now block.old }
{
    sheet(Kind::Oblate, m, n, allowance, cs, xs, block)
}

// Both oblate radial functions of a mode with the characteristic value cv, with their derivatives, at a finite x not below
// zero.
#[unsafe(no_mangle)]
pub extern "C" fn spheroidal_oblate_radial(
    m: u16,
    n: u16,
    c: f64,
    cv: f64,
    x: f64,
    value1: &mut f64,
    derivative1: &mut f64,
    value2: &mut f64,
    derivative2: &mut f64,
) -> u8
    ensures { answer result (value1.new, derivative1.new, value2.new, derivative2.new)
        ≡ quadruple_put (radial_of (record { m = m; n = n; c = c }) cv x) (value1.old, derivative1.old, value2.old, derivative2.old) }
{
    code(put_quadruple(
        modes::radial(Mode { m, n, c }, cv, x),
        value1,
        derivative1,
        value2,
        derivative2,
    ))
}

// The first oblate radial function of a mode with the characteristic value cv, and its derivative, at a finite x not below
// zero.
#[unsafe(no_mangle)]
pub extern "C" fn spheroidal_oblate_first_kind(
    m: u16,
    n: u16,
    c: f64,
    cv: f64,
    x: f64,
    value: &mut f64,
    derivative: &mut f64,
) -> u8
    ensures { answer result (value.new, derivative.new)
        ≡ pair_put (first_of (record { m = m; n = n; c = c }) cv x) (value.old, derivative.old) }
{
    code(put_pair(
        modes::first_kind(Mode { m, n, c }, cv, x),
        value,
        derivative,
    ))
}
