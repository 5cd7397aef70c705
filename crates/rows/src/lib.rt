// Rows of characteristic values. A row's five slices are those that the C interface lends, handed on as
// they come. Kind, mode and allowance come beside each other: nothing keeps the three, and a struct of
// them would be taken apart in the one call that it is made for.
#![tactic(auto)]

ghost use Rattle.std.specs.Prelude.{◌≡◌, ◌-◌, ◌<◌, ◌≤◌, length};
ghost use Rattle.segv.specs.Row.{slices, written_row, answer};
ghost use Rattle.requests.specs.Refusals.{row_refusal};
ghost use Rattle.requests.specs.Answers.{code};
ghost use Rattle.rows.specs.Rows.{zero_at, row_in, row_of, lessened, dlmf_of};

use requests::{Kind, Mode, Refusal};

// The row where c is below 1e-10.
fn zero_row(
    m: u32,
    n: usize,
    values: &mut [f64],
    steps: &mut [u32],
    lowers: &mut [f64],
    uppers: &mut [f64],
    substituted: &mut [u8],
)
    requires { (m < 1000) × (n ≤ 200) × (n ≤ length values.old) × (n ≤ length steps.old) × (n ≤ length lowers.old) × (n ≤ length uppers.old) × (n ≤ length substituted.old) }
    ensures { slices values.new steps.new lowers.new uppers.new substituted.new
        ≡ written_row (zero_at m) n (slices values.old steps.old lowers.old uppers.old substituted.old) }
{
    for j in 0..n {
        let k = m + (j as u32);
        let v = (k as f64) * ((k + 1) as f64);
        values[j] = v;
        steps[j] = 0;
        lowers[j] = v;
        uppers[j] = v;
        substituted[j] = 0;
    }
}

// The row of a mode that is not refused, into slices that are long enough. Refusal 10. That the mode is
// not refused is asked here and in `requests::entries`: too few for a type of such modes.
fn row_in(
    kind: Kind,
    mode: Mode,
    allowance: u32,
    values: &mut [f64],
    steps: &mut [u32],
    lowers: &mut [f64],
    uppers: &mut [f64],
    substituted: &mut [u8],
) -> Result<(), Refusal>
    requires not_refused { row_refusal mode ≡ 0 }
    requires room { (mode.n - mode.m < length values.old) × (mode.n - mode.m < length steps.old) × (mode.n - mode.m < length lowers.old) × (mode.n - mode.m < length uppers.old) × (mode.n - mode.m < length substituted.old) }
    ensures { answer (code result) (slices values.new steps.new lowers.new uppers.new substituted.new)
        ≡ row_in kind mode allowance (slices values.old steps.old lowers.old uppers.old substituted.old) }
{
    let c = mode.c;
    let m = mode.m as u32;
    let n = mode.n as u32;
    if c < 1e-10 {
        zero_row(
            m,
            (n - m + 1) as usize,
            values,
            steps,
            lowers,
            uppers,
            substituted,
        );
        return Ok(());
    }
    let cs = mode.cs(kind);
    let entries = requests::entries(mode);
    Ok(segv::segv(
        m,
        n,
        cs,
        entries,
        allowance,
        values,
        steps,
        lowers,
        uppers,
        substituted,
    )?)
}

// The characteristic values of the modes from m to n, each with its step number, the bracket that its
// stopping test used, and 1 where 1e-30 was put in for a zero pivot in a count made for it, else 0.
// Refusals 4, 5, 6, 9 and 10.
#[tactic(auto, using(requests::proofs::Laws::some_number), unfolding(crate::specs::Rows::row_of, crate::specs::Rows::too_short))]
pub fn row(
    kind: Kind,
    mode: Mode,
    allowance: u32,
    values: &mut [f64],
    steps: &mut [u32],
    lowers: &mut [f64],
    uppers: &mut [f64],
    substituted: &mut [u8],
) -> Result<(), Refusal>
    ensures { answer (code result) (slices values.new steps.new lowers.new uppers.new substituted.new)
        ≡ row_of kind mode allowance (slices values.old steps.old lowers.old uppers.old substituted.old) }
{
    mode.row_refusal()?;
    let last = (mode.n - mode.m) as usize;
    if values.len() <= last
        || steps.len() <= last
        || lowers.len() <= last
        || uppers.len() <= last
        || substituted.len() <= last
    {
        return Err(Refusal::ShortSlice);
    }
    row_in(
        kind,
        mode,
        allowance,
        values,
        steps,
        lowers,
        uppers,
        substituted,
    )
}

// Room for the step numbers of the longest row, and for its flags.
pub type Steps = [u32; 200];

pub type Flags = [u8; 200];

// The first n values, each less gamma squared. By index, as n bounds both lists.
fn lessen(values: &[f64; 200], gamma_squared: f64, n: usize, out: &mut [f64])
    requires { (n ≤ 200) × (n ≤ length out.old) }
    ensures { out.new ≡ lessened values.now gamma_squared n out.old }
{
    for j in 0..n {
        out[j] = values[j] - gamma_squared;
    }
}

// The row in DLMF's form: each value less gamma squared, which is c * c for prolate modes and -c * c for
// oblate ones. Refusals 4, 5, 6, 9 and 10.
#[tactic(auto, using(requests::proofs::Laws::some_number), unfolding(crate::specs::Rows::dlmf_of))]
pub fn dlmf_row(kind: Kind, mode: Mode, allowance: u32, out: &mut [f64]) -> Result<(), Refusal>
    ensures { answer (code result) out.new ≡ dlmf_of kind mode allowance out.old }
{
    mode.row_refusal()?;
    let last = (mode.n - mode.m) as usize;
    if out.len() <= last {
        return Err(Refusal::ShortSlice);
    }
    // Five arrays, as the row goes into five slices.
    let mut values: [f64; 200] = arith::filled(0.0);
    let mut steps: Steps = arith::filled(0);
    let mut lowers: [f64; 200] = arith::filled(0.0);
    let mut uppers: [f64; 200] = arith::filled(0.0);
    let mut substituted: Flags = arith::filled(0);
    row_in(
        kind,
        mode,
        allowance,
        &mut values,
        &mut steps,
        &mut lowers,
        &mut uppers,
        &mut substituted,
    )?;
    lessen(&values, mode.cs(kind), last + 1, out);
    Ok(())
}
