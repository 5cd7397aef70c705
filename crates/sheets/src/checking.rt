// What a sheet is refused for before any row is run.
ghost use Rattle.std.specs.Prelude.{◌≡◌};
ghost use Rattle.requests.specs.Refusals.{mode_refusal};
ghost use Rattle.requests.specs.Answers.{code};
ghost use Rattle.sheets.specs.Sheet as Sheet;

use requests::{Mode, Refusal};

// The most c of a sheet.
pub const PARAMETERS: usize = 32;

// And the most x.
pub const ARGUMENTS: usize = 64;

// The first of 5 and 6 that an element of the list meets; 4 where m and n are out of range and there is
// an element. m and n beside the list: a mode has one c, and a sheet many.
fn parameters_refusal(m: u16, n: u16, cs: &[f64]) -> Result<(), Refusal>
    ensures { code result ≡ Sheet.first_refusal (λ c. mode_refusal (Sheet.mode_with m n c)) cs.now }
{
    for c in cs {
        let mode = Mode { m, n, c: *c };
        mode.usable()?;
    }
    Ok(())
}

// 8 where an element of the list is outside.
fn arguments_refusal(xs: &[f64]) -> Result<(), Refusal>
    ensures { code result ≡ Sheet.first_refusal Sheet.argument_refusal xs.now }
{
    for x in xs {
        if modes::outside(*x) {
            return Err(Refusal::Argument);
        }
    }
    Ok(())
}

// Whether a list is longer than its limit, or the block has fewer than two places a pair.
fn too_large(parameters: usize, arguments: usize, places: usize) -> bool
    ensures { result ≡ Sheet.too_large parameters arguments places }
{
    if PARAMETERS < parameters {
        return true;
    }
    if ARGUMENTS < arguments {
        return true;
    }
    places < 2 * (parameters * arguments)
}

// The first of 4, 5, 6, 8 and 13 that applies.
pub(crate) fn lists_refusal(
    m: u16,
    n: u16,
    cs: &[f64],
    xs: &[f64],
    places: usize,
) -> Result<(), Refusal>
    ensures { code result ≡ Sheet.lists_refusal m n cs.now xs.now places }
{
    let order = Mode { m, n, c: 0.0 };
    if order.out_of_range() {
        return Err(Refusal::OutOfRange);
    }
    let parameter = parameters_refusal(m, n, cs);
    let argument = arguments_refusal(xs);
    let refused = parameter.and(argument);
    refused?;
    if too_large(cs.len(), xs.len(), places) {
        return Err(Refusal::SheetTooLarge);
    }
    Ok(())
}
