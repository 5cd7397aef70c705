// The sheet itself. Once the lists are accepted only a row can be refused: so all rows come first, and
// then the block is written.
ghost use Rattle.std.specs.Prelude.{◌≡◌, ◌++◌, ℕ, ◌*◌, ◌<◌, Float, length, drop};
ghost use Rattle.arith.specs.Double.{at};
ghost use Rattle.segv.specs.Row.{answer};
ghost use Rattle.angular.specs.Aswfa.{aswfa};
ghost use Rattle.angular.specs.Inside.Turns.{in_turn};
ghost use Rattle.requests.specs.Refusals.{sign_of};
ghost use Rattle.requests.specs.Answers.{code};
ghost use Rattle.sheets.specs.Sheet as Sheet;

use super::checking::lists_refusal;
use super::parameters::Rows;
use expansion::terms::Mode;
use requests::{Kind, Refusal};

// The pairs of each c, with its characteristic value, at each x, into the first places of the block. It
// takes no `Rows`, since no row is run any more.
fn fill(kind: Kind, m: u16, n: u16, cs: &[f64], cvs: &[f64; 32], xs: &[f64], block: &mut [f64])
    requires { Sheet.lists_refusal m n cs.now xs.now (length block.old) ≡ 0 }
    ensures { (cv : Float → Float) → ((i : ℕ) → i < length cs.now → at cvs.now i ≡ cv (at cs.now i))
        → block.new ≡ Sheet.each (λ c. in_turn (aswfa m n c (cv c) (sign_of kind)) xs.now) cs.now ++ drop (2 * (length cs.now * length xs.now)) block.old }
{
    let kd = requests::sign(kind);
    let width = 2 * xs.len();
    // Where the next pairs go. Not by `chunks_exact_mut`, which asks for a width that is not 0.
    let mut from: usize = 0;
    for i in 0..cs.len() {
        let mode = Mode {
            m: m as u32,
            n: n as u32,
            c: cs[i],
        };
        angular::aswfa::aswfa_each(mode, cvs[i], kd, xs, &mut block[from..]);
        from = from + width;
    }
}

// The angular pair of a mode for each c at each x: value and derivative, x by x for the first c, then
// for the next, into the first places of the block. Each c has the characteristic value at n of its own
// row, and each row the allowance whole. Refusals 4, 5, 6, 8, 13 and 10.
pub fn sheet(
    kind: Kind,
    m: u16,
    n: u16,
    allowance: u32,
    cs: &[f64],
    xs: &[f64],
    block: &mut [f64],
) -> Result<(), Refusal>
    ensures { answer (code result) block.new ≡ Sheet.sheet_of kind m n allowance cs.now xs.now block.old }
{
    lists_refusal(m, n, cs, xs, block.len())?;
    // Not `is_empty()`: an edit of must-fail/ has another number here.
    if xs.len() == 0 {
        return Ok(());
    }
    let rows = Rows {
        kind,
        m,
        n,
        allowance,
    };
    let mut cvs: [f64; 32] = arith::filled(0.0);
    let found = rows.characteristic_values(cs, &mut cvs);
    found?;
    fill(kind, m, n, cs, &cvs, xs, block);
    Ok(())
}
