// The ends of the brackets of a parity's places, and what a place starts from.
ghost use Rattle.std.specs.Prelude.{◌≡◌, ◌-◌, ◌<◌, ◌≤◌, replicate};
ghost use Rattle.segv.specs.Bisection as Bisection;
ghost use Rattle.segv.specs.Families as Families;

use super::bisection::Bracket;

// The place q has those at q - 1. Two arrays and none of pairs: the definitions set one end at a time.
#[derive(Clone, Copy, Debug)]
pub struct Ends {
    pub uppers: [f64; 100],
    pub lowers: [f64; 100],
}

// The methods take `places` and not `Limits`: the allowance is no matter of the ends.
impl Ends {
    // Those of a place that no count was made for are the Gershgorin bounds. Inlined, so that the arrays
    // are filled where the caller keeps them.
    #[inline(always)]
    pub fn within(bounds: sturm::Bounds) -> Ends
        ensures { result ≡ Families.ends_within bounds }
    {
        Ends {
            uppers: arith::filled(bounds.upper),
            lowers: arith::filled(bounds.lower),
        }
    }

    // What a count at x says of the other places' brackets: nothing where x became this place's lower
    // end.
    pub fn tighten_others(&mut self, count: sturm::Count, place: usize, places: usize, x: f64)
        requires { (0 < place) × (place ≤ places) × (places ≤ 100) }
        ensures { self.new ≡ Bisection.tighten_others places place count x self.old }
    {
        let negative = count.negative;
        if negative < place {
            return;
        }
        if places <= negative {
            self.uppers[places - 1] = x;
            return;
        }
        let raised = arith::greater(self.lowers[negative], x);
        let dropped = arith::lesser(self.uppers[negative - 1], x);
        self.lowers[negative] = raised;
        self.uppers[negative - 1] = dropped;
    }

    // The first upper from index `from` up to `places` that is below x, or x. By index: a slice of them
    // would ask that `from` is not above `places`.
    fn first_below(&self, from: usize, places: usize, x: f64) -> f64
        requires { places ≤ 100 }
        ensures { result ≡ Families.first_below self.now.uppers x from (places - from) }
    {
        for i in from..places {
            if self.uppers[i] < x {
                return self.uppers[i];
            }
        }
        x
    }

    // The bracket that the place at index p starts from.
    pub fn opened(&self, p: usize, places: usize) -> Bracket
        requires { (p < places) × (places ≤ 100) }
        ensures { result ≡ Families.opened_at self.now p places }
    {
        let upper = self.first_below(p + 1, places, self.uppers[p]);
        if p == 0 {
            return between(self.lowers[p], upper);
        }
        between(arith::greater(self.lowers[p], self.lowers[p - 1]), upper)
    }
}

// A bracket before its first step.
fn between(lower: f64, upper: f64) -> Bracket
    ensures { result ≡ Families.between lower upper }
{
    Bracket {
        value: 0.0,
        lower,
        upper,
        steps: 0,
        substituted: false,
    }
}
