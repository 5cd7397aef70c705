// The Gershgorin bounds. In exact arithmetic no characteristic value of the matrix lies outside them;
// of the rounded bounds that is not proved.
ghost use Rattle.std.specs.Prelude.{◌≡◌, ◌<◌};
ghost use Rattle.sturm.specs.Bounds.{widen, bounds_of};

use super::entries::Matrix;

#[derive(Clone, Copy)]
pub struct Bounds {
    pub lower: f64,
    pub upper: f64,
}

impl Bounds {
    // The bounds with the interval of radius t about d.
    #[tactic(auto, unfolding(crate::specs::Bounds::widen))]
    fn widened(self, d: f64, t: f64) -> Bounds
        ensures { result ≡ widen d t self }
    {
        Bounds {
            lower: arith::lesser(self.lower, d - t),
            upper: arith::greater(self.upper, d + t),
        }
    }
}

impl Matrix {
    #[tactic(auto, unfolding(crate::specs::Bounds::bounds_from, crate::specs::Bounds::bounds_of))]
    pub fn gershgorin(&self) -> Bounds
        requires { 0 < self.now.entries }
        ensures { result ≡ bounds_of self.now.d self.now.e self.now.entries }
    {
        let last = self.entries - 1;
        let r = arith::abs(self.e[last]);
        let mut bounds = Bounds {
            lower: self.d[last] - r,
            upper: self.d[last] + r,
        };
        for i in 0..last {
            let t = arith::abs(self.e[i]) + arith::abs(self.e[i + 1]);
            bounds = bounds.widened(self.d[i], t);
        }
        bounds
    }
}
