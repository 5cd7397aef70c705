// How far the sums of the angular pair run.
ghost use Rattle.std.specs.Prelude.{◌≡◌, ◌-◌, ◌<◌, ◌≤◌};
ghost use Rattle.angular.specs.Aswfa as Aswfa;

use expansion::terms::Mode;

// The last term's number.
#[tactic(auto, unfolding(crate::specs::Aswfa::nm2_of))]
pub(crate) fn nm2_of(mode: Mode) -> u32
    ensures value { result ≡ Aswfa.nm2_of (mode.n - mode.m) mode.c }
    ensures lower_bound { (18 ≤ result) × (result < 106) }
{
    let nm = 40 + mode.cut();
    nm / 2 - 2
}
