// How far the sums of the radial functions run.
ghost use Rattle.std.specs.Prelude.{◌≡◌, true, false, ◌<◌, ◌≤◌};
ghost use Rattle.std.specs.Float.Ieee.{lt};
ghost use Rattle.arith.specs.Double.{#0};
ghost use Rattle.expansion.specs.Terms as Terms;
ghost use Rattle.radial_sums.specs.Limits as Limits;

// Of `rmn1`, for n - m and c. It truncates c alone, and is document 01's N or one less.
pub fn first_terms(offset: u32, c: f64) -> u32
    requires { (offset < 200) × (lt c #0 ≡ false) × (lt (Terms.h_of offset c) Terms.#175 ≡ true) }
    ensures value { result ≡ Limits.first_terms offset c }
    ensures lower_bound { (25 ≤ result) × (result < 200) × (result ≤ Terms.terms_of offset c) }
{
    25 + offset / 2 + arith::whole_part(c)
}

// Of `rmn2so`. It truncates the sum.
pub fn second_terms(offset: u32, c: f64) -> u32
    requires { (offset < 200) × (lt c #0 ≡ false) × (lt (Terms.h_of offset c) Terms.#175 ≡ true) }
    ensures value { result ≡ Limits.second_terms offset c }
    ensures upper_bound { result < 200 }
{
    25 + expansion::terms::cut(offset, c)
}
