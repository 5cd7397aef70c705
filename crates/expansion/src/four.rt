// The sums of four power coefficients at once. A sum is a chain in which each division waits for the
// one before; those of four coefficients do not wait for each other.
ghost use Rattle.std.specs.Prelude.{◌≡◌, false, ◌+◌, ◌*◌, ◌<◌, ◌≤◌, suc};
ghost use Rattle.arith.specs.Double.{#0·5};
ghost use Rattle.expansion.specs.Products.{rising, rising_by};
ghost use Rattle.expansion.specs.Sums as Sums;
ghost use Rattle.expansion.specs.Sckb as Sckb;
ghost use Rattle.expansion.specs.Inside.Four as Inside;

use super::sckb::{Partial, PowerSums};

// Something of each of the coefficients k to k + 3. No `map`: what is done to the four differs in its
// numbers, and each of the sums takes what the one before has left.
#[derive(Clone, Copy)]
pub struct Four<T> {
    pub a: T,
    pub b: T,
    pub c: T,
    pub d: T,
}

// r times the n whole numbers from a on, from a + 2, a + 4 and a + 6 on.
#[tactic(auto, unfolding(crate::specs::Products::rising))]
fn rise_four(r: f64, a: u32, n: u32) -> Four<f64>
    requires { a + n < 4000 }
    ensures { (result.a ≡ rising r a n) × (result.b ≡ rising r (a + 2) n) × (result.c ≡ rising r (a + 4) n) × (result.d ≡ rising r (a + 6) n) }
{
    let mut p = Four {
        a: r,
        b: r,
        c: r,
        d: r,
    };
    for i in 0..n {
        p.a *= (a + i) as f64;
        p.b *= (a + 2 + i) as f64;
        p.c *= (a + 4 + i) as f64;
        p.d *= (a + 6 + i) as f64;
    }
    p
}

// Each product times n numbers: a + 1/2 and so on, a + 3/2, a + 5/2 and a + 7/2.
#[tactic(auto, unfolding(crate::specs::Products::rising_by))]
fn rise_four_by_half(first: Four<f64>, a: u32, n: u32) -> Four<f64>
    requires { a + n < 4000 }
    ensures { (result.a ≡ rising_by first.a a #0·5 n) × (result.b ≡ rising_by first.b (a + 1) #0·5 n) × (result.c ≡ rising_by first.c (a + 2) #0·5 n) × (result.d ≡ rising_by first.d (a + 3) #0·5 n) }
{
    let mut p = first;
    for i in 0..n {
        p.a *= (a + i) as f64 + 0.5;
        p.b *= (a + 1 + i) as f64 + 0.5;
        p.c *= (a + 2 + i) as f64 + 0.5;
        p.d *= (a + 3 + i) as f64 + 0.5;
    }
    p
}

// A term's factor, and the sum up to the term.
#[derive(Clone, Copy)]
pub struct Term {
    pub r: f64,
    pub sum: f64,
}

// Whether one of the four sums has settled, t before and u after a term.
fn one_settled(t: Four<Term>, u: Four<Term>) -> bool
    ensures { result ≡ false → (Sums.settled u.a.sum t.a.sum ≡ false) × (Sums.settled u.b.sum t.b.sum ≡ false) × (Sums.settled u.c.sum t.c.sum ≡ false) × (Sums.settled u.d.sum t.d.sum ≡ false) }
{
    let a = super::sums::settled(u.a.sum, t.a.sum);
    let b = super::sums::settled(u.b.sum, t.b.sum);
    let c = super::sums::settled(u.c.sum, t.c.sum);
    let d = super::sums::settled(u.d.sum, t.d.sum);
    // `|`: after the branches of `||` what each flag says is lost.
    a | b | c | d
}

// The terms that each of the four has, where the first of them has settled or run out of terms.
#[derive(Clone, Copy)]
struct Reached {
    // The next term of coefficient k; of k + 1 it is i + 1, and so on.
    i: u32,
    terms: Four<Term>,
}

impl PowerSums {
    // The first factors of the four coefficients. The later ones have up to three factors more.
    fn first_factors(self, k: u32) -> Four<f64>
        requires { k < 200 }
        ensures { (result.a ≡ Sckb.first_factor self.m self.ip self.reg k) × (result.b ≡ Sckb.first_factor self.m self.ip self.reg (k + 1)) × (result.c ≡ Sckb.first_factor self.m self.ip self.reg (k + 2)) × (result.d ≡ Sckb.first_factor self.m self.ip self.reg (k + 3)) }
    {
        let a = k + self.m + self.ip;
        let p = rise_four_by_half(rise_four(self.reg, 2 * k + self.ip + 1, 2 * self.m), a, k);
        Four {
            a: p.a,
            b: super::products::rise_by(p.b, a + 1 + k, 0.5, 1),
            c: super::products::rise_by(p.c, a + 2 + k, 0.5, 2),
            d: super::products::rise_by(p.d, a + 3 + k, 0.5, 3),
        }
    }

    // Term i of coefficient k, from the term before.
    fn next_term(self, df: &[f64; 200], k: u32, i: u32, t: Term) -> Term
        requires { (k ≤ i) × (i < 200) }
        ensures { result ≡ Inside.next_term df.now self.m self.ip k i t }
    {
        let r = self.next_factor(k, t.r, i);
        Term {
            r,
            sum: t.sum + r * df[i as usize],
        }
    }

    // The term past the first of coefficient k, whose first factor is r.
    fn term_past_first(self, df: &[f64; 200], k: u32, r: f64) -> Term
        requires { (k < 199) × (r ≡ Sckb.first_factor self.m self.ip self.reg k) }
        ensures { result ≡ Inside.term_past_first df.now self.m self.ip self.reg k }
    {
        let first = Term {
            r,
            sum: r * df[k as usize],
        };
        self.next_term(df, k, k + 1, first)
    }

    // The terms past the first of the four.
    fn terms_past_first(self, df: &[f64; 200], k: u32) -> Four<Term>
        requires { k + 4 < 200 }
        ensures { (result.a ≡ Inside.term_past_first df.now self.m self.ip self.reg k) × (result.b ≡ Inside.term_past_first df.now self.m self.ip self.reg (k + 1))
            × (result.c ≡ Inside.term_past_first df.now self.m self.ip self.reg (k + 2)) × (result.d ≡ Inside.term_past_first df.now self.m self.ip self.reg (k + 3)) }
    {
        let r = self.first_factors(k);
        Four {
            a: self.term_past_first(df, k, r.a),
            b: self.term_past_first(df, k + 1, r.b),
            c: self.term_past_first(df, k + 2, r.c),
            d: self.term_past_first(df, k + 3, r.d),
        }
    }

    // From the terms past the first on, a term of each at a time.
    fn together(self, df: &[f64; 200], k: u32, first: Four<Term>) -> Reached
        requires { k + 4 ≤ self.nm }
        ensures end_alike { Inside.EndAlike df.now self.m self.ip self.nm k result.i result.terms (k + 2) first }
        ensures k_lt_i { (k < result.i) × (result.i + 2 ≤ self.nm) }
    {
        let mut terms = first;
        let end = self.nm - 2;
        for i in k + 2..end {
            let next = Four {
                a: self.next_term(df, k, i, terms.a),
                b: self.next_term(df, k + 1, i + 1, terms.b),
                c: self.next_term(df, k + 2, i + 2, terms.c),
                d: self.next_term(df, k + 3, i + 3, terms.d),
            };
            if one_settled(terms, next) {
                return Reached { i, terms };
            }
            terms = next;
        }
        Reached { i: end, terms }
    }

    // The sum of coefficient k, whose term past the first is `first` and whose term before i is t.
    fn concluded(self, df: &[f64; 200], k: u32, first: Term, i: u32, t: Term, sw: f64) -> Partial
        requires { (k < i) × (i ≤ suc self.nm) × (Inside.rest_of df.now self.m self.ip self.nm k i t ≡ Inside.rest_of df.now self.m self.ip self.nm k (k + 2) first) }
        ensures { result ≡ Inside.sum_from df.now self.m self.ip self.nm k first sw }
    {
        if super::sums::settled(first.sum, sw) {
            return Partial { sum: first.sum, sw };
        }
        self.sum_terms(df, k, i, t, t.sum)
    }

    // The four sums. sw is the sum remembered from the coefficient before k; each sum remembers one for
    // the next.
    fn all_concluded(
        self,
        df: &[f64; 200],
        k: u32,
        first: Four<Term>,
        reached: Reached,
        sw: f64,
    ) -> Four<Partial>
        requires { (k < reached.i) × (reached.i + 2 ≤ self.nm) × Inside.EndAlike df.now self.m self.ip self.nm k reached.i reached.terms (k + 2) first }
        ensures { (result.a ≡ Inside.sum_from df.now self.m self.ip self.nm k first.a sw) × (result.b ≡ Inside.sum_from df.now self.m self.ip self.nm (k + 1) first.b result.a.sw)
            × (result.c ≡ Inside.sum_from df.now self.m self.ip self.nm (k + 2) first.c result.b.sw) × (result.d ≡ Inside.sum_from df.now self.m self.ip self.nm (k + 3) first.d result.c.sw) }
    {
        let i = reached.i;
        let t = reached.terms;
        let a = self.concluded(df, k, first.a, i, t.a, sw);
        let b = self.concluded(df, k + 1, first.b, i + 1, t.b, a.sw);
        let c = self.concluded(df, k + 2, first.c, i + 2, t.c, b.sw);
        let d = self.concluded(df, k + 3, first.d, i + 3, t.d, c.sw);
        Four { a, b, c, d }
    }

    // The sums of the coefficients k to k + 3, each from the sum remembered before it.
    pub(crate) fn four_sums(self, df: &[f64; 200], k: u32, sw: f64) -> Four<Partial>
        requires { k + 4 ≤ self.nm }
        ensures { (result.a ≡ Sckb.sum_of df.now self.m self.ip self.nm self.reg k sw) × (result.b ≡ Sckb.sum_of df.now self.m self.ip self.nm self.reg (k + 1) result.a.sw)
            × (result.c ≡ Sckb.sum_of df.now self.m self.ip self.nm self.reg (k + 2) result.b.sw) × (result.d ≡ Sckb.sum_of df.now self.m self.ip self.nm self.reg (k + 3) result.c.sw) }
    {
        let first = self.terms_past_first(df, k);
        let reached = self.together(df, k, first);
        self.all_concluded(df, k, first, reached, sw)
    }
}
