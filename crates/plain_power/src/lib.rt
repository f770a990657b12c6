// The plain power: (a/b)^(p/q) by square roots, a binary digit of the exponent after the other, under the promises of `power`. No room of the
// desk asks for it; it shows how a power comes about, and the tests hold the two to each other.
#![tactic(auto)]

ghost use Rattle.std.specs.Prelude.{◌≡◌, ◌+◌, ◌*◌, ◌^◌, ◌≤◌, ◌<◌};
ghost use Rattle.root.specs.Root.{Root};
ghost use Rattle.plain_power.specs.Numbers.{val, Norm, Ready};
ghost use Rattle.plain_power.specs.Steps.{next, evened_of, mean_of, means_of, digit_factor, unraised, raise_of, digits, cut_of, base_of};
ghost use Rattle.power.specs.Power.{Raisable};
ghost use Rattle.plain_power.specs.Plain.{plain_of};

use power::Bounds;

// m * 2^e, in units of 2^-30. (`Norm` is no field: it would be proved at ONE, `cut`, `next` and `mean`, four places, to be left out at three; and
// `next` of the definitions takes any mantissa.)
#[derive(Clone, Copy)]
struct Num {
    pub m: u64,
    pub e: u64,
}

// No `Bounds`, whose ends are whole numbers: as `Bounds<Num>` each definition of the power, the speed and the index would have to name the type of
// its ends.
#[derive(Clone, Copy)]
struct Pair {
    pub lo: Num,
    pub hi: Num,
}

// n * 4^f.
#[derive(Drop)]
struct Square {
    pub n: u64,
    pub f: u64,
}

// p * 2^e with an even exponent and 61 or 62 bits; 2^62, which has one bit more, counts as one less. (The bounds of p stand at each use: p is one
// product in `mean`, and a type of it would be opened in `evened_of`, which takes a number.)
fn evened(p: u64, e: u64) -> Square
    requires { (2 ^ 60 ≤ p) × (p ≤ 2 ^ 62) × (e ≤ 40) }
    ensures { result ≡ evened_of p e }
{
    let n = (p - p / 4611686018427387904) << e % 2;
    let f = e / 2;
    if n < 4611686018427387904 {
        Square { n, f }
    } else {
        Square { n: n / 4, f: f + 1 }
    }
}

// Where p stands in its octave, from 1 to 2 in units of 2^-29.
fn in_octave(p: u64) -> u64
    requires { (2 ^ 60 ≤ p) × (p ≤ 2 ^ 62) }
    ensures { (2 ^ 29 ≤ result) × (result ≤ 2 ^ 30) }
{
    if p < 2305843009213693952 {
        p / 2147483648
    } else {
        p / 4294967296
    }
}

// What the root of that is still to be multiplied by, 1 or the root of 2, in units of 2^-30.
fn octave_root(p: u64, odd: u64) -> u64
    requires { (p ≤ 2 ^ 62) × (odd < 2) }
    ensures { (2 ^ 30 ≤ result) × (result < 2 ^ 31) }
{
    if (p / 2305843009213693952 + odd) % 2 == 0 {
        1073741824
    } else {
        1518500250
    }
}

// t times u, which counts in units of 2^-29.
fn times(t: u64, u: u64) -> u64
    requires { (t < 2 ^ 31) × (2 ^ 29 ≤ u) × (u ≤ 2 ^ 30) }
    ensures { (t ≤ result) × (result ≤ 2 * t) }
{
    t * u / 536870912
}

// The root of u by a curve of the fourth degree. That it is within a hundred-thousandth saves time; no answer hangs on it.
fn curve(u: u64) -> u64
    requires { (2 ^ 29 ≤ u) × (u ≤ 2 ^ 30) }
    ensures { (789000000 ≤ result) × (result < 2 ^ 31) }
{
    let third = 95104044 - times(11528107, u);
    let second = 345201015 - times(third, u);
    let first = 987533095 - times(second, u);
    347842784 + times(first, u)
}

// Where the search for the root of p, or of 2 p, starts. Any other start would give the same root, later.
fn near_root(p: u64, odd: u64) -> u64
    requires { (2 ^ 60 ≤ p) × (p ≤ 2 ^ 62) × (odd < 2) }
    ensures { (789000000 ≤ result) × (result < 2 ^ 32) }
{
    curve(in_octave(p)) * octave_root(p, odd) / 1073741824
}

// The whole root of 61 or 62 bits. One step of Newton's rule from any number is not below it; from so near a one it mostly is the root.
fn mantissa(n: u64, near: u64) -> u64
    requires { (n < 2 ^ 62) × (789000000 ≤ near) × (near < 2 ^ 32) }
    ensures { Root 2 n result }
{
    root::square_root_from(n, (near + n / near) / 2)
}

impl Num {
    const ONE: Num = Num {
        m: 1073741824,
        e: 0,
    };

    // v with its mantissa rounded down.
    fn cut(v: u64) -> Num
        requires { (2 ^ 30 ≤ v) × (v ≤ 2 ^ 50) }
        ensures { result ≡ cut_of v }
    {
        let e = 33 - v.leading_zeros() as u64;
        Num { m: v >> e, e }
    }

    // With one more in its mantissa.
    fn next(self) -> Num
        requires { self.m < 2 ^ 31 }
        ensures { result ≡ next self }
    {
        Num {
            m: self.m + 1,
            e: self.e,
        }
    }

    // The geometric mean, rounded down. The start is found from the product itself, so that it need not wait for the even exponent.
    fn mean(self, b: Num) -> Num
        requires { Norm self × Norm b }
        ensures { result ≡ mean_of self b }
    {
        let p = self.m * b.m;
        let e = self.e + b.e;
        let s = evened(p, e);
        let near = near_root(p, e % 2);
        let m = mantissa(s.n, near);
        Num { m, e: s.f }
    }

    // m * 2^e as a whole number.
    fn whole(self) -> u64
        requires { Norm self }
        ensures { result ≡ val self }
    {
        self.m << self.e
    }
}

impl Pair {
    // The fraction a/b between two numbers.
    fn of_fraction(a: u64, b: u64) -> Pair
        requires { (1 ≤ b) × (b ≤ a) × (a ≤ b * 2 ^ 20) × (a < 2 ^ 32) }
        ensures { result ≡ base_of a b }
    {
        let lo = Num::cut(a * 1073741824 / b);
        Pair { lo, hi: lo.next() }
    }

    // The means of two pairs, the lower rounded down and the upper up. Neither waits for the other.
    fn means(self, y: Pair) -> Pair
        requires { (Norm self.lo × Norm self.hi) × (Norm y.lo × Norm y.hi) }
        ensures { result ≡ means_of self y }
    {
        Pair {
            lo: self.lo.mean(y.lo),
            hi: self.hi.mean(y.hi).next(),
        }
    }

    // The factor of a digit of the exponent: the base or 1.
    fn factor(self, digit: u64) -> Pair
        ensures { result ≡ digit_factor self digit }
    {
        if digit == 0 {
            Pair {
                lo: Num::ONE,
                hi: Num::ONE,
            }
        } else {
            self
        }
    }

    // To the power d / 2^35, from the lowest digit of d upwards: one running pair, of which each digit takes the means with its factor.
    fn raise(self, d: u64) -> Pair
        requires { Ready self }
        ensures { result ≡ raise_of self (unraised self) d digits }
    {
        let mut p = Pair {
            lo: Num::ONE,
            hi: self.hi,
        };
        let mut rest = d;
        for _ in 0..35u64 {
            let y = self.factor(rest % 2);
            p = p.means(y);
            rest = rest / 2;
        }
        p
    }
}

// (a/b)^(p/q), from below and from above; a power of 1 is 1, its bounds written out as in `power`.
pub fn power(a: u64, b: u64, p: u64, q: u64) -> Bounds
    requires { Raisable a b p q }
    ensures { result ≡ plain_of a b p q }
{
    if a == b {
        return Bounds {
            lo: 1073741824,
            hi: 1073741824,
        };
    }
    let r = Pair::of_fraction(a, b).raise(p * 34359738368 / q);
    Bounds {
        lo: r.lo.whole(),
        hi: r.hi.whole(),
    }
}
