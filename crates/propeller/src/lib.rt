// The propeller law, by which a speed goes with the cube root of the power: in millionths of a knot, from below and from above.
#![tactic(auto)]

ghost use Rattle.std.specs.Prelude.{◌≡◌, ◌*◌, ◌^◌, ◌≤◌, ◌<◌};
ghost use Rattle.number.specs.Division.{Floor, Ceil};
ghost use Rattle.number.specs.Ratio.{Moderate};
ghost use Rattle.propeller.specs.Propeller.{Parted, speed_from};

use number::division::Rounded;
use power::Bounds;

// A speed in 10^-9 knot, and what it is still to be divided by, in 2^-30.
#[derive(Clone, Copy, Debug, PartialEq, Eq)]
pub struct Split {
    pub base: Bounds,
    pub over: Bounds,
}

// x * 2^30 / w, rounded down and up. Where nothing is to be divided by, as with method 2, w is 2^30 and this is x.
fn quotient(x: u64, w: u64) -> Rounded
    requires { (2 ^ 30 ≤ w) × (w ≤ 2 ^ 51) × (x < 2 ^ 62) }
    ensures floor { Floor (x * 2 ^ 30) w result.down }
    ensures ceil { Ceil (x * 2 ^ 30) w result.up }
{
    if w == 1073741824 {
        return Rounded { down: x, up: x };
    }
    number::division::both_scaled(x, w, 32768, 2)
}

// The shape that methods 2 to 4 share: base / over times the cube root of n / d. Each method shows that its parts are in bounds.
pub fn speed_from(s: Split, n: u64, d: u64) -> Bounds
    requires { Parted s × Moderate n d }
    ensures { result ≡ speed_from s n d }
{
    let r = number::ratio::cube_root(n, d);
    let m = r.scale * 1000;
    let Split { base, over } = s;
    // By the divisor to 62 bits, then by m: two roundings the same way are one.
    let lo = quotient(base.lo * r.low, over.hi).down / m;
    let hi = quotient(base.hi * r.high, over.lo).up.div_ceil(m);
    Bounds { lo, hi }
}
