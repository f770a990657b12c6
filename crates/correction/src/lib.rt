// f_j, the power correction factor of general cargo ships, enclosed between two whole numbers of units of 2^-30.
#![tactic(auto)]

ghost use Rattle.std.specs.Prelude.{◌≡◌, ◌*◌, ◌^◌, ◌≤◌};
ghost use Rattle.ship.specs.Accepted.{Within, Shaped};
ghost use Rattle.ship.specs.Figures.{hull_of};
ghost use Rattle.correction.specs.Correction.{Between, Fast, WithinLimits, Spread, Scalable, limited, inverse_froude_down, inverse_froude_up, inverse_froude};
ghost use Rattle.correction.specs.Correction.{inverse_block, raised_of, squared_of, scaled_of, product_of, general_of};

use power::Bounds;
use ship::Hull;

// 1/Fn, in units of 1 / (15 * 2^26), between 5/3, where Fn is 0.6, and 12/5, from where on f_j is 1.
fn within_limits(a: u64) -> u64
    ensures { result ≡ limited a }
{
    a.clamp(1677721600, 2415919104)
}

// 1/Fn from below: w is the sixth root of the volume, and the root of 9.81 is at least 78888 / 25187.
fn inverse_froude_down(w: u64, v: u64) -> u64
    requires { (w ≤ 11 * 2 ^ 30) × Within 1900000 230000000 v }
    ensures { result ≡ inverse_froude_down w v }
{
    number::division::floor_scaled(w * 59166000, v * 16195241, 1250, 2)
}

// And from above: it is at most 225899 / 72124. A function of its own, since it rounds the other way, which is no constant.
fn inverse_froude_up(w: u64, v: u64) -> u64
    requires { (w ≤ 11 * 2 ^ 30) × Within 1900000 230000000 v }
    ensures { result ≡ inverse_froude_up w v }
{
    number::division::ceil_scaled(w * 169424250, v * 46375732, 1250, 2)
}

// The faster the ship, the less is 1/Fn: the lower end has the upper speed.
fn inverse_froude(v: Bounds, hull: Hull) -> Bounds
    requires { Fast v × Shaped (hull_of hull) }
    ensures { result ≡ inverse_froude v (hull_of hull) }
{
    let w = power::power(hull.volume, 1, 1, 6);
    Bounds {
        lo: within_limits(inverse_froude_down(w.lo, v.hi)),
        hi: within_limits(inverse_froude_up(w.hi, v.lo)),
    }
}

// 1/C_b in units of 2^-28, rounded down, and at most 12, from where on f_j is 1.
fn inverse_block(hull: Hull) -> u64
    requires { Shaped (hull_of hull) }
    ensures { result ≡ inverse_block (hull_of hull) }
{
    let block = hull.length * hull.breadth * hull.draught;
    number::division::floor_scaled(block, hull.volume * 1000000, 16384, 2).min(3221225472)
}

// The power 3/10 of what stands between a / u and b / u.
fn raised(u: u64, a: u64, b: u64) -> Bounds
    requires { Spread u a b }
    ensures { result ≡ raised_of u a b }
{
    let y = power::power(a, u, 3, 10);
    Bounds {
        lo: y.lo,
        hi: y.hi + (y.hi * (3 * (b - a))).div_ceil(10 * a),
    }
}

// 0.174 / Fn^2 in units of 2^-30, from 1/Fn.
fn squared(a: Bounds) -> Bounds
    requires { WithinLimits a }
    ensures { result ≡ squared_of a }
{
    Bounds {
        lo: 29 * (a.lo * a.lo / 4194304) / 37500,
        hi: (29 * (a.hi * a.hi).div_ceil(4194304)).div_ceil(37500),
    }
}

fn scaled(n: Bounds, p: Bounds) -> Bounds
    requires { Scalable n p }
    ensures { result ≡ scaled_of n p }
{
    Bounds {
        lo: number::product::scaled_down(n.lo, p.lo),
        hi: number::product::scaled_up(n.hi, p.hi),
    }
}

// f_j from 1/Fn, and from the powers 3/10 of 1/Fn and of 1/C_b.
fn product(a: Bounds, y: Bounds, c: Bounds) -> Bounds
    requires { WithinLimits a × Between (2 ^ 30) (3 * 2 ^ 30) y × Between (2 ^ 30) (3 * 2 ^ 30) c }
    ensures { result ≡ product_of a y c }
{
    let f = scaled(squared(a), scaled(y, c));
    Bounds {
        lo: f.lo.min(1073741824),
        hi: f.hi.min(1073741824),
    }
}

// f_j of a general cargo ship with the speed v, in millionths of a knot. Every speed method keeps v in bounds, and rule 18 leaves what is
// asked of the hull. Both stand in each contract: the definitions take plain bounds and a plain hull, so a type that kept them would be opened in
// each, and `index` asks it of one type of ship alone.
pub fn general(v: Bounds, hull: Hull) -> Bounds
    requires { Fast v × Shaped (hull_of hull) }
    ensures { result ≡ general_of v (hull_of hull) }
{
    let a = inverse_froude(v, hull);
    let y = raised(1006632960, a.lo, a.hi);
    let e = inverse_block(hull);
    let c = raised(268435456, e, e + 1);
    product(a, y, c)
}
