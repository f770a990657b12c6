// The index in millionths, from below and from above, of a record that no rule refuses. Speed and index are two functions,
// the index taking the speeds.
#![tactic(auto)]

ghost use Rattle.std.specs.Prelude.{◌≡◌, ◌≤◌};
ghost use Rattle.exact.specs.Ship.{general};
ghost use Rattle.ship.specs.Figures.{hull_of, figures};
ghost use Rattle.ship.specs.Kinds.{type_of};
ghost use Rattle.ship.specs.Accepted.{Shaped};
ghost use Rattle.correction.specs.Correction.{Fast};
ghost use Rattle.index.specs.Attained.{Sized, index_down, index_up, main_of, speeds_of, index_of};

use power::Bounds;
use ship::accepted::Accepted;
use ship::kinds::ShipType;
use ship::{Hull, Range};

// The speed of the most and of the least favourable ship, in millionths of a knot.
#[derive(Clone, Copy, PartialEq, Eq)]
pub struct SpeedBounds {
    pub most: Bounds,
    pub least: Bounds,
}

// The bounds of an index, in millionths: a type of its own, so that bounds of a speed or a factor aren't taken for it.
#[derive(Clone, Copy, PartialEq, Eq)]
pub struct Index {
    pub lower: u64,
    pub upper: u64,
}

// n / (load v c), rounded down and up: by load v to 63 bits, then by f_c times f_l in millionths, which is one rounding. Where that factor
// is 1 nothing is left to divide by, and the quotient to a digit less is the index.
fn both(n: u64, load: u64, v: u64, c: u64) -> Index
    requires { Sized n load v c }
    ensures lower_value { result.lower ≡ index_down n load v c }
    ensures upper_value { result.upper ≡ index_up n load v c }
{
    let work = load * v;
    let thousandfold = n * 1000;
    if c == 1073741824 {
        let q = number::division::both_scaled(thousandfold, work, 1000000, 1);
        return Index {
            lower: q.down,
            upper: q.up,
        };
    }
    let up = (c * 1000000).div_ceil(1073741824);
    let down = c * 1000000 / 1073741824;
    let q = number::division::both_scaled(thousandfold, work, 1000000, 2);
    let lower = q.down / up;
    let upper = q.up.div_ceil(down);
    Index { lower, upper }
}

// The lower bound from the least emissions over the greatest speed and factor, the upper one from the reverse. Where the two ends have the same
// figures, one quotient gives both.
fn between(n: Range, load: u64, most: u64, least: u64, c: Bounds) -> Index
    requires { Sized n.low load most c.hi × Sized n.high load least c.lo }
    ensures lower_value { result.lower ≡ index_down n.low load most c.hi }
    ensures upper_value { result.upper ≡ index_up n.high load least c.lo }
{
    let low = both(n.low, load, most, c.hi);
    if (n.low == n.high) & (most == least) & (c.lo == c.hi) {
        return low;
    }
    let high = both(n.high, load, least, c.lo);
    Index {
        lower: low.lower,
        upper: high.upper,
    }
}

// The speed bounds of an accepted record. Where neither speed nor power is a range, the most and the least favourable ship have one speed.
pub fn speeds(a: &Accepted) -> SpeedBounds
    ensures { result ≡ speeds_of (figures a.now.ship) }
{
    let s = &a.ship;
    let kind = a.kind();
    let method = a.method();
    let deadweight = s.particulars.deadweight;
    let power = plant::powers(a);
    let most = speed::speed(kind, deadweight, method, s.speed.high, power.low);
    if (s.speed.low == s.speed.high) & (power.low == power.high) {
        return SpeedBounds { most, least: most };
    }
    let least = speed::speed(kind, deadweight, method, s.speed.low, power.high);
    SpeedBounds { most, least }
}

// The main engines' emissions at the two ends of their ranges, with f_j, which only a general cargo ship has. Rule 18 shapes her hull.
#[tactic(auto, unfolding(crate::specs::Attained::main_of))]
fn main_engines(kind: ShipType, v: Bounds, hull: Hull, main: Range) -> Range
    requires fast { Fast v × (type_of kind ≡ general → Shaped (hull_of hull)) }
    requires low_bound { (main.low ≤ 6000000000000000) × (main.high ≤ 6000000000000000) }
    ensures low_value { result.low ≡ (main_of (type_of kind) v (hull_of hull) main.low).lo }
    ensures high_value { result.high ≡ (main_of (type_of kind) v (hull_of hull) main.high).hi }
{
    match kind {
        ShipType::General => {
            let f = correction::general(v, hull);
            Range {
                low: number::product::scaled_down(main.low, f.lo),
                high: number::product::scaled_up(main.high, f.hi),
            }
        }
        ShipType::Bulk
        | ShipType::Gas
        | ShipType::Tanker
        | ShipType::Container
        | ShipType::Refrigerated
        | ShipType::Combination
        | ShipType::Vehicle => main,
    }
}

// The bounds of an accepted record's index from its own speed bounds.
pub fn attained(a: &Accepted, v: SpeedBounds) -> Index
    requires { v ≡ speeds_of (figures a.now.ship) }
    ensures { result ≡ index_of (figures a.now.ship) }
{
    let c = factor::factor(a);
    let load = plant::load(a);
    let n = plant::emissions(a);
    let hull = a.ship.particulars.build.hull;
    let main = main_engines(a.kind(), v.most, hull, n.main);
    let low = main.low + n.auxiliary.low;
    let high = main.high + n.auxiliary.high;
    between(Range { low, high }, load, v.most.hi, v.least.lo, c)
}
