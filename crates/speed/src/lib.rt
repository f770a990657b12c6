// The reference speed by each of the four methods, in millionths of a knot, from below and from above.
#![tactic(auto)]

ghost use Rattle.std.specs.Prelude.{◌≡◌, ◌*◌, ◌^◌, ◌≤◌};
ghost use Rattle.exact.specs.Index.{Capacity, k};
ghost use Rattle.ship.specs.Accepted.{Within, Near, ByDesignDraught};
ghost use Rattle.ship.specs.Figures.{deadweight_of};
ghost use Rattle.ship.specs.Kinds.{type_of, method_by};
ghost use Rattle.propeller.specs.Propeller.{exactly};
ghost use Rattle.speed.specs.Speeds.{Factor, Fives, AcceptedSpeed};
ghost use Rattle.speed.specs.Speeds.{trial_of, k_root_of, times_of, up_of, down_of, parts_of, design_of, speed_by};

use power::Bounds;
use propeller::{Split, speed_from};
use ship::kinds::{Method, ShipType};
use ship::{Deadweight, Trial};
use statistical::statistical;

// Both ends of a figure that is known exactly.
fn exactly(n: u64) -> Bounds
    ensures { result ≡ exactly n }
{
    Bounds { lo: n, hi: n }
}

// Method 2: v in 1/100 knot at a trial of so many kW.
fn trial(v: u64, kw: u64, power: u64) -> Bounds
    requires { Within 500 6000 v × Within 1 600000 kw × Near (100 * kw) power × (power ≤ 36000000) }
    ensures { result ≡ trial_of v kw power }
{
    let parts = Split {
        base: exactly(v * 10000000),
        over: exactly(1073741824),
    };
    speed_from(parts, power, kw * 100)
}

// k of method 3, in hundredths, of a type that has the method.
#[tactic(auto, unfolding(exact::specs::Index::k))]
fn k_of(kind: ShipType, deadweight: Deadweight) -> u64
    requires { ByDesignDraught (type_of kind) }
    ensures { result ≡ k (type_of kind) (deadweight_of deadweight) }
{
    let t = deadweight.tonnes;
    match kind {
        ShipType::Bulk => match t {
            0..=200000 => 97,
            _ => 100,
        },
        ShipType::Tanker => match t {
            0..=100000 => 97,
            _ => 100,
        },
        ShipType::Container => match t {
            0..=120000 => 95,
            _ => 93,
        },
        ShipType::Gas
        | ShipType::Refrigerated
        | ShipType::Combination
        | ShipType::Vehicle
        | ShipType::General => unreachable!(),
    }
}

// The cube root of n / 100, in 10^-9: the power is taken of the inverse, which is at least 1.
fn root_of_k(n: u64) -> Bounds
    requires { Within 90 100 n }
    ensures { result ≡ k_root_of n }
{
    let y = power::power(100, n, 1, 3);
    let one: u64 = 1073741824000000000;
    let lo = one / y.hi;
    let hi = one.div_ceil(y.lo);
    Bounds { lo, hi }
}

// v in 1/100 knot times g in 10^-9, as 10^-9 knot.
fn times(v: u64, g: Bounds) -> Bounds
    requires { (v ≤ 6000) × (g.lo ≤ 2 ^ 32) × (g.hi ≤ 2 ^ 32) }
    ensures { result ≡ times_of v g }
{
    let lo = v * g.lo / 100;
    let hi = (v * g.hi).div_ceil(100);
    Bounds { lo, hi }
}

// A trial at design draught: v in 1/100 knot, the cube root g of k in 10^-9, and the trial's deadweight over Capacity as a/b.
#[derive(Clone, Copy)]
struct Loaded {
    pub v: u64,
    pub g: Bounds,
    pub a: u64,
    pub b: u64,
    ghost slow: { Within 500 6000 v },
    ghost root: { Factor g },
    ghost fives: { Fives a b },
}

impl Loaded {
    // v g (a/b)^(2/9), where a is at least b.
    fn up(&self) -> Split
        requires { self.now.b ≤ self.now.a }
        ensures { result ≡ up_of self.now.v self.now.g self.now.a self.now.b }
    {
        let x = power::power(self.a, self.b, 2, 9);
        let f = Bounds {
            lo: self.g.lo * x.lo / 1073741824,
            hi: (self.g.hi * x.hi).div_ceil(1073741824),
        };
        Split {
            base: times(self.v, f),
            over: exactly(1073741824),
        }
    }

    // And where it is less: over (b/a)^(2/9).
    #[tactic(auto, unfolding(crate::specs::Speeds::down_of))]
    fn down(&self) -> Split
        requires { self.now.a ≤ self.now.b }
        ensures { result ≡ down_of self.now.v self.now.g self.now.a self.now.b }
    {
        let over = power::power(self.b, self.a, 2, 9);
        let base = times(self.v, self.g);
        Split { base, over }
    }

    #[tactic(auto, unfolding(crate::specs::Speeds::parts_of))]
    fn parts(&self) -> Split
        ensures { result ≡ parts_of self.now.v self.now.g self.now.a self.now.b }
    {
        if self.b <= self.a {
            self.up()
        } else {
            self.down()
        }
    }
}

// Method 3, with the trial's deadweight.
fn design(v: u64, trial: Trial, kind: ShipType, deadweight: Deadweight, power: u64) -> Bounds
    requires sailed { Within 500 6000 v × Within 1 600000 trial.power × Near (100 * trial.power) power }
    requires power_bound { (power ≤ 36000000) × Within 100 600000 deadweight.tonnes
        × Near (100 * trial.deadweight.tonnes) (Capacity (type_of kind) (deadweight_of deadweight)) × ByDesignDraught (type_of kind) }
    ensures { result ≡ design_of v trial.power (deadweight_of trial.deadweight) (type_of kind) (deadweight_of deadweight) power }
{
    let loaded = Loaded {
        v,
        g: root_of_k(k_of(kind, deadweight)),
        a: trial.deadweight.tonnes * 100,
        b: ship::power::capacity_of(kind, deadweight),
    };
    speed_from(loaded.parts(), power, trial.power * 100)
}

// V_ref by a record's method, with the speed v in 1/100 knot and the sum of P_ME in 1/100 kW. What it asks, rules 6, 9, 13 and 15 leave. It is
// handed what it reads: `index::speeds` reads type and method once for its two calls. Type and deadweight are two parameters, as in `capacity_of`,
// `statistical` and each definition over them.
#[tactic(auto, unfolding(crate::specs::Speeds::speed_by))]
pub fn speed(kind: ShipType, deadweight: Deadweight, method: Method, v: u64, power: u64) -> Bounds
    requires { AcceptedSpeed (method_by method v) (type_of kind) (deadweight_of deadweight) power }
    ensures { result ≡ speed_by (method_by method v) (type_of kind) (deadweight_of deadweight) power }
{
    match method {
        Method::Declared => exactly(v * 10000),
        Method::Trial(kw) => trial(v, kw, power),
        Method::DesignTrial(tested) => design(v, tested, kind, deadweight, power),
        Method::Statistical => statistical(kind, deadweight, power),
    }
}
