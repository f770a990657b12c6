// The reference speed by method 4, the statistical curves.
#![tactic(auto)]

ghost use Rattle.std.specs.Prelude.{◌≡◌, ◌^◌, ◌≤◌};
ghost use Rattle.exact.specs.Index.{sized};
ghost use Rattle.ship.specs.Accepted.{Within};
ghost use Rattle.ship.specs.Figures.{deadweight_of};
ghost use Rattle.ship.specs.Kinds.{type_of};
ghost use Rattle.statistical.specs.Curves.{RowOf, average_of, less_margin_of, statistical_of};

use power::Bounds;
use propeller::{Split, speed_from};
use ship::Deadweight;
use ship::kinds::ShipType;

// A row of method 4's table.
#[derive(Clone, Copy)]
struct Row {
    pub a: u64,
    pub c: u64,
    pub d: u64,
    pub f: u64,
}

// The table of method 4: A and D in ten-thousandths, C and F in hundred-thousandths.
#[tactic(auto, unfolding(exact::specs::Index::row))]
fn row_of(kind: ShipType) -> Row
    ensures { RowOf (type_of kind) result }
{
    let (a, c, d, f) = match kind {
        ShipType::Bulk => (106585, 2706, 237510, 54087),
        ShipType::Gas => (74462, 7604, 214704, 59522),
        ShipType::Tanker => (81358, 5383, 228415, 55826),
        ShipType::Container => (32395, 18294, 5042, 103046),
        ShipType::Refrigerated => (10600, 31518, 272, 138634),
        ShipType::Combination => (81391, 5378, 228536, 55820),
        ShipType::Vehicle => (166773, 1802, 2627693, 39973),
        ShipType::General => (24538, 18832, 8816, 92050),
    };
    Row { a, c, d, f }
}

// The deadweight, for a container ship no more than `most`.
#[tactic(auto, unfolding(exact::specs::Index::sized))]
fn size(kind: ShipType, deadweight: Deadweight, most: u64) -> u64
    ensures { result ≡ sized most (type_of kind) (deadweight_of deadweight) }
{
    match kind {
        ShipType::Container => deadweight.tonnes.min(most),
        ShipType::Bulk
        | ShipType::Gas
        | ShipType::Tanker
        | ShipType::Refrigerated
        | ShipType::Combination
        | ShipType::Vehicle
        | ShipType::General => deadweight.tonnes,
    }
}

// V_avg in 10^-9 knot. The limits of the deadweight stand in each contract, in speed and factor too: `average_of`, `cargo_factor` and the others
// take a plain deadweight, so a type with the limits would be taken apart in each call.
fn average(kind: ShipType, deadweight: Deadweight) -> Bounds
    requires { Within 100 600000 deadweight.tonnes }
    ensures { result ≡ average_of (type_of kind) (deadweight_of deadweight) }
{
    let row = row_of(kind);
    let b = size(kind, deadweight, 80000);
    let x = power::power(b, 1, row.c, 100000);
    let t = row.a * 3125;
    Bounds {
        lo: t * x.lo / 33554432,
        hi: t * x.hi / 33554432 + 1,
    }
}

// The larger of 0.95 v and v - 1 knot, in 10^-9 knot.
#[tactic(auto, unfolding(crate::specs::Curves::less_margin_of))]
fn less_margin(v: u64) -> u64
    requires { (1000000000 ≤ v) × (v ≤ 2 ^ 37) }
    ensures { result ≡ less_margin_of v }
{
    (v * 95 / 100).max(v - 1000000000)
}

// Method 4; the power is the sum of P_ME in 1/100 kW. Rules 6 and 9 bound deadweight and power.
pub fn statistical(kind: ShipType, deadweight: Deadweight, power: u64) -> Bounds
    requires { Within 100 600000 deadweight.tonnes × Within 7500 36000000 power }
    ensures { result ≡ statistical_of (type_of kind) (deadweight_of deadweight) power }
{
    let row = row_of(kind);
    let v = average(kind, deadweight);
    let base = Bounds {
        lo: less_margin(v.lo),
        hi: less_margin(v.hi) + 1,
    };
    let e = size(kind, deadweight, 95000);
    let over = power::power(e, 1, row.f, 300000);
    speed_from(Split { base, over }, power * 400, 3 * row.d)
}
