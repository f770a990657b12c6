// f_c, the capacity factor of light cargoes, and f_l, that of cranes, enclosed between two whole numbers of units of 2^-30.
#![tactic(auto)]

ghost use Rattle.std.specs.Prelude.{◌≡◌, ◌≤◌, [], ◌∷◌, length, map};
ghost use Rattle.std.specs.List.{All};
ghost use Rattle.ship.specs.Figures.{deadweight_of, crane_of, figures};
ghost use Rattle.ship.specs.Kinds.{under};
ghost use Rattle.ship.specs.Accepted.{Within, Geared};
ghost use Rattle.power.specs.Power.{one};
ghost use Rattle.factor.specs.Factor.{cargo_factor, vehicles_factor, vehicles_by, lifted_of, cranes_factor, factor_by};

use power::Bounds;
use ship::accepted::Accepted;
use ship::kinds::{Edition, ShipType};
use ship::{Crane, Deadweight, GrossTonnage};

// 1, in units of 2^-30, at both ends. (As speed's `exactly`, of this one number: `power` makes no bounds of a number.)
fn exactly_one() -> Bounds
    ensures { result ≡ one }
{
    Bounds {
        lo: 1073741824,
        hi: 1073741824,
    }
}

// A bulk carrier's: R to the power -0.15, where R = deadweight / volume is below 0.55.
#[tactic(auto, unfolding(crate::specs::Factor::cargo_factor))]
fn light_cargo(deadweight: Deadweight, cargo: u64) -> Bounds
    requires { Within 100 600000 deadweight.tonnes × Within 100 1000000 cargo }
    ensures { result ≡ cargo_factor (deadweight_of deadweight) cargo }
{
    let t = deadweight.tonnes;
    if t * 100 < 55 * cargo {
        power::power(cargo, t, 15, 100)
    } else {
        exactly_one()
    }
}

// A vehicle carrier's: (R / 0.35) to the power -0.8, where R = deadweight / gross tonnage is below 0.35. (Beside `light_cargo`: fraction, limit and
// exponent differ, each from its own definition, so one function of both would have six parameters.)
#[tactic(auto, unfolding(crate::specs::Factor::vehicles_factor))]
fn light_vehicles(deadweight: Deadweight, gross: GrossTonnage) -> Bounds
    requires { Within 100 600000 deadweight.tonnes × Within 100 400000 gross.gt }
    ensures { result ≡ vehicles_factor (deadweight_of deadweight) (record { gt = gross.gt }) }
{
    let t = deadweight.tonnes;
    let g = gross.gt;
    if t * 100 < 35 * g {
        power::power(35 * g, 100 * t, 8, 10)
    } else {
        exactly_one()
    }
}

// A vehicle carrier's, which only the EEXI has.
#[tactic(auto, unfolding(crate::specs::Factor::vehicles_by))]
fn vehicles(edition: Edition, deadweight: Deadweight, gross: GrossTonnage) -> Bounds
    requires { Within 100 600000 deadweight.tonnes × Within 100 400000 gross.gt }
    ensures { result ≡ vehicles_by (under edition) (deadweight_of deadweight) (record { gt = gross.gt }) }
{
    match edition {
        Edition::Eexi => light_vehicles(deadweight, gross),
        Edition::EediFirst | Edition::EediAmended => exactly_one(),
    }
}

// What a crane counts for, in 10^-6 t, and what all of them do. Rule 18 bounds them.
#[tactic(auto, unfolding(crate::specs::Factor::lifted_of))]
fn lifts(c: &Crane) -> u64
    requires { Geared (crane_of c.now) }
    ensures { result ≡ lifted_of (crane_of c.now ∷ []) }
{
    519 * (c.swl * c.reach) + 32110000
}

fn lifted(cranes: &[Crane]) -> u64
    requires { (length cranes.now ≤ 8) × All (λ c. Geared (crane_of c)) cranes.now }
    ensures { (result ≡ lifted_of (map crane_of cranes.now)) × (result ≤ 415456880000) }
{
    cranes.iter().map(|c| lifts(c)).sum()
}

// A general cargo ship's f_l: Capacity and what her cranes count for, over Capacity. (Field by field: neither `power` nor `number` stands on the
// other, so no crate may have the `From`.)
fn cranes_over(deadweight: Deadweight, cranes: &[Crane]) -> Bounds
    requires { Within 100 600000 deadweight.tonnes × (length cranes.now ≤ 8) × All (λ c. Geared (crane_of c)) cranes.now }
    ensures { result ≡ cranes_factor (deadweight_of deadweight) (map crane_of cranes.now) }
{
    let d = deadweight.tonnes * 1000000;
    let n = d + lifted(cranes);
    let f = number::division::both_scaled(n, d, 32768, 2);
    Bounds {
        lo: f.down,
        hi: f.up,
    }
}

// f_c times f_l of an accepted record.
pub fn factor(a: &Accepted) -> Bounds
    ensures { let s = (figures a.now.ship).ship in result ≡ factor_by s.kind s }
{
    let p = &a.ship.particulars;
    match a.kind() {
        ShipType::Bulk => light_cargo(p.deadweight, p.cargo),
        ShipType::Vehicle => vehicles(a.edition(), p.deadweight, p.gross),
        ShipType::General => cranes_over(p.deadweight, a.cranes()),
        ShipType::Gas
        | ShipType::Tanker
        | ShipType::Container
        | ShipType::Refrigerated
        | ShipType::Combination => exactly_one(),
    }
}
