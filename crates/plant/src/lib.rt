// Power and emissions of a record's engines at both ends of every range, and its Capacity with f_i and f_m, in whole numbers.
#![tactic(auto)]

ghost use Rattle.std.specs.Prelude.{◌≡◌, ℕ, ◌*◌, ◌≤◌, ◌<◌, length, map, take, get_or};
ghost use Rattle.exact.specs.Index.{C_F, f_m};
ghost use Rattle.exact.specs.Ranges.{low, high, uses_at, engines_at};
ghost use Rattle.ship.specs.Record.{no_engine};
ghost use Rattle.ship.specs.Figures.{range_of, uses_of, entry_at, engine_of, figures};
ghost use Rattle.ship.specs.Kinds.{type_of, burnt, class_of, under, uses_by, auxiliary_by};
ghost use Rattle.ship.specs.Accepted.{Within, Measured, Supplied};
ghost use Rattle.plant.specs.Plant.{top, end, Entered, Roomy, grams, auxiliary_power, allowance_of, load_of};
ghost use Rattle.plant.specs.Plant.{sums_of, with_engine, ends_of, P_ME_of, emitted_of};

use ship::accepted::Accepted;
use ship::kinds::{self, Auxiliary, Edition, Fuel, IceClass, ShipType, Uses};
use ship::{Engine, Range};

// Over the main engines: MCR in kW, P_ME × C_F × SFC in 10^-6 g/h.
#[derive(Clone, Copy)]
struct Sums {
    pub rated: u64,
    pub grams: u64,
}

// What the main engines and the auxiliaries emit.
#[derive(Clone, Copy)]
pub struct Emitted {
    pub main: Range,
    pub auxiliary: Range,
}

// One end of every range.
#[derive(Clone, Copy)]
enum End {
    Low,
    High,
}

fn end_of(r: Range, at: End) -> u64
    ensures { result ≡ end (top at) (range_of r) }
{
    match at {
        End::Low => r.low,
        End::High => r.high,
    }
}

// C_F, in thousandths.
#[tactic(auto, unfolding(exact::specs::Index::C_F))]
fn conversion(fuel: Fuel) -> u64
    ensures { result ≡ C_F (burnt fuel) }
{
    match fuel {
        Fuel::Diesel => 3206,
        Fuel::Light => 3151,
        Fuel::Heavy => 3114,
        Fuel::Propane => 3000,
        Fuel::Butane => 3030,
        Fuel::Lng => 2750,
        Fuel::Methanol => 1375,
        Fuel::Ethanol => 1913,
    }
}

// C_F × SFC in 1/10,000 g/kWh; where neither is recorded, with the SFC that stands in, in g/kWh.
fn emission(uses: Uses, stand_in: u64, at: End) -> u64
    requires measured { Measured (uses_by uses) }
    requires within { Within 100 215 stand_in }
    ensures { (result ≡ grams stand_in (uses_at (end (top at)) (uses_by uses))) × (result ≤ 12824000) }
{
    match uses {
        Uses::Recorded(sfc, fuel) => conversion(fuel) * end_of(sfc, at),
        Uses::Neither => 3114 * (10 * stand_in),
    }
}

// The sums with one engine more, of which the consumption is read already; at most three were there.
fn and_engine(sums: Sums, e: &Engine, uses: Uses, at: End) -> Sums
    requires { Entered e.now × Roomy sums × (uses_by uses ≡ uses_of e.now.uses) }
    ensures { result ≡ with_engine sums (entry_at (end (top at)) e.now) }
{
    let mcr = end_of(e.mcr, at);
    let kw = ship::power::engine_power(mcr, e.limit);
    let rated = sums.rated + mcr;
    let grams = sums.grams + kw * emission(uses, 190, at);
    Sums { rated, grams }
}

// The sums over the engines at the low and at the high end of every range, in one walk: each consumption is read once.
fn sums_over(engines: &[Engine]) -> (Sums, Sums)
    requires { (length engines.now ≤ 4) × ((i : ℕ) → i < length engines.now → Entered (get_or engines.now i no_engine)) }
    ensures low_end { result.0 ≡ sums_of (engines_at low (map engine_of engines.now)) }
    ensures high_end { result.1 ≡ sums_of (engines_at high (map engine_of engines.now)) }
{
    let mut low = Sums { rated: 0, grams: 0 };
    let mut high = low;
    for e in engines {
        let uses = kinds::uses_in(&e.uses);
        low = and_engine(low, e, uses, End::Low);
        high = and_engine(high, e, uses, End::High);
    }
    (low, high)
}

// Of the engines that are used. (An array by value: docs/PROMISES.md, "Forms by place".)
fn main_sums(engines: [Engine; 4], used: u64) -> (Sums, Sums)
    requires { (used ≤ 4) × (length (take used engines) ≤ 4) × ((i : ℕ) → i < length (take used engines) → Entered (get_or (take used engines) i no_engine)) }
    ensures low_end { result.0 ≡ sums_of (engines_at low (map engine_of (take used engines))) }
    ensures high_end { result.1 ≡ sums_of (engines_at high (map engine_of (take used engines))) }
{
    sums_over(&engines[..used as usize])
}

// P_AE in 1/1000 kW, from the power table or from total MCR.
#[tactic(auto, unfolding(crate::specs::Plant::auxiliary_power, exact::specs::Index::by_rule))]
fn auxiliary_power(auxiliary: Auxiliary, rated: u64) -> u64
    requires { Supplied (auxiliary_by auxiliary) × (rated ≤ 480000) }
    ensures { (result ≡ auxiliary_power (auxiliary_by auxiliary) rated) × (result ≤ 50000000) }
{
    match auxiliary {
        Auxiliary::Table(kw) => 1000 * kw,
        Auxiliary::Rule => {
            if rated < 10000 {
                50 * rated
            } else {
                25 * rated + 250000
            }
        }
    }
}

// The sum of P_ME of an accepted record, in 1/100 kW, at both ends of its ranges.
pub fn powers(a: &Accepted) -> Range
    ensures { result ≡ ends_of P_ME_of (figures a.now.ship) }
{
    ship::power::power_sums(a.ship.engines, a.ship.particulars.used)
}

// What the auxiliaries emit, in 10^-7 g/h.
fn auxiliary_emission(auxiliary: Auxiliary, uses: Uses, rated: u64, at: End) -> u64
    requires measured { Measured (uses_by uses) }
    requires supplied { Supplied (auxiliary_by auxiliary) × (rated ≤ 480000) }
    ensures { result ≡ auxiliary_power (auxiliary_by auxiliary) rated * grams 215 (uses_at (end (top at)) (uses_by uses)) }
{
    auxiliary_power(auxiliary, rated) * emission(uses, 215, at)
}

// The emissions of an accepted record, in 10^-7 g/h, at both ends of its ranges.
pub fn emissions(a: &Accepted) -> Emitted
    ensures { result ≡ emitted_of (figures a.now.ship) }
{
    let (low, high) = main_sums(a.ship.engines, a.ship.particulars.used);
    let auxiliary = a.auxiliary();
    let uses = a.uses();
    Emitted {
        main: Range {
            low: 10 * low.grams,
            high: 10 * high.grams,
        },
        auxiliary: Range {
            low: auxiliary_emission(auxiliary, uses, low.rated, End::Low),
            high: auxiliary_emission(auxiliary, uses, high.rated, End::High),
        },
    }
}

// f_m, in 1/100.
#[tactic(auto, unfolding(exact::specs::Index::f_m, exact::specs::Index::strengthened))]
fn ice_factor(edition: Edition, ice: IceClass) -> u64
    ensures { (result ≡ f_m (under edition) (class_of ice)) × Within 100 105 result }
{
    match edition {
        Edition::EediFirst => 100,
        Edition::Eexi | Edition::EediAmended => match ice {
            IceClass::SuperOrIA => 105,
            IceClass::NoIceClass | IceClass::IBOrIC => 100,
        },
    }
}

// What f_i adds to Capacity: 8 % of the lightweight of a bulk carrier or a tanker, in 1/100 t. Rule 18 bounds it.
#[tactic(auto, unfolding(crate::specs::Plant::allowance_of))]
fn allowance(kind: ShipType, lightweight: u64) -> u64
    requires { lightweight ≤ 200000 }
    ensures { (result ≡ allowance_of (type_of kind) lightweight) × (result ≤ 1600000) }
{
    match kind {
        ShipType::Bulk | ShipType::Tanker => 8 * lightweight,
        ShipType::Gas
        | ShipType::Container
        | ShipType::Refrigerated
        | ShipType::Combination
        | ShipType::Vehicle
        | ShipType::General => 0,
    }
}

// Capacity with f_i and f_m, of an accepted record, in 10^-4 t.
pub fn load(a: &Accepted) -> u64
    ensures { result ≡ load_of (figures a.now.ship).ship }
{
    let p = &a.ship.particulars;
    let kind = a.kind();
    let capacity = ship::power::capacity_of(kind, p.deadweight);
    let laden = capacity + allowance(kind, p.build.lightweight);
    laden * ice_factor(a.edition(), a.ice())
}
