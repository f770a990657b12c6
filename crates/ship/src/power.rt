// Power of the main engines and Capacity, for rule 15, the speed and the plant.
ghost use Rattle.std.specs.Prelude.{◌≡◌, false, ℕ, ◌≤◌, ◌<◌, get_or, length, map};
ghost use Rattle.exact.specs.Index.{Capacity, P_ME, sum_P_ME};
ghost use Rattle.exact.specs.Ranges.{engines_at, low, high};
ghost use Rattle.ship.specs.Record.{no_engine};
ghost use Rattle.ship.specs.Figures.{deadweight_of, engine_of, mains};
ghost use Rattle.ship.specs.Kinds.{type_of};
ghost use Rattle.ship.specs.Rules.{engine_refused};

use crate::kinds::ShipType;
use crate::{Deadweight, Engine, Range};

// P_ME of one engine, in hundredths of a kW. Rule 9 bounds MCR and limit.
#[tactic(auto, unfolding(exact::specs::Index::P_ME))]
pub fn engine_power(mcr: u64, limit: u64) -> u64
    requires { (mcr ≤ 120000) × (limit ≤ 120000) }
    ensures { (result ≡ P_ME mcr limit) × (result ≤ 9000000) }
{
    let full = 75 * mcr;
    if limit == 0 {
        return full;
    }
    full.min(83 * limit)
}

// The sum of P_ME over engines, in hundredths of a kW, with every MCR at its low and at its high end.
#[tactic(auto, unfolding(exact::specs::Index::sum_P_ME, exact::specs::Ranges::engines_at, crate::specs::Figures::mains))]
fn sums_over(engines: &[Engine]) -> Range
    requires { (length engines.now ≤ 4) × ((i : ℕ) → i < length engines.now → engine_refused (get_or engines.now i no_engine) ≡ false) }
    ensures low_value { (result.low ≡ sum_P_ME (engines_at low (map engine_of engines.now))) × (result.high ≡ sum_P_ME (engines_at high (map engine_of engines.now))) }
    ensures low_bound { result.low ≤ 36000000 }
{
    let mut low: u64 = 0;
    let mut high: u64 = 0;
    for e in engines {
        low += engine_power(e.mcr.low, e.limit);
        high += engine_power(e.mcr.high, e.limit);
    }
    Range { low, high }
}

// Over the engines that are used. Rule 9 bounds each and their number. (An array by value: docs/PROMISES.md, "Forms by place".)
#[tactic(auto, unfolding(crate::specs::Figures::mains))]
pub fn power_sums(engines: [Engine; 4], used: u64) -> Range
    requires { (used ≤ 4) × ((i : ℕ) → i < used → engine_refused (get_or engines i no_engine) ≡ false) }
    ensures low_value { (result.low ≡ sum_P_ME (engines_at low (mains used engines))) × (result.high ≡ sum_P_ME (engines_at high (mains used engines))) }
    ensures low_bound { result.low ≤ 36000000 }
{
    sums_over(&engines[..used as usize])
}

// Capacity in hundredths of a tonne. Rule 6 bounds the deadweight.
#[tactic(auto, unfolding(exact::specs::Index::Capacity))]
pub fn capacity_of(kind: ShipType, deadweight: Deadweight) -> u64
    requires { deadweight.tonnes ≤ 600000 }
    ensures { (result ≡ Capacity (type_of kind) (deadweight_of deadweight)) × (result ≤ 60000000) }
{
    let t = deadweight.tonnes;
    match kind {
        ShipType::Container => 70 * t,
        ShipType::Bulk
        | ShipType::Gas
        | ShipType::Tanker
        | ShipType::Refrigerated
        | ShipType::Combination
        | ShipType::Vehicle
        | ShipType::General => 100 * t,
    }
}
