// The rules of engines, consumption, auxiliaries, ice class, speed and ranges, 9 to 14: each a function that says whether it is
// broken, and the first one broken.
// A type, a method and the like are tested as numbers: each contract says of any numbers of a record, also of those that no enum has, whether a
// rule of ship/specs/Rules.antt is broken.
// A limit is two comparisons, under the least or over the most, as the document's table reads: `!(lo..=hi).contains(&n)` says a refusal by a negation.
#![tactic(auto)]

ghost use Rattle.std.specs.Prelude.{◌≡◌, None};
ghost use Rattle.std.specs.List.{list_any};
ghost use Rattle.ship.specs.Refusals.{first_of, verdict};
ghost use Rattle.ship.specs.Rules.{any_used, engine_refused, engines_refused, uses_refused, consumption_refused, auxiliary_refused};
ghost use Rattle.ship.specs.Rules.{ice_refused, speed_refused, range_refused, engine_crossed, ranges_refused, plant_tests};

use ship::{Consumption, Engine, Range, Refusal, Ship, in_use, refuse_if};

// Rule 9, of one engine, of those that are used, and of all.
fn engine_broken(e: Engine) -> bool
    ensures { result ≡ engine_refused e }
{
    ((e.mcr.low < 100) | (120000 < e.mcr.low))
        | ((e.mcr.high < 100) | (120000 < e.mcr.high))
        | (e.limit != 0) & ((e.limit < 100) | (e.mcr.low < e.limit))
}

// (Here and in the other rules the test of a slice is a function by itself: in one with the choice of the slice the check finds only one of the
// two steps; tried.)
fn any_broken(es: &[Engine]) -> bool
    ensures { result ≡ list_any engine_refused es.now }
{
    es.iter().any(|e| engine_broken(*e))
}

#[tactic(auto, using(ship::proofs::Tests::any_first))]
fn engines_broken(used: u64, es: &[Engine; 4]) -> bool
    ensures { result ≡ engines_refused used es.now }
{
    ((used < 1) | (4 < used)) | any_broken(in_use(used, es))
}

// Rule 10, of one consumption, of those of engines, and of all.
fn uses_broken(c: Consumption) -> bool
    ensures { result ≡ uses_refused c }
{
    ((c.source < 1) | (3 < c.source))
        | ((c.source == 1) | (c.source == 2))
            & (((c.sfc.low < 500) | (4000 < c.sfc.low))
                | ((c.sfc.high < 500) | (4000 < c.sfc.high))
                | ((c.fuel < 1) | (8 < c.fuel)))
        | (c.source == 3) & ((c.sfc != Range::default()) | (c.fuel != 0))
}

fn any_uses_broken(es: &[Engine]) -> bool
    ensures { result ≡ list_any (λ e. uses_refused e.uses) es.now }
{
    es.iter().any(|e| uses_broken(e.uses))
}

#[tactic(auto, using(ship::proofs::Tests::any_first))]
fn consumption_broken(auxiliary: Consumption, used: u64, es: &[Engine; 4]) -> bool
    ensures { result ≡ consumption_refused auxiliary used es.now }
{
    uses_broken(auxiliary) | any_uses_broken(in_use(used, es))
}

// Rule 11.
fn auxiliary_broken(method: u64, power: u64) -> bool
    ensures { result ≡ auxiliary_refused method power }
{
    ((method < 1) | (2 < method))
        | (method == 1) & (power != 0)
        | (method == 2) & ((power < 1) | (50000 < power))
}

// Rule 12.
fn ice_broken(ice: u64) -> bool
    ensures { result ≡ ice_refused ice }
{
    2 < ice
}

// Rule 13.
fn speed_broken(method: u64, kind: u64, speed: Range) -> bool
    ensures { result ≡ speed_refused method kind speed }
{
    ((method < 1) | (4 < method))
        | (method == 3) & ((kind != 1) & (kind != 3) & (kind != 4))
        | ((1 <= method) & (method <= 3))
            & (((speed.low < 500) | (6000 < speed.low))
                | ((speed.high < 500) | (6000 < speed.high)))
        | (method == 4) & (speed != Range::default())
}

// Rule 14, of a range of speed, which may have to be one figure, of one engine, of the engines, and of all.
fn range_broken(single: bool, r: Range) -> bool
    ensures { result ≡ range_refused single r }
{
    (r.high < r.low) | single & (r.low != r.high)
}

fn engine_crossed(method: u64, e: Engine) -> bool
    ensures { result ≡ engine_crossed method e }
{
    ((e.mcr.high < e.mcr.low) | ((2 <= method) & (method <= 4)) & (e.mcr.low != e.mcr.high))
        | (e.uses.sfc.high < e.uses.sfc.low)
}

fn any_crossed(method: u64, es: &[Engine]) -> bool
    ensures { result ≡ list_any (engine_crossed method) es.now }
{
    es.iter().any(|e| engine_crossed(method, *e))
}

#[tactic(auto, using(ship::proofs::Tests::any_first))]
fn engines_crossed(method: u64, used: u64, es: &[Engine; 4]) -> bool
    ensures { result ≡ any_used (engine_crossed method) used es.now }
{
    any_crossed(method, in_use(used, es))
}

fn ranges_broken(s: &Ship) -> bool
    ensures { result ≡ ranges_refused s.now }
{
    let method = s.particulars.method;
    let single = ((2 <= method) & (method <= 4)) | (s.particulars.kind == 8);
    range_broken(single, s.speed)
        | (s.auxiliary.sfc.high < s.auxiliary.sfc.low)
        | engines_crossed(method, s.particulars.used, &s.engines)
}

// Rules 9 to 14.
#[tactic(auto, unfolding(ship::specs::Refusals::first_of, ship::specs::Rules::plant_tests))]
pub fn plant_check(s: &Ship) -> Result<(), Refusal>
    ensures { result ≡ verdict (first_of (plant_tests s.now) None) }
{
    let p = &s.particulars;
    refuse_if(engines_broken(p.used, &s.engines), Refusal::Engines)?;
    refuse_if(
        consumption_broken(s.auxiliary, p.used, &s.engines),
        Refusal::Consumption,
    )?;
    refuse_if(auxiliary_broken(p.supply, p.table), Refusal::AuxiliaryPower)?;
    refuse_if(ice_broken(p.ice), Refusal::IceClass)?;
    refuse_if(speed_broken(p.method, p.kind, s.speed), Refusal::Speed)?;
    refuse_if(ranges_broken(s), Refusal::Ranges)
}
