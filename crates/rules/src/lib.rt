// The rules of a record in their order, with rules 15, 16, 18 and 19, which come last.
// A type, a method and the like are tested as numbers: each contract says of any numbers of a record, also of those that no enum has, whether a
// rule of ship/specs/Rules.antt is broken.
// A limit is two comparisons, under the least or over the most, as the document's table reads: `!(lo..=hi).contains(&n)` says a refusal by a negation.
#![tactic(auto)]

ghost use Rattle.std.specs.Prelude.{◌≡◌, false, ◌≤◌, None};
ghost use Rattle.std.specs.List.{list_any};
ghost use Rattle.ship.specs.Refusals.{first_of, verdict};
ghost use Rattle.ship.specs.Rules.{type_refused, deadweight_refused, engines_refused, apart, trial_refused, occupied};
ghost use Rattle.ship.specs.Rules.{unused_refused, trial_tests, early_tests, tests, refusal_of};

use build_rules::{build_broken, newer_broken};
use edition_rules::edition_broken;
use hull_rules::hull_check;
use plant_rules::plant_check;
use ship::kinds::ShipType;
use ship::power::{capacity_of, power_sums};
use ship::{Engine, Particulars, Refusal, Ship, refuse_if, unused};

// Whether a whole number and one of hundredths are such that either is above 5 times the other.
fn is_apart(whole: u64, hundredths: u64) -> bool
    requires { hundredths ≤ 60000000 }
    ensures { result ≡ apart whole hundredths }
{
    (hundredths / 20 < whole) | (whole < hundredths.div_ceil(500))
}

// Rule 15, of a record whose type, deadweight and engines broke none.
fn trial_broken(p: &Particulars, es: &[Engine; 4]) -> bool
    requires { (type_refused p.now.layout p.now.kind ≡ false) × (deadweight_refused p.now.deadweight ≡ false) × (engines_refused p.now.used es.now ≡ false) }
    ensures { result ≡ trial_refused p.now es.now }
{
    let method = p.method;
    let power = p.trial.power;
    let load = p.trial.deadweight.tonnes;
    let deadweight = p.deadweight;
    let sums = power_sums(*es, p.used);
    let power_apart = is_apart(power, sums.low);
    let kind = ShipType::try_from(p.kind).unwrap();
    let load_apart = is_apart(load, capacity_of(kind, deadweight));
    ((method == 1) | (method == 4)) & ((power != 0) | (load != 0))
        | ((method == 2) | (method == 3)) & (((power < 1) | (600000 < power)) | power_apart)
        | (method == 2) & (load != 0)
        | (method == 3) & ((load == 0) | load_apart)
}

// Rule 16, of entries, and of those that are not used.
fn any_occupied(es: &[Engine]) -> bool
    ensures { result ≡ list_any occupied es.now }
{
    es.iter().any(|e| *e != Engine::default())
}

#[tactic(auto, using(ship::proofs::Tests::any_after))]
fn unused_broken(used: u64, es: &[Engine; 4]) -> bool
    ensures { result ≡ unused_refused used es.now }
{
    any_occupied(unused(used, es))
}

// Rules 15, 16, 18 and 19, of a record that broke none of the others; `zeros` is whether a block has a byte that must be zero and isn't.
#[tactic(auto, unfolding(ship::specs::Refusals::first_of, ship::specs::Rules::trial_tests))]
fn trial_check(zeros: bool, s: &Ship) -> Result<(), Refusal>
    requires { first_of (early_tests s.now) None ≡ None }
    ensures { result ≡ verdict (first_of (trial_tests zeros s.now) None) }
{
    let p = &s.particulars;
    refuse_if(trial_broken(p, &s.engines), Refusal::Trial)?;
    let occupied = unused_broken(p.used, &s.engines) | newer_broken(p.layout, &p.build);
    refuse_if(zeros | occupied, Refusal::Unused)?;
    refuse_if(build_broken(p.kind, &p.build), Refusal::Build)?;
    refuse_if(edition_broken(s), Refusal::Edition)
}

// The first rule from 3 on that is broken, or none. Rule 15 calculates, so it waits until the others hold.
#[tactic(auto, using(ship::proofs::Order::in_stages))]
pub fn check_with(zeros: bool, s: Ship) -> Result<(), Refusal>
    ensures { result ≡ verdict (first_of (tests zeros s) None) }
{
    hull_check(&s)?;
    plant_check(&s)?;
    trial_check(zeros, &s)
}

// The first rule that a record breaks, or none.
#[tactic(auto, unfolding(ship::specs::Rules::refusal_of))]
pub fn check(s: Ship) -> Result<(), Refusal>
    ensures { result ≡ verdict (refusal_of s) }
{
    check_with(false, s)
}
