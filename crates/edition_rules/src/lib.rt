// Rule 19: the edition, and what a new ship's EEDI rules out.
// A type, a method and the like are tested as numbers: each contract says of any numbers of a record, also of those that no enum has, whether a
// rule of ship/specs/Rules.antt is broken.
#![tactic(auto)]

ghost use Rattle.std.specs.Prelude.{◌≡◌};
ghost use Rattle.std.specs.List.{list_any};
ghost use Rattle.ship.specs.Rules.{any_used, not_new, edition_refused};

use ship::{Engine, Ship, in_use};

// A limiter, or a consumption without a source.
fn is_not_new(e: Engine) -> bool
    ensures { result ≡ not_new e }
{
    (e.limit != 0) | (e.uses.source == 3)
}

fn any_not_new(es: &[Engine]) -> bool
    ensures { result ≡ list_any not_new es.now }
{
    es.iter().any(|e| is_not_new(*e))
}

#[tactic(auto, using(ship::proofs::Tests::any_first))]
fn engines_barred(used: u64, es: &[Engine; 4]) -> bool
    ensures { result ≡ any_used not_new used es.now }
{
    any_not_new(in_use(used, es))
}

// Rule 19. Of the EEXI nothing more is asked.
#[tactic(auto, unfolding(ship::specs::Rules::edition_refused))]
pub fn edition_broken(s: &Ship) -> bool
    ensures { result ≡ edition_refused s.now }
{
    let edition = s.particulars.build.edition;
    if edition == 0 {
        return false;
    }
    let method = s.particulars.method;
    let barred = engines_barred(s.particulars.used, &s.engines);
    (2 < edition) | (barred | (s.auxiliary.source == 3) | ((2 <= method) & (method <= 4)))
}
