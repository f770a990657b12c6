// The rules of the layout and the hull, 3 to 8: each a function that says whether it is broken, and the first one broken.
// A type, a method and the like are tested as numbers: each contract says of any numbers of a record, also of those that no enum has, whether a
// rule of ship/specs/Rules.antt is broken.
// A limit is two comparisons, under the least or over the most, as the document's table reads: `!(lo..=hi).contains(&n)` says a refusal by a negation.
#![tactic(auto)]

ghost use Rattle.std.specs.Prelude.{◌≡◌, None};
ghost use Rattle.ship.specs.Refusals.{first_of, verdict};
ghost use Rattle.ship.specs.Rules.{layout_refused, imo_refused, type_refused, deadweight_refused, gross_refused, volume_refused, hull_tests};

use ship::{Deadweight, GrossTonnage, Refusal, Ship, refuse_if};

// Rule 3.
fn layout_broken(layout: u64) -> bool
    ensures { result ≡ layout_refused layout }
{
    (layout < 1) | (2 < layout)
}

// Rule 4.
fn imo_broken(n: u64) -> bool
    ensures { result ≡ imo_refused n }
{
    let sum = 7 * (n / 1000000)
        + 6 * (n / 100000 % 10)
        + 5 * (n / 10000 % 10)
        + 4 * (n / 1000 % 10)
        + 3 * (n / 100 % 10)
        + 2 * (n / 10 % 10);
    ((n < 1000000) | (9999999 < n)) | (sum % 10 != n % 10)
}

// Rule 5.
fn type_broken(layout: u64, kind: u64) -> bool
    ensures { result ≡ type_refused layout kind }
{
    ((kind < 1) | (8 < kind)) | ((7 < kind) & (layout != 2))
}

// Rule 6.
fn deadweight_broken(d: Deadweight) -> bool
    ensures { result ≡ deadweight_refused d }
{
    (d.tonnes < 100) | (600000 < d.tonnes)
}

// Rule 7.
fn gross_broken(kind: u64, g: GrossTonnage) -> bool
    ensures { result ≡ gross_refused kind g }
{
    (kind == 7) & ((g.gt < 100) | (400000 < g.gt)) | (kind != 7) & (g.gt != 0)
}

// Rule 8.
fn volume_broken(kind: u64, cargo: u64) -> bool
    ensures { result ≡ volume_refused kind cargo }
{
    (kind == 1) & ((cargo < 100) | (1000000 < cargo)) | (kind != 1) & (cargo != 0)
}

// Rules 3 to 8.
#[tactic(auto, unfolding(ship::specs::Refusals::first_of, ship::specs::Rules::hull_tests))]
pub fn hull_check(s: &Ship) -> Result<(), Refusal>
    ensures { result ≡ verdict (first_of (hull_tests s.now) None) }
{
    let p = &s.particulars;
    refuse_if(layout_broken(p.layout), Refusal::Layout)?;
    refuse_if(imo_broken(p.imo), Refusal::ImoNumber)?;
    refuse_if(type_broken(p.layout, p.kind), Refusal::ShipType)?;
    refuse_if(deadweight_broken(p.deadweight), Refusal::Deadweight)?;
    refuse_if(gross_broken(p.kind, p.gross), Refusal::GrossTonnage)?;
    refuse_if(volume_broken(p.kind, p.cargo), Refusal::CargoVolume)
}
