// Rule 18, of the lightweight, the hull and the cranes; and whether anything that layout 2 adds is there, which rule 16 asks of layout 1.
// A type, a method and the like are tested as numbers: each contract says of any numbers of a record, also of those that no enum has, whether a
// rule of ship/specs/Rules.antt is broken.
// A limit is two comparisons, under the least or over the most, as the document's table reads: `!(lo..=hi).contains(&n)` says a refusal by a negation.
#![tactic(auto)]

ghost use Rattle.std.specs.Prelude.{◌≡◌, get_or};
ghost use Rattle.std.specs.List.{list_any, enumerate_from};
ghost use Rattle.ship.specs.Record.{no_crane};
ghost use Rattle.ship.specs.Rules.{any_below, lifting, shaped, built, newer_refused, lightweight_refused, crane_refused, cranes_refused};
ghost use Rattle.ship.specs.Rules.{size_refused, hull_refused, build_refused};

use ship::{Build, Crane, Hull};

// Whether an entry has a load or a reach, used or not.
fn any_lifting(gear: &[Crane]) -> bool
    ensures { result ≡ list_any lifting gear.now }
{
    gear.iter().any(|c| *c != Crane::default())
}

// By its parts: tried as `*b != Build::default()`; the proof of that comparison, of a struct with an array of structs, didn't close.
#[tactic(auto, using(ship::proofs::Tests::any_crane), unfolding(ship::specs::Rules::built))]
fn is_built(b: &Build) -> bool
    ensures { result ≡ built b.now }
{
    (b.edition != 0)
        | (b.lightweight != 0)
        | (b.hull != Hull::default())
        | (b.cranes != 0)
        | any_lifting(&b.gear)
}

// Rule 16, in layout 1.
#[tactic(auto, unfolding(ship::specs::Rules::built))]
pub fn newer_broken(layout: u64, b: &Build) -> bool
    ensures { result ≡ newer_refused layout b.now }
{
    (layout == 1) & is_built(b)
}

fn lightweight_broken(kind: u64, n: u64) -> bool
    ensures { result ≡ lightweight_refused kind n }
{
    (n != 0) & (((kind != 1) & (kind != 3)) | ((n < 100) | (200000 < n)))
}

// Of crane entry i, where so many are used.
fn crane_broken(used: u64, i: u64, c: Crane) -> bool
    ensures { result ≡ crane_refused used i c }
{
    (i < used) & (((c.swl < 1) | (10000 < c.swl)) | ((c.reach < 1) | (10000 < c.reach)))
        | (used <= i) & (c != Crane::default())
}

fn any_broken(used: u64, gear: &[Crane]) -> bool
    ensures { result ≡ list_any (λ entry. crane_refused used entry.0 entry.1) (enumerate_from 0 gear.now) }
{
    gear.iter()
        .enumerate()
        .any(|(i, c)| crane_broken(used, i as u64, *c))
}

fn cranes_broken(kind: u64, used: u64, gear: &[Crane; 8]) -> bool
    ensures { result ≡ cranes_refused kind used gear.now }
{
    ((8 < used) | ((kind != 8) & (used != 0))) | any_broken(used, gear)
}

// A general cargo ship's, each by itself.
fn size_broken(h: Hull) -> bool
    ensures { result ≡ size_refused h }
{
    ((h.length < 1000) | (50000 < h.length))
        | ((h.breadth < 200) | (10000 < h.breadth))
        | ((h.draught < 50) | (4000 < h.draught))
        | ((h.volume < 100) | (1000000 < h.volume))
}

// The product of the three is taken where each is within its limits, so that it fits.
fn hull_broken(kind: u64, h: Hull) -> bool
    ensures { result ≡ hull_refused kind h }
{
    if kind != 8 {
        return h != Hull::default();
    }
    if size_broken(h) {
        return true;
    }
    h.length * h.breadth * h.draught < h.volume * 1000000
}

// Rule 18.
#[tactic(auto, unfolding(ship::specs::Rules::build_refused))]
pub fn build_broken(kind: u64, b: &Build) -> bool
    ensures { result ≡ build_refused kind b.now }
{
    lightweight_broken(kind, b.lightweight)
        | cranes_broken(kind, b.cranes, &b.gear)
        | hull_broken(kind, b.hull)
}
