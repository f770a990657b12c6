// Where each field of a record stands in a block of 512 bytes: read, and written run by run, each over its part, then the checks.
// The parts that are written are slices: cut as arrays, each cut would answer an Option that is never None.

#![tactic(auto)]

ghost use Rattle.std.specs.Prelude.{◌≡◌, [], ◌∷◌, ◌+◌, ◌≤◌, length};
ghost use Rattle.fields.specs.Runs.{numbers_at, widths_of, packed};
ghost use Rattle.ship.specs.Record.{no_engine};
ghost use Rattle.layout.specs.Layout.{head, entry, entries, body, encode, numbers_in, uses_at, engine_from, particulars_from, empty_ship, ship_in};

use build_fields::{build_in, nothing_added, write_newer};
use fields::{Sums, check_sums, number_at, put_run};
use ship::{Consumption, Deadweight, Engine, GrossTonnage, Particulars, Range, Ship, Trial};

// The record that stands where there is none.
#[tactic(auto, unfolding(crate::specs::Layout::ship_from, build_fields::specs::Fields::build_from))]
pub fn empty() -> Ship
    ensures { result ≡ empty_ship }
{
    let trial = Trial {
        power: 0,
        deadweight: Deadweight { tonnes: 0 },
    };
    let particulars = Particulars {
        imo: 0,
        kind: 0,
        deadweight: Deadweight { tonnes: 0 },
        gross: GrossTonnage { gt: 0 },
        cargo: 0,
        method: 0,
        trial,
        supply: 0,
        table: 0,
        ice: 0,
        used: 0,
        layout: 0,
        build: nothing_added(),
    };
    Ship {
        particulars,
        speed: Range::default(),
        auxiliary: Consumption::default(),
        engines: [Engine::default(); 4],
    }
}

// The engine of the entry of 20 bytes that starts at `at`.
fn engine_at(block: &[u8], at: usize) -> Engine
    requires { at + 20 ≤ length block.now }
    ensures { result ≡ engine_from (numbers_at block.now at (widths_of (entry no_engine))) }
{
    let mcr = Range {
        low: number_at(block, at, 4),
        high: number_at(block, at + 4, 4),
    };
    let limit = number_at(block, at + 8, 4);
    let sfc = Range {
        low: number_at(block, at + 12, 2),
        high: number_at(block, at + 14, 2),
    };
    let uses = Consumption {
        sfc,
        fuel: number_at(block, at + 16, 1),
        source: number_at(block, at + 17, 1),
    };
    Engine { mcr, limit, uses }
}

fn particulars_in(block: &[u8; 512]) -> Particulars
    ensures { result ≡ particulars_from (numbers_in block.now) }
{
    let trial = Trial {
        power: number_at(block, 28, 4),
        deadweight: Deadweight {
            tonnes: number_at(block, 32, 4),
        },
    };
    Particulars {
        imo: number_at(block, 4, 4),
        kind: number_at(block, 2, 1),
        deadweight: Deadweight {
            tonnes: number_at(block, 8, 4),
        },
        gross: GrossTonnage {
            gt: number_at(block, 12, 4),
        },
        cargo: number_at(block, 16, 4),
        method: number_at(block, 3, 1),
        trial,
        supply: number_at(block, 36, 1),
        table: number_at(block, 40, 4),
        ice: number_at(block, 37, 1),
        used: number_at(block, 38, 1),
        layout: number_at(block, 0, 2),
        build: build_in(block),
    }
}

// The consumption of the auxiliary engines.
fn auxiliary_in(block: &[u8; 512]) -> Consumption
    ensures { result ≡ uses_at (numbers_in block.now) 16 17 18 14 }
{
    let sfc = Range {
        low: number_at(block, 44, 2),
        high: number_at(block, 46, 2),
    };
    Consumption {
        sfc,
        fuel: number_at(block, 48, 1),
        source: number_at(block, 39, 1),
    }
}

// The record that stands in a block.
pub fn ship_in(block: &[u8; 512]) -> Ship
    ensures { result ≡ ship_in block.now }
{
    let particulars = particulars_in(block);
    let speed = Range {
        low: number_at(block, 20, 4),
        high: number_at(block, 24, 4),
    };
    let auxiliary = auxiliary_in(block);
    let engines = std::array::from_fn(|i| engine_at(block, 52 + 20 * i));
    Ship {
        particulars,
        speed,
        auxiliary,
        engines,
    }
}

// Bytes 0 to 51.
fn write_head(part: &mut [u8], s: Ship)
    requires { length part.old ≡ 52 }
    ensures { part.new ≡ packed (head s) }
{
    let p = s.particulars;
    let fields = [
        (2, p.layout),
        (1, p.kind),
        (1, p.method),
        (4, p.imo),
        (4, p.deadweight.tonnes),
        (4, p.gross.gt),
        (4, p.cargo),
        (4, s.speed.low),
        (4, s.speed.high),
        (4, p.trial.power),
        (4, p.trial.deadweight.tonnes),
        (1, p.supply),
        (1, p.ice),
        (1, p.used),
        (1, s.auxiliary.source),
        (4, p.table),
        (2, s.auxiliary.sfc.low),
        (2, s.auxiliary.sfc.high),
        (1, s.auxiliary.fuel),
        (3, 0),
    ];
    put_run(part, &fields);
}

// An engine's entry of 20 bytes.
fn write_entry(part: &mut [u8], e: Engine)
    requires { length part.old ≡ 20 }
    ensures { part.new ≡ packed (entry e) }
{
    let fields = [
        (4, e.mcr.low),
        (4, e.mcr.high),
        (4, e.limit),
        (2, e.uses.sfc.low),
        (2, e.uses.sfc.high),
        (1, e.uses.fuel),
        (1, e.uses.source),
        (2, 0),
    ];
    put_run(part, &fields);
}

// The four entries, bytes 52 to 131. By place: of what `chunks_mut` lends a proof knows the length alone.
fn write_entries(part: &mut [u8], es: [Engine; 4])
    requires { length part.old ≡ 80 }
    ensures { part.new ≡ packed (entries es) }
{
    for (i, engine) in es.iter().enumerate() {
        let at = 20 * i;
        write_entry(&mut part[at..at + 20], *engine);
    }
}

fn write_body(part: &mut [u8], s: Ship)
    requires { length part.old ≡ 508 }
    ensures { part.new ≡ body s }
{
    write_head(&mut part[0..52], s);
    write_entries(&mut part[52..132], s.engines);
    write_newer(&mut part[132..508], s.particulars.build);
}

fn write_checks(part: &mut [u8], sums: Sums)
    requires { length part.old ≡ 4 }
    ensures { part.new ≡ packed ((2, sums.a) ∷ (2, sums.b) ∷ []) }
{
    put_run(part, &[(2, u64::from(sums.a)), (2, u64::from(sums.b))]);
}

// The block of a ship, over a part of 512 bytes.
pub fn write_block(part: &mut [u8], s: Ship)
    requires { length part.old ≡ 512 }
    ensures { part.new ≡ encode s }
{
    write_body(&mut part[0..508], s);
    let sums = check_sums(&part[0..508]);
    write_checks(&mut part[508..512], sums);
}
