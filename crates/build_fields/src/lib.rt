// Where what layout 2 adds stands in a block, bytes 132 to 507: read, and written part by part.

#![tactic(auto)]

ghost use Rattle.std.specs.Prelude.{◌≡◌, ◌++◌, ◌+◌, ◌≤◌, length};
ghost use Rattle.fields.specs.Runs.{numbers_at, widths_of, packed};
ghost use Rattle.ship.specs.Record.{no_crane, no_build};
ghost use Rattle.build_fields.specs.Fields.{front, crane, cranes, sizes, rest, added, newer, crane_from, gear_from, build_from};

use fields::{all_zero, number_at, put_run};
use ship::{Build, Crane, Hull};

// Nothing of what layout 2 adds.
pub fn nothing_added() -> Build
    ensures { result ≡ no_build }
{
    Build {
        lightweight: 0,
        hull: Hull::default(),
        cranes: 0,
        gear: [Crane::default(); 8],
        edition: 0,
    }
}

// The crane of the entry of 4 bytes that starts at `at`.
fn crane_at(block: &[u8], at: usize) -> Crane
    requires { at + 4 ≤ length block.now }
    ensures { result ≡ crane_from (numbers_at block.now at (widths_of (crane no_crane))) }
{
    Crane {
        swl: number_at(block, at, 2),
        reach: number_at(block, at + 2, 2),
    }
}

fn gear_in(block: &[u8; 512]) -> [Crane; 8]
    ensures { result ≡ gear_from (numbers_at block.now 144 (widths_of (cranes no_build.gear))) }
{
    std::array::from_fn(|i| crane_at(block, 144 + 4 * i))
}

// What layout 2 adds. Most blocks have none of it, and one look at the bytes tells.
pub fn build_in(block: &[u8; 512]) -> Build
    ensures { result ≡ build_from (numbers_at block.now 132 (widths_of (added no_build))) }
{
    if all_zero(&block[132..188]) {
        return nothing_added();
    }
    let gear = gear_in(block);
    let hull = Hull {
        volume: number_at(block, 136, 4),
        length: number_at(block, 176, 4),
        breadth: number_at(block, 180, 4),
        draught: number_at(block, 184, 4),
    };
    Build {
        lightweight: number_at(block, 132, 4),
        hull,
        cranes: number_at(block, 140, 1),
        gear,
        edition: number_at(block, 141, 1),
    }
}

// Bytes 132 to 143.
fn write_front(part: &mut [u8], b: Build)
    requires { length part.old ≡ 12 }
    ensures { part.new ≡ packed (front b) }
{
    let fields = [
        (4, b.lightweight),
        (4, b.hull.volume),
        (1, b.cranes),
        (1, b.edition),
        (2, 0),
    ];
    put_run(part, &fields);
}

// The crane entries, each of 4 bytes. By place: of what `chunks_mut` lends a proof knows the length alone.
fn write_gear(part: &mut [u8], gear: [Crane; 8])
    requires { length part.old ≡ 32 }
    ensures { part.new ≡ packed (cranes gear) }
{
    for (i, crane) in gear.iter().enumerate() {
        let at = 4 * i;
        put_run(&mut part[at..at + 4], &[(2, crane.swl), (2, crane.reach)]);
    }
}

// Bytes 176 to 187, and zeros behind.
fn write_sizes(part: &mut [u8], h: Hull)
    requires { length part.old ≡ 332 }
    ensures { part.new ≡ packed (sizes h ++ rest) }
{
    let fields = [(4, h.length), (4, h.breadth), (4, h.draught), (320, 0)];
    put_run(part, &fields);
}

// Over a part of 376 bytes, which the block's writer lends. (Parts are slices: cut as arrays, each cut would answer an Option that is never None.)
pub fn write_newer(part: &mut [u8], b: Build)
    requires { length part.old ≡ 376 }
    ensures { part.new ≡ packed (newer b) }
{
    write_front(&mut part[0..12], b);
    write_gear(&mut part[12..44], b.gear);
    write_sizes(&mut part[44..376], b.hull);
}
