// A ship's record, by value. Numbers are as its block has them; what they may be is said by the rules. Type, fuel, source, method, ice class,
// edition, layout and supply stay numbers, and no enums, and limit 0 no Option, since every record gets its answer: `refusal_of`
// (specs/Rules.antt) refuses numbers that mean nothing.
#![tactic(auto)]

pub mod accepted;
pub mod kinds;
pub mod power;

ghost use Rattle.std.specs.Prelude.{◌≡◌, Some, None, take, drop};
ghost use Rattle.formula.specs.Words.{if};
ghost use Rattle.ship.specs.Refusals.{number_of, verdict};

// Deadweight in tonnes and gross tonnage are types of their own, so that neither is accepted for the other.
#[derive(Clone, Copy)]
pub struct Deadweight {
    pub tonnes: u64,
}

#[derive(Clone, Copy)]
pub struct GrossTonnage {
    pub gt: u64,
}

// Both ends count.
#[derive(Clone, Copy, Default, PartialEq, Eq)]
pub struct Range {
    pub low: u64,
    pub high: u64,
}

// SFC in 1/10 g/kWh. Source 1 is a test report, 2 the maker or a verifier, 3 neither.
#[derive(Clone, Copy, Default, PartialEq, Eq)]
pub struct Consumption {
    pub sfc: Range,
    pub fuel: u64,
    pub source: u64,
}

// MCR and limit in kW; limit 0 is no limiter.
#[derive(Clone, Copy, Default, PartialEq, Eq)]
pub struct Engine {
    pub mcr: Range,
    pub limit: u64,
    pub uses: Consumption,
}

// The trial of speed methods 2 and 3; power in kW.
#[derive(Clone, Copy)]
pub struct Trial {
    pub power: u64,
    pub deadweight: Deadweight,
}

// Displacement volume in m³; length, breadth and draught in 1/100 m.
#[derive(Clone, Copy, Default, PartialEq, Eq)]
pub struct Hull {
    pub volume: u64,
    pub length: u64,
    pub breadth: u64,
    pub draught: u64,
}

// Safe working load in tonnes and reach in metres, in tenths.
#[derive(Clone, Copy, Default, PartialEq, Eq)]
pub struct Crane {
    pub swl: u64,
    pub reach: u64,
}

// What layout 2 adds: lightweight in tonnes; the first `cranes` crane entries count; edition 0 is EEXI, 1 EEDI, 2 EEDI as amended.
#[derive(Clone, Copy)]
pub struct Build {
    pub lightweight: u64,
    pub hull: Hull,
    pub cranes: u64,
    pub gear: [Crane; 8],
    pub edition: u64,
}

// What is never a range. Volume in m³; auxiliary power 1 is by the rule, 2 the table's kW; the first `used` engine entries count.
#[derive(Clone, Copy)]
pub struct Particulars {
    pub imo: u64,
    pub kind: u64,
    pub deadweight: Deadweight,
    pub gross: GrossTonnage,
    pub cargo: u64,
    pub method: u64,
    pub trial: Trial,
    pub supply: u64,
    pub table: u64,
    pub ice: u64,
    pub used: u64,
    pub layout: u64,
    pub build: Build,
}

// Speed in 1/100 knot. Four engine entries stand in every record, used or not.
#[derive(Clone, Copy)]
pub struct Ship {
    pub particulars: Particulars,
    pub speed: Range,
    pub auxiliary: Consumption,
    pub engines: [Engine; 4],
}

// The engine entries that are used, which stand first, and the others.
// (Number and entries stay two parameters: rules 9, 10, 14, 16 and 19 are defined over both, `any_used`, `any_unused`.)
pub fn in_use(used: u64, engines: &[Engine; 4]) -> &[Engine]
    ensures { result.now ≡ take used engines.now }
{
    &engines[..(used as usize).min(4)]
}

pub fn unused(used: u64, engines: &[Engine; 4]) -> &[Engine]
    ensures { result.now ≡ drop used engines.now }
{
    &engines[(used as usize).min(4)..]
}

// The rule that a block, a record or a write breaks, by the document's number; what breaks none has no refusal.
#[derive(Clone, Copy, Debug, PartialEq, Eq)]
pub enum Refusal {
    Length = 1,
    Check = 2,
    Layout = 3,
    ImoNumber = 4,
    ShipType = 5,
    Deadweight = 6,
    GrossTonnage = 7,
    CargoVolume = 8,
    Engines = 9,
    Consumption = 10,
    AuxiliaryPower = 11,
    IceClass = 12,
    Speed = 13,
    Ranges = 14,
    Trial = 15,
    Unused = 16,
    NoBlock = 17,
    Build = 18,
    Edition = 19,
}

// The document's number of a refusal. (By this name, and no `From`: `ship` is among what a customer calls, docs/PROMISES.md.)
pub fn number(refusal: Refusal) -> u8
    ensures { result ≡ number_of refusal }
{
    refusal as u8
}

// The refusal, where its rule is broken.
pub fn refuse_if(broken: bool, refusal: Refusal) -> Result<(), Refusal>
    ensures { result ≡ verdict (if broken (Some refusal) None) }
{
    if broken { Err(refusal) } else { Ok(()) }
}
