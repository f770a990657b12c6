// Types, fuels, ice classes, editions, speed methods and auxiliaries by name. A record has them as numbers, and may have any number, since every
// record gets an answer; what lies behind the rules has these.
ghost use Rattle.std.specs.Prelude.{◌≡◌};
ghost use Rattle.ship.specs.Figures.{Listed, kind_of, last_ice, ice_of, last_edition, edition_of, fuel_of, uses_of, Fuelled};
ghost use Rattle.ship.specs.Kinds.{TypeBy, FuelBy, IceBy, EditionBy, uses_by};

use crate::{Consumption, Range, Trial};

#[derive(Clone, Copy, Debug, PartialEq, Eq)]
pub enum ShipType {
    Bulk,
    Gas,
    Tanker,
    Container,
    Refrigerated,
    Combination,
    Vehicle,
    General,
}

#[derive(Clone, Copy, Debug, PartialEq, Eq)]
pub enum Fuel {
    Diesel,
    Light,
    Heavy,
    Propane,
    Butane,
    Lng,
    Methanol,
    Ethanol,
}

// As far as the index tells Finnish-Swedish ice classes apart.
#[derive(Clone, Copy, Debug, PartialEq, Eq)]
pub enum IceClass {
    NoIceClass,
    SuperOrIA,
    IBOrIC,
}

#[derive(Clone, Copy, Debug, PartialEq, Eq)]
pub enum Edition {
    Eexi,
    EediFirst,
    EediAmended,
}

// A number that stands for nothing. (Each `try_from` is a `match`: no derive of the library makes a TryFrom, and one of the repository's own is refused.)
#[derive(Clone, Copy, Debug, PartialEq, Eq)]
pub struct Unlisted(pub u64);

impl TryFrom<u64> for ShipType {
    type Error = Unlisted;

    ghost try_from_gives = { TypeBy };

    fn try_from(number: u64) -> Result<Self, Unlisted> {
        match number {
            1 => Ok(ShipType::Bulk),
            2 => Ok(ShipType::Gas),
            3 => Ok(ShipType::Tanker),
            4 => Ok(ShipType::Container),
            5 => Ok(ShipType::Refrigerated),
            6 => Ok(ShipType::Combination),
            7 => Ok(ShipType::Vehicle),
            8 => Ok(ShipType::General),
            _ => Err(Unlisted(number)),
        }
    }
}

impl TryFrom<u64> for Fuel {
    type Error = Unlisted;

    ghost try_from_gives = { FuelBy };

    fn try_from(number: u64) -> Result<Self, Unlisted> {
        match number {
            1 => Ok(Fuel::Diesel),
            2 => Ok(Fuel::Light),
            3 => Ok(Fuel::Heavy),
            4 => Ok(Fuel::Propane),
            5 => Ok(Fuel::Butane),
            6 => Ok(Fuel::Lng),
            7 => Ok(Fuel::Methanol),
            8 => Ok(Fuel::Ethanol),
            _ => Err(Unlisted(number)),
        }
    }
}

impl TryFrom<u64> for IceClass {
    type Error = Unlisted;

    ghost try_from_gives = { IceBy };

    fn try_from(number: u64) -> Result<Self, Unlisted> {
        match number {
            0 => Ok(IceClass::NoIceClass),
            1 => Ok(IceClass::SuperOrIA),
            2 => Ok(IceClass::IBOrIC),
            _ => Err(Unlisted(number)),
        }
    }
}

impl TryFrom<u64> for Edition {
    type Error = Unlisted;

    ghost try_from_gives = { EditionBy };

    fn try_from(number: u64) -> Result<Self, Unlisted> {
        match number {
            0 => Ok(Edition::Eexi),
            1 => Ok(Edition::EediFirst),
            2 => Ok(Edition::EediAmended),
            _ => Err(Unlisted(number)),
        }
    }
}

// A consumption with its fuel, or neither. (No Option, here and in `Auxiliary`: both cases are answers of the record, and have `exact`'s names.)
#[derive(Clone, Copy)]
pub enum Uses {
    Recorded(Range, Fuel),
    Neither,
}

// By its name, a consumption of which rule 10 lists the fuel. (No method of the record, since no contract of the record asks anything.)
pub fn uses_in(c: &Consumption) -> Uses
    requires { Fuelled c.now }
    ensures { uses_by result ≡ uses_of c.now }
{
    if c.source == 3 {
        return Uses::Neither;
    }
    Uses::Recorded(c.sfc, Fuel::try_from(c.fuel).unwrap())
}

// P_AE by the rule, or the power table's kW.
#[derive(Clone, Copy)]
pub enum Auxiliary {
    Rule,
    Table(u64),
}

// How V_ref is found; a trial has its power in kW, and at design draught its deadweight.
#[derive(Clone, Copy)]
pub enum Method {
    Declared,
    Trial(u64),
    DesignTrial(Trial),
    Statistical,
}
