// A record that rules 3 to 19 leave, with its figures by name. It goes by reference to all that calculates, and who has one need show nothing more.
ghost use Rattle.std.specs.Prelude.{◌≡◌, take, ℕ, None};
ghost use Rattle.ship.specs.Record.{Entries};
ghost use Rattle.ship.specs.Rules.{refusal_of};
ghost use Rattle.ship.specs.Figures.{kind_of, ice_of, edition_of, uses_of, auxiliary_of, method_of};
ghost use Rattle.ship.specs.Kinds.{type_of, class_of, under, uses_by, auxiliary_by, method_by};

use crate::kinds::{self, Auxiliary, Edition, IceClass, Method, ShipType, Uses};
use crate::{Crane, Engine, Ship};

#[derive(Clone, Copy)]
pub struct Accepted {
    pub ship: Ship,
    pub ghost entries: { Entries ship },
    pub ghost accepted: { refusal_of ship ≡ None },
}

impl Accepted {
    // What rules::check or block::read has passed.
    pub fn new(ship: Ship) -> Self
        requires { refusal_of ship ≡ None }
        ensures { result.ship ≡ ship }
    {
        Accepted { ship }
    }

    pub fn kind(&self) -> ShipType
        ensures { type_of result ≡ kind_of self.now.ship.particulars.kind }
    {
        ShipType::try_from(self.ship.particulars.kind).unwrap()
    }

    pub fn ice(&self) -> IceClass
        ensures { class_of result ≡ ice_of self.now.ship.particulars.ice }
    {
        IceClass::try_from(self.ship.particulars.ice).unwrap()
    }

    pub fn edition(&self) -> Edition
        ensures { under result ≡ edition_of self.now.ship.particulars.build.edition }
    {
        Edition::try_from(self.ship.particulars.build.edition).unwrap()
    }

    // Of the auxiliaries.
    pub fn uses(&self) -> Uses
        ensures { uses_by result ≡ uses_of self.now.ship.auxiliary }
    {
        kinds::uses_in(&self.ship.auxiliary)
    }

    pub fn auxiliary(&self) -> Auxiliary
        ensures { auxiliary_by result ≡ auxiliary_of self.now.ship.particulars.supply self.now.ship.particulars.table }
    {
        let p = &self.ship.particulars;
        if p.supply == 2 {
            Auxiliary::Table(p.table)
        } else {
            Auxiliary::Rule
        }
    }

    pub fn method(&self) -> Method
        ensures { (v : ℕ) → method_by result v ≡ method_of self.now.ship.particulars.method v self.now.ship.particulars.trial }
    {
        let p = &self.ship.particulars;
        match p.method {
            1 => Method::Declared,
            2 => Method::Trial(p.trial.power),
            3 => Method::DesignTrial(p.trial),
            4 => Method::Statistical,
            _ => unreachable!(),
        }
    }

    // The main engines, without the entries that are not used.
    pub fn engines(&self) -> &[Engine]
        ensures { result.now ≡ take self.now.ship.particulars.used self.now.ship.engines }
    {
        &self.ship.engines[..self.ship.particulars.used as usize]
    }

    // The cranes, without the entries that are not used.
    pub fn cranes(&self) -> &[Crane]
        ensures { result.now ≡ take self.now.ship.particulars.build.cranes self.now.ship.particulars.build.gear }
    {
        let build = &self.ship.particulars.build;
        &build.gear[..build.cranes as usize]
    }
}
