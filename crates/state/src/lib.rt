// The state: trains, lies, holds and signals.
#![tactic(auto)]

pub mod cells;
pub mod form;

ghost use Rattle.std.specs.Prelude.{◌≡◌};
ghost use Rattle.laws.specs.Sets.{member, excluding};
ghost use Rattle.state.specs.Holds.{adding, empty, within};

use plan::limits::{SIGNALS, TRACKS};

// For each track a train number, 0 where there is none; for each point a lie, 0 normal and 1 reverse, and the routes that hold it; for each
// signal 0 where it is red, and the route's number plus one where it is green for a route.
#[derive(Drop)]
pub struct State {
    pub trains: [u8; TRACKS],
    pub lies: [u8; TRACKS],
    pub holds: [u64; TRACKS],
    pub signals: [u8; SIGNALS],
}

// The routes that hold a point, each a bit.
#[derive(Clone, Copy)]
pub struct HoldSet {
    pub routes: u64,
}

// How many routes a set has room for.
const ROOM: usize = 64;

// The holds of a state are such numbers, each taken as a set.
impl From<u64> for HoldSet {
    ghost from_gives = { λ routes set. set.routes ≡ routes };

    fn from(routes: u64) -> HoldSet {
        HoldSet { routes }
    }
}

impl HoldSet {
    pub fn has(self, route: usize) -> bool
        ensures { result ≡ member self.routes route }
    {
        route < ROOM && (self.routes >> route) % 2 == 1
    }

    // A route that there is no room for is left out.
    pub fn with(self, route: usize) -> HoldSet
        ensures { result.routes ≡ adding self.routes route }
    {
        if route < ROOM && !self.has(route) {
            return HoldSet::from(self.routes + (1 << route));
        }
        self
    }

    pub fn without(self, route: usize) -> HoldSet
        ensures { result.routes ≡ excluding self.routes route }
    {
        if self.has(route) {
            return HoldSet::from(self.routes - (1 << route));
        }
        self
    }

    #[tactic(auto, unfolding(crate::specs::Holds::empty))]
    pub fn is_empty(self) -> bool
        ensures { result ≡ empty self.routes }
    {
        self.routes == 0
    }

    // Whether no route from a number on is in the set.
    pub fn within(self, routes: usize) -> bool
        ensures { result ≡ within routes self.routes }
    {
        ROOM <= routes || self.routes >> routes == 0
    }
}
