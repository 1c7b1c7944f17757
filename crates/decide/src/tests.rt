// The tests of document 01, each over what it looks at of the junction. Where a test finds several tracks or points, the lowest is named; what ends in
// `_in` finds the first of a list.
ghost use Rattle.std.specs.Prelude.{◌≡◌, ◌<◌, length};
ghost use Rattle.laws.specs.Lists.{All};
ghost use Rattle.laws.specs.Search.{lowest};
ghost use Rattle.plan.specs.Limits.{most_tracks};
ghost use Rattle.plan.specs.Layout.{signal_at};
ghost use Rattle.decide.specs.Lent.{plan, state, normal, reverse};
ghost use Rattle.decide.specs.Along.{RisingTracks, first_of, lower};
ghost use Rattle.events.specs.Decide.{has_train, is_reverse, is_held, turns, held_other, derails, stands, with_train, busy_train, held_point, derailed_point, red_at, way_out, runs_through};

use crate::{Junction, Points};
use layout::{home_of, is_legged, leg_of, way_out};
use lists::has;
use plan::image::{signals, tracks};
use state::HoldSet;
use state::cells::{lie_at, shown_at, train_at};

impl Junction<'_> {
    // Whether a track has a train.
    #[tactic(auto, unfolding(events::specs::Decide::has_train))]
    pub fn has_train(self, track: usize) -> bool
        requires { track < most_tracks }
        ensures { result ≡ has_train (state self.entry).trains track }
    {
        train_at(self.cells, track) != 0
    }

    // Whether a point lies reverse.
    #[tactic(auto, unfolding(events::specs::Decide::is_reverse))]
    fn is_reverse(self, point: usize) -> bool
        requires { point < most_tracks }
        ensures { result ≡ is_reverse (state self.entry).lies point }
    {
        lie_at(self.cells, point) == 1
    }

    // Whether some route holds a point.
    #[tactic(auto, unfolding(events::specs::Decide::is_held))]
    fn is_held(self, point: usize) -> bool
        requires { point < most_tracks }
        ensures { result ≡ is_held (state self.entry).holds point }
    {
        !HoldSet::from(self.holds[point]).is_empty()
    }

    // The first track of a list that has a train, and the train: what is looked at is what is handed back.
    fn busy_in(self, clear: &[u8]) -> Option<(usize, u8)>
        requires { All (λ u. u < most_tracks) clear.now }
        ensures { result ≡ with_train (state self.entry).trains (first_of (has_train (state self.entry).trains) clear.now) }
    {
        for on in clear {
            let track = usize::from(*on);
            let train = train_at(self.cells, track);
            if train != 0 {
                return Some((track, train));
            }
        }
        None
    }

    // 13: the lowest track of a clear list that has a train, and the train that stands there. A clear list rises, so that it is the first.
    pub fn busy_train(self, clear: &[u8]) -> Option<(usize, u8)>
        requires { RisingTracks (length (plan self).tracks) clear.now }
        ensures { result ≡ busy_train (length (plan self.entry).tracks) clear.now (state self.entry).trains }
    {
        self.busy_in(clear)
    }

    // Whether a point lies otherwise than a grant would leave it, for 14 and for 42. Reverse wins.
    fn turns(self, points: Points, point: usize) -> bool
        requires { point < most_tracks }
        ensures { result ≡ turns (normal points.entry) (reverse points.entry) (state self.entry).lies point }
    {
        if has(points.reverse, point) {
            lie_at(self.cells, point) != 1
        } else {
            has(points.normal, point) && lie_at(self.cells, point) != 0
        }
    }

    // Whether some route holds a point, the one that asks or another, and the point lies otherwise than the grant would leave it.
    #[tactic(auto, unfolding(events::specs::Decide::held_other))]
    fn held_other(self, points: Points, point: usize) -> bool
        requires { point < most_tracks }
        ensures { result ≡ held_other (normal points.entry) (reverse points.entry) (state self.entry).lies (state self.entry).holds point }
    {
        self.is_held(point) && self.turns(points, point)
    }

    // The first point of a list that is so. Which lie it gets is asked of both lists.
    fn held_in(self, points: Points, list: &[u8]) -> Option<usize>
        requires { All (λ q. q < most_tracks) list.now }
        ensures { result ≡ first_of (held_other (normal points.entry) (reverse points.entry) (state self.entry).lies (state self.entry).holds) list.now }
    {
        list.iter()
            .map(|point| usize::from(*point))
            .find(|point| self.held_other(points, *point))
    }

    // 14: the lowest listed point that some route holds and that lies otherwise than the grant would leave it.
    pub fn held_point(self, points: Points) -> Option<usize>
        requires { RisingTracks (length (plan self).tracks) (normal points) × RisingTracks (length (plan self).tracks) (reverse points) }
        ensures { result ≡ held_point (length (plan self.entry).tracks) (normal points.entry) (reverse points.entry) (state self.entry).lies (state self.entry).holds }
    {
        lower(
            self.held_in(points, points.normal),
            self.held_in(points, points.reverse),
        )
    }

    // Whether a point has a train and gets another lie in the end.
    #[tactic(auto, unfolding(events::specs::Decide::derails))]
    fn derails(self, points: Points, point: usize) -> bool
        requires { point < most_tracks }
        ensures { result ≡ derails (normal points.entry) (reverse points.entry) (state self.entry).trains (state self.entry).lies point }
    {
        self.has_train(point) && self.turns(points, point)
    }

    // The first point of a list that derails.
    fn derailed_in(self, points: Points, list: &[u8]) -> Option<usize>
        requires { All (λ q. q < most_tracks) list.now }
        ensures { result ≡ first_of (derails (normal points.entry) (reverse points.entry) (state self.entry).trains (state self.entry).lies) list.now }
    {
        list.iter()
            .map(|point| usize::from(*point))
            .find(|point| self.derails(points, *point))
    }

    // 42: the lowest listed point that has a train and gets another lie.
    pub fn derailed_point(self, points: Points) -> Option<usize>
        requires { RisingTracks (length (plan self).tracks) (normal points) × RisingTracks (length (plan self).tracks) (reverse points) }
        ensures { result ≡ derailed_point (length (plan self.entry).tracks) (normal points.entry) (reverse points.entry) (state self.entry).trains (state self.entry).lies }
    {
        lower(
            self.derailed_in(points, points.normal),
            self.derailed_in(points, points.reverse),
        )
    }

    // 17, 18: the track that a train stands on.
    pub fn front_of(self, train: u8) -> Option<usize>
        ensures { result ≡ lowest (length (plan self.entry).tracks) (stands (state self.entry).trains train) }
    {
        (0..tracks(self.image)).find(|track| train_at(self.cells, *track) == train)
    }

    // The signal at a track's end.
    fn signal_at(self, track: usize) -> Option<usize>
        ensures { result ≡ signal_at (plan self.entry) track }
    {
        (0..signals(self.image)).find(|signal| home_of(self.image, *signal) == track)
    }

    // 19: the signal at a track's end, if it is red.
    #[tactic(auto, using(crate::proofs::Within::signal_few), unfolding(events::specs::Decide::red_at, events::specs::Decide::is_red))]
    pub fn red_at(self, track: usize) -> Option<usize>
        ensures { result ≡ red_at (plan self.entry) (state self.entry).signals track }
    {
        self.signal_at(track)
            .filter(|signal| shown_at(self.cells, *signal) == 0)
    }

    // The next track, by the lie if on a facing point.
    #[tactic(auto, unfolding(events::specs::Decide::way_out))]
    pub fn next_track(self, track: usize) -> usize
        requires { track < most_tracks }
        ensures { result ≡ way_out (plan self.entry) (state self.entry).lies track }
    {
        way_out(self.image, track, self.is_reverse(track))
    }

    // 41: the track entered is a trailing point and the track left is not its leg for its present lie.
    #[tactic(auto, unfolding(events::specs::Decide::runs_through))]
    pub fn runs_through(self, from: usize, to: usize) -> bool
        requires { to < most_tracks }
        ensures { result ≡ runs_through (plan self.entry) (state self.entry).lies from to }
    {
        is_legged(self.image, to) && leg_of(self.image, to, self.is_reverse(to)) != from
    }
}

// The lower of what two walks find.
#[tactic(auto, unfolding(crate::specs::Along::lower))]
fn lower(one: Option<usize>, other: Option<usize>) -> Option<usize>
    ensures { result ≡ lower one other }
{
    match (one, other) {
        (Some(x), Some(y)) => Some(x.min(y)),
        _ => one.or(other),
    }
}
