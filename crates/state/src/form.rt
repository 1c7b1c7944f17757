// Whether the state that the two lent arrays hold is well formed.
ghost use Rattle.std.specs.Prelude.{◌≡◌, ◌&&◌, ◌<◌, length};
ghost use Rattle.laws.specs.Lists.{all_of, empty_from};
ghost use Rattle.plan.specs.Limits.{most_tracks};
ghost use Rattle.plan.specs.Image.{plan_of};
ghost use Rattle.state.specs.Holds.{within};
ghost use Rattle.state.specs.State.{again, once, point_or, points_only, green_names, greens_name, well_formed};
ghost use Rattle.state.specs.Cells.{trains_in, lies_in, signals_in, state_in};

use crate::HoldSet;
use crate::cells::{CELLS, lie_at, lies_of, shown_at, signals_of, trains_of};
use lists::{all_below, has, only_from};
use plan::image::{is_point, routes, signals as signal_count, start_of, tracks};
use plan::limits::{IMAGE, TRACKS};

// Whether the train on a track, if there is one, stands on a later one too.
#[tactic(auto, unfolding(crate::specs::State::again))]
fn again(trains: &[u8], track: usize) -> bool
    requires { track < length trains.now }
    ensures { result ≡ again trains.now track }
{
    let train = trains[track];
    train != 0 && has(&trains[track + 1..], usize::from(train))
}

// No train appears twice.
fn once(trains: &[u8]) -> bool
    ensures { result ≡ once trains.now }
{
    (0..trains.len()).all(|track| !again(trains, track))
}

// No set has a route from a number on.
fn all_within(routes: usize, holds: &[u64]) -> bool
    ensures { result ≡ all_of (within routes) holds.now }
{
    holds.iter().all(|held| HoldSet::from(*held).within(routes))
}

// Nothing stands beyond the plan's counts.
#[tactic(auto, unfolding(laws::specs::Lists::empty_from))]
fn empty_beyond(image: &[u8; IMAGE], cells: &[u8; CELLS], holds: &[u64; TRACKS]) -> bool
    ensures { result ≡ (empty_from (length (plan_of image.now).tracks) (trains_in cells.now) && empty_from (length (plan_of image.now).tracks) (lies_in cells.now) && empty_from (length (plan_of image.now).tracks) holds.now && empty_from (length (plan_of image.now).signals) (signals_in cells.now)) }
{
    let count = tracks(image);
    only_from(count, trains_of(cells), 0)
        && only_from(count, lies_of(cells), 0)
        && only_from(count, holds, 0)
        && only_from(signal_count(image), signals_of(cells), 0)
}

// Whether a track is a point, or else neither reverse nor held.
#[tactic(auto, unfolding(crate::specs::State::point_or))]
fn point_or(image: &[u8; IMAGE], cells: &[u8; CELLS], holds: &[u64; TRACKS], track: usize) -> bool
    requires { track < most_tracks }
    ensures { result ≡ point_or (plan_of image.now) (lies_in cells.now) holds.now track }
{
    let unused = lie_at(cells, track) == 0 && HoldSet::from(holds[track]).is_empty();
    unused || is_point(image, track)
}

// Only points are held or reverse.
fn points_only(image: &[u8; IMAGE], cells: &[u8; CELLS], holds: &[u64; TRACKS]) -> bool
    ensures { result ≡ points_only (plan_of image.now) (lies_in cells.now) holds.now }
{
    (0..tracks(image)).all(|track| point_or(image, cells, holds, track))
}

// Whether what a signal shows is red, or green for a route that starts there.
#[tactic(auto, unfolding(crate::specs::State::green_names))]
fn green_names(image: &[u8; IMAGE], signal: usize, shown: usize) -> bool
    ensures { result ≡ green_names (plan_of image.now) signal shown }
{
    match shown.checked_sub(1) {
        None => true,
        Some(route) => route < routes(image) && start_of(image, route) == signal,
    }
}

// Every green names a route that starts at its signal.
fn greens_name(image: &[u8; IMAGE], cells: &[u8; CELLS]) -> bool
    ensures { result ≡ greens_name (plan_of image.now) (signals_in cells.now) }
{
    (0..signal_count(image)).all(|signal| {
        let shown = usize::from(shown_at(cells, signal));
        green_names(image, signal, shown)
    })
}

// Whether any state whatever is well formed.
#[tactic(auto, unfolding(crate::specs::State::well_formed, crate::specs::State::lies_known))]
pub fn well_formed(image: &[u8; IMAGE], cells: &[u8; CELLS], holds: &[u64; TRACKS]) -> bool
    ensures { result ≡ well_formed (plan_of image.now) (state_in cells.now holds.now) }
{
    once(trains_of(cells))
        && empty_beyond(image, cells, holds)
        && all_within(routes(image), holds)
        && points_only(image, cells, holds)
        && greens_name(image, cells)
        && all_below(lies_of(cells), 2)
}
