// Rules 6 to 11, whose rows are routes.
#![tactic(auto)]

ghost use Rattle.std.specs.Prelude.{◌≡◌, ◌-◌, ◌<◌};
ghost use Rattle.laws.specs.Lists.{all_of, different};
ghost use Rattle.laws.specs.Search.{all_below};
ghost use Rattle.plan.specs.Records.{route_of};
ghost use Rattle.plan.specs.Image.{plan_of};
ghost use Rattle.plan.specs.Routes.{points_of, listed, released, path_length, way_of, track_at};
ghost use Rattle.rules.specs.Rules.{later, wants, listed_out, listed_in, linked_at, path_linked, no_home_at, ends, path_ends, path_clear, facing_listed, trailing_listed, points_listed, points_clear, release_fits, releases_fit};

use layout::{home_of, is_exit, is_forking, is_home, is_legged, leads_to, leg_of, way_out};
use lists::{all_in, different, has, none_in};
use plan::image::{clear_of, normal_of, path_of, releases_of, reverse_of, start_of};
use plan::limits::{IMAGE, RELEASE_SIZE};

// A route's track at a place: its home at 0, its path from 1 on.
#[tactic(auto, unfolding(plan::specs::Routes::track_at, plan::specs::Routes::way_of))]
fn track_at(image: &[u8; IMAGE], route: usize, place: usize) -> usize
    ensures { result ≡ track_at (plan_of image.now) route place }
{
    match place.checked_sub(1) {
        None => home_of(image, start_of(image, route)),
        Some(i) => path_of(image, route)
            .get(i)
            .map_or(0, |track| usize::from(*track)),
    }
}

#[tactic(auto, using(crate::proofs::Ways::path_most), unfolding(rules::specs::Rules::linked_at))]
fn linked_at(image: &[u8; IMAGE], route: usize, i: usize) -> bool
    requires { i < path_length (plan_of image.now) route }
    ensures { result ≡ linked_at (plan_of image.now) route i }
{
    leads_to(
        image,
        track_at(image, route, i),
        track_at(image, route, i + 1),
    )
}

// Whether the home leads to the first path track and each path track to the following one.
fn links(image: &[u8; IMAGE], route: usize) -> bool
    ensures { result ≡ all_below (path_length (plan_of image.now) route) (linked_at (plan_of image.now) route) }
{
    (0..path_of(image, route).len()).all(|i| linked_at(image, route, i))
}

// Whether home and path tracks are all different.
#[tactic(auto, unfolding(laws::specs::Lists::different, plan::specs::Routes::way_of, plan::specs::Routes::track_at))]
fn way_differs(image: &[u8; IMAGE], route: usize) -> bool
    ensures { result ≡ different (way_of (plan_of image.now) route) }
{
    let path = path_of(image, route);
    !has(path, track_at(image, route, 0)) && different(path)
}

#[tactic(auto, unfolding(rules::specs::Rules::path_linked))]
pub fn path_linked(image: &[u8; IMAGE], route: usize) -> bool
    ensures { result ≡ path_linked (plan_of image.now) route }
{
    links(image, route) && way_differs(image, route)
}

// Whether no path track but the last is a home.
fn passes(image: &[u8; IMAGE], route: usize) -> bool
    ensures { result ≡ all_below (path_length (plan_of image.now) route - 1) (no_home_at (plan_of image.now) route) }
{
    match path_of(image, route).split_last() {
        None => true,
        Some((_, passed)) => passed
            .iter()
            .all(|track| !is_home(image, usize::from(*track))),
    }
}

#[tactic(auto, unfolding(rules::specs::Rules::ends))]
fn ends_at(image: &[u8; IMAGE], track: usize) -> bool
    ensures { result ≡ ends (plan_of image.now) track }
{
    is_home(image, track) || is_exit(image, track)
}

#[tactic(auto, unfolding(rules::specs::Rules::path_ends))]
pub fn path_ends(image: &[u8; IMAGE], route: usize) -> bool
    ensures { result ≡ path_ends (plan_of image.now) route }
{
    passes(image, route) && ends_at(image, track_at(image, route, path_of(image, route).len()))
}

#[tactic(auto, unfolding(rules::specs::Rules::path_clear))]
pub fn path_clear(image: &[u8; IMAGE], route: usize) -> bool
    ensures { result ≡ path_clear (plan_of image.now) route }
{
    all_in(path_of(image, route), clear_of(image, route))
}

// The points that a route lists normal (false) or reverse (true).
#[tactic(auto, unfolding(plan::specs::Routes::points_of))]
fn points_of(image: &[u8; IMAGE], route: usize, lie: bool) -> &[u8]
    ensures { result.now ≡ points_of (plan_of image.now) route lie }
{
    if lie {
        reverse_of(image, route)
    } else {
        normal_of(image, route)
    }
}

#[tactic(auto, unfolding(rules::specs::Rules::wants))]
fn wants_lie(image: &[u8; IMAGE], route: usize, point: usize, lie: bool) -> bool
    ensures { result ≡ wants (plan_of image.now) route point lie }
{
    has(points_of(image, route, lie), point)
}

// Whether the route lists the point for a lie by which it leads to the track.
#[tactic(auto, unfolding(rules::specs::Rules::listed_out, rules::specs::Rules::wants_out))]
fn listed_out(image: &[u8; IMAGE], route: usize, point: usize, to: usize) -> bool
    ensures { result ≡ listed_out (plan_of image.now) route point to }
{
    [false, true].iter().any(|lie| wants_lie(image, route, point, *lie)
        && way_out(image, point, *lie) == to)
}

// Whether the route lists the point for a lie by which it is entered from the track.
#[tactic(auto, unfolding(rules::specs::Rules::listed_in, rules::specs::Rules::wants_in))]
fn listed_in(image: &[u8; IMAGE], route: usize, point: usize, from: usize) -> bool
    ensures { result ≡ listed_in (plan_of image.now) route point from }
{
    [false, true].iter().any(|lie| wants_lie(image, route, point, *lie)
        && leg_of(image, point, *lie) == from)
}

#[tactic(auto, using(crate::proofs::Ways::path_most), unfolding(rules::specs::Rules::facing_listed))]
fn facing_listed(image: &[u8; IMAGE], route: usize, i: usize) -> bool
    requires { i < path_length (plan_of image.now) route }
    ensures { result ≡ facing_listed (plan_of image.now) route i }
{
    let point = track_at(image, route, i + 1);
    !is_forking(image, point)
        || i + 1 < path_of(image, route).len()
            && listed_out(image, route, point, track_at(image, route, i + 2))
}

// Whether each facing point on the path is listed by the way out taken.
fn facing_all(image: &[u8; IMAGE], route: usize) -> bool
    ensures { result ≡ all_below (path_length (plan_of image.now) route) (facing_listed (plan_of image.now) route) }
{
    (0..path_of(image, route).len()).all(|i| facing_listed(image, route, i))
}

#[tactic(auto, using(crate::proofs::Ways::path_most), unfolding(rules::specs::Rules::trailing_listed))]
fn trailing_listed(image: &[u8; IMAGE], route: usize, i: usize) -> bool
    requires { i < path_length (plan_of image.now) route }
    ensures { result ≡ trailing_listed (plan_of image.now) route i }
{
    let point = track_at(image, route, i + 1);
    !is_legged(image, point) || listed_in(image, route, point, track_at(image, route, i))
}

// Whether each trailing point on the path is listed by the leg it is entered from.
fn trailing_all(image: &[u8; IMAGE], route: usize) -> bool
    ensures { result ≡ all_below (path_length (plan_of image.now) route) (trailing_listed (plan_of image.now) route) }
{
    (0..path_of(image, route).len()).all(|i| trailing_listed(image, route, i))
}

#[tactic(auto, unfolding(rules::specs::Rules::points_listed, rules::specs::Rules::wants))]
pub fn points_listed(image: &[u8; IMAGE], route: usize) -> bool
    ensures { result ≡ points_listed (plan_of image.now) route }
{
    facing_all(image, route)
        && trailing_all(image, route)
        && none_in(
            points_of(image, route, false),
            points_of(image, route, true),
        )
}

#[tactic(auto, unfolding(rules::specs::Rules::points_clear))]
pub fn points_clear(image: &[u8; IMAGE], route: usize) -> bool
    ensures { result ≡ points_clear (plan_of image.now) route }
{
    let clear = clear_of(image, route);
    all_in(points_of(image, route, false), clear) && all_in(points_of(image, route, true), clear)
}

#[tactic(auto, unfolding(plan::specs::Routes::listed))]
fn is_listed(image: &[u8; IMAGE], route: usize, point: usize) -> bool
    ensures { result ≡ listed (route_of (plan_of image.now) route).normal (route_of (plan_of image.now) route).reverse point }
{
    has(normal_of(image, route), point) || has(reverse_of(image, route), point)
}

// Whether a track is on a path, and later than a point where the point is on it.
fn later(track: usize, point: usize, path: &[u8]) -> bool
    ensures { result ≡ later track point path.now }
{
    match path.iter().position(|on| usize::from(*on) == track) {
        None => false,
        Some(i) => !has(&path[i..], point),
    }
}

#[tactic(auto, unfolding(rules::specs::Rules::release_fits))]
fn release_fits(image: &[u8; IMAGE], route: usize, track: usize, point: usize) -> bool
    ensures { result ≡ release_fits (plan_of image.now) route track point }
{
    is_listed(image, route, point) && later(track, point, path_of(image, route))
}

// Whether each release is of a listed point, on a later path track.
fn releases_all(image: &[u8; IMAGE], route: usize) -> bool
    ensures { result ≡ all_of (λ q. release_fits (plan_of image.now) route q.track q.point) (route_of (plan_of image.now) route).releases }
{
    let (releases, _) = releases_of(image, route).as_chunks::<RELEASE_SIZE>();
    releases.iter().all(|[track, point]| {
        release_fits(image, route, usize::from(*track), usize::from(*point))
    })
}

// Whether the route gives the point back.
fn is_released(image: &[u8; IMAGE], route: usize, point: usize) -> bool
    ensures { result ≡ released (plan_of image.now) route point }
{
    let (releases, _) = releases_of(image, route).as_chunks::<RELEASE_SIZE>();
    releases.iter().any(|[_, back]| usize::from(*back) == point)
}

// Whether each point that the route lists for a lie is given back.
fn released_all(image: &[u8; IMAGE], route: usize, lie: bool) -> bool
    ensures { result ≡ all_of (released (plan_of image.now) route) (points_of (plan_of image.now) route lie) }
{
    points_of(image, route, lie)
        .iter()
        .all(|point| is_released(image, route, usize::from(*point)))
}

#[tactic(auto, unfolding(rules::specs::Rules::releases_fit))]
pub fn releases_fit(image: &[u8; IMAGE], route: usize) -> bool
    ensures { result ≡ releases_fit (plan_of image.now) route }
{
    releases_all(image, route)
        && released_all(image, route, false)
        && released_all(image, route, true)
}
