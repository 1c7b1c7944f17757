// What the plan in memory shows, of any image whatever: the rooms above read a plan through these alone and know nothing of its layout.
#![tactic(auto, using(crate::proofs::View::shown), unfolding(crate::specs::Image::count_in, crate::specs::Image::list_in, crate::specs::Image::track_in, crate::specs::Image::route_in, crate::specs::Image::entry_in))]

ghost use Rattle.std.specs.Prelude.{◌≡◌, ◌+◌, ◌*◌, ◌<◌, ◌≤◌, length};
ghost use Rattle.plan.specs.Limits.{image_size, release_size, route_size};
ghost use Rattle.plan.specs.Kinds.{is_point};
ghost use Rattle.plan.specs.Records.{track_of, route_of, entry_of};
ghost use Rattle.plan.specs.File.{track_file, release_file};
ghost use Rattle.plan.specs.Image.{count_in, list_in, releases_in, plan_of, route_list};
ghost use Rattle.laws.specs.Lists.{joined};

use crate::Track;
use crate::kinds::no_track;
use crate::limits::{
    CLEAR, CLEAR_AT, ENTRIES, ENTRIES_AT, ENTRY_CLEAR_AT, ENTRY_SIZE, IMAGE, NORMAL_AT, PATH,
    PATH_AT, POINTS, RELEASE_SIZE, RELEASES, RELEASES_AT, REVERSE_AT, ROUTE_SIZE, ROUTES,
    ROUTES_AT, SIGNALS, SIGNALS_AT, TRACK_SIZE, TRACKS, TRACKS_AT,
};

// A count, or its limit where it is beyond.
pub fn count_at(image: &[u8; IMAGE], at: usize, most: usize) -> usize
    requires { at < image_size }
    ensures { result ≡ count_in image.now at most }
{
    most.min(usize::from(image[at]))
}

// A list after its count.
pub fn list_at(image: &[u8; IMAGE], at: usize, most: usize) -> &[u8]
    requires { at + 1 + most ≤ image_size }
    ensures { result.now ≡ list_in image.now at most }
{
    let start = at + 1;
    &image[start..start + count_at(image, at, most)]
}

// Pairs after their count.
fn pairs_at(image: &[u8; IMAGE], at: usize, most: usize) -> &[u8]
    requires { at + 1 + release_size * most ≤ image_size }
    ensures { result.now ≡ joined release_file (releases_in image.now at most) }
{
    let start = at + 1;
    &image[start..start + RELEASE_SIZE * count_at(image, at, most)]
}

// A track, or an exit where there is none of that number.
pub fn track_of(image: &[u8; IMAGE], track: usize) -> Track
    ensures { result ≡ track_of (plan_of image.now) track }
{
    if tracks(image) <= track {
        return no_track();
    }
    let at = TRACKS_AT + 1 + TRACK_SIZE * track;
    Track {
        kind: image[at],
        first: image[at + 1],
        second: image[at + 2],
        third: image[at + 3],
    }
}

// The rows of all tracks, as the file has them.
pub fn track_rows(image: &[u8; IMAGE]) -> &[u8]
    ensures { result.now ≡ joined track_file (plan_of image.now).tracks }
{
    let start = TRACKS_AT + 1;
    &image[start..start + TRACK_SIZE * tracks(image)]
}

// How many tracks, signals, routes and entries the plan has.
pub fn tracks(image: &[u8; IMAGE]) -> usize
    ensures { result ≡ length (plan_of image.now).tracks }
{
    count_at(image, TRACKS_AT, TRACKS)
}

pub fn signals(image: &[u8; IMAGE]) -> usize
    ensures { result ≡ length (plan_of image.now).signals }
{
    homes(image).len()
}

pub fn routes(image: &[u8; IMAGE]) -> usize
    ensures { result ≡ length (plan_of image.now).routes }
{
    count_at(image, ROUTES_AT, ROUTES)
}

pub fn entries(image: &[u8; IMAGE]) -> usize
    ensures { result ≡ length (plan_of image.now).entries }
{
    count_at(image, ENTRIES_AT, ENTRIES)
}

// The signals' homes.
pub fn homes(image: &[u8; IMAGE]) -> &[u8]
    ensures { result.now ≡ (plan_of image.now).signals }
{
    list_at(image, SIGNALS_AT, SIGNALS)
}

// The list that stands in a route's record at an offset; a route that there isn't has none.
fn route_list(image: &[u8; IMAGE], route: usize, at: usize, most: usize) -> &[u8]
    requires { at + 1 + most ≤ route_size }
    ensures { result.now ≡ route_list image.now route at most }
{
    if routes(image) <= route {
        return &[];
    }
    list_at(image, ROUTES_AT + 1 + ROUTE_SIZE * route + at, most)
}

// A route's start signal, as the image has it and as a number, and its lists; a route that there isn't has none.
pub fn start_byte(image: &[u8; IMAGE], route: usize) -> u8
    ensures { result ≡ (route_of (plan_of image.now) route).start }
{
    if routes(image) <= route {
        return 0;
    }
    image[ROUTES_AT + 1 + ROUTE_SIZE * route]
}

pub fn start_of(image: &[u8; IMAGE], route: usize) -> usize
    ensures { result ≡ (route_of (plan_of image.now) route).start }
{
    usize::from(start_byte(image, route))
}

pub fn path_of(image: &[u8; IMAGE], route: usize) -> &[u8]
    ensures { result.now ≡ (route_of (plan_of image.now) route).path }
{
    route_list(image, route, PATH_AT, PATH)
}

pub fn clear_of(image: &[u8; IMAGE], route: usize) -> &[u8]
    ensures { result.now ≡ (route_of (plan_of image.now) route).clear }
{
    route_list(image, route, CLEAR_AT, CLEAR)
}

pub fn normal_of(image: &[u8; IMAGE], route: usize) -> &[u8]
    ensures { result.now ≡ (route_of (plan_of image.now) route).normal }
{
    route_list(image, route, NORMAL_AT, POINTS)
}

pub fn reverse_of(image: &[u8; IMAGE], route: usize) -> &[u8]
    ensures { result.now ≡ (route_of (plan_of image.now) route).reverse }
{
    route_list(image, route, REVERSE_AT, POINTS)
}

// A route's releases, as the file has them: track, point, track, point ..
pub fn releases_of(image: &[u8; IMAGE], route: usize) -> &[u8]
    ensures { result.now ≡ joined release_file (route_of (plan_of image.now) route).releases }
{
    if routes(image) <= route {
        return &[];
    }
    pairs_at(
        image,
        ROUTES_AT + 1 + ROUTE_SIZE * route + RELEASES_AT,
        RELEASES,
    )
}

// An entry's track, as the image has it and as a number, and its clear list; an entry that there isn't has none.
pub fn entry_byte(image: &[u8; IMAGE], entry: usize) -> u8
    ensures { result ≡ (entry_of (plan_of image.now) entry).track }
{
    if entries(image) <= entry {
        return 0;
    }
    image[ENTRIES_AT + 1 + ENTRY_SIZE * entry]
}

pub fn entry_track(image: &[u8; IMAGE], entry: usize) -> usize
    ensures { result ≡ (entry_of (plan_of image.now) entry).track }
{
    usize::from(entry_byte(image, entry))
}

pub fn entry_clear(image: &[u8; IMAGE], entry: usize) -> &[u8]
    ensures { result.now ≡ (entry_of (plan_of image.now) entry).clear }
{
    if entries(image) <= entry {
        return &[];
    }
    list_at(
        image,
        ENTRIES_AT + 1 + ENTRY_SIZE * entry + ENTRY_CLEAR_AT,
        CLEAR,
    )
}

// Whether a number names a point of the plan whose tracks are in the image.
pub fn is_point(image: &[u8; IMAGE], track: usize) -> bool
    ensures { result ≡ is_point (plan_of image.now).tracks track }
{
    track_of(image, track).point()
}
