// How many bytes the file of a plan in memory has.
ghost use Rattle.std.specs.Prelude.{◌≡◌, length};
ghost use Rattle.laws.specs.Lists.{joined};
ghost use Rattle.plan.specs.Records.{route_of, entry_of};
ghost use Rattle.plan.specs.File.{entry_file, file_of, route_file};
ghost use Rattle.plan.specs.Image.{plan_of};

use plan::image::{
    clear_of, entries, entry_clear, normal_of, path_of, releases_of, reverse_of, routes, signals,
    tracks,
};
use plan::limits::{IMAGE, TRACK_SIZE};

// A route: its start signal, the counts of its five lists, and these.
#[tactic(auto, using(crate::proofs::Lengths::route_shown))]
fn route_size(image: &[u8; IMAGE], route: usize) -> usize
    ensures { result ≡ length (route_file (route_of (plan_of image.now) route)) }
{
    let tracks = path_of(image, route).len() + clear_of(image, route).len();
    let points = normal_of(image, route).len() + reverse_of(image, route).len();
    6 + tracks + points + releases_of(image, route).len()
}

// An entry: its track, the count of its clear list, and that.
#[tactic(auto, unfolding(plan::specs::File::entry_file, plan::specs::File::list_file))]
fn entry_size(image: &[u8; IMAGE], entry: usize) -> usize
    ensures { result ≡ length (entry_file (entry_of (plan_of image.now) entry)) }
{
    2 + entry_clear(image, entry).len()
}

// The routes, one after another.
fn routes_size(image: &[u8; IMAGE]) -> usize
    ensures { result ≡ length (joined route_file (plan_of image.now).routes) }
{
    (0..routes(image))
        .map(|route| route_size(image, route))
        .sum()
}

// The entries, one after another.
fn entries_size(image: &[u8; IMAGE]) -> usize
    ensures { result ≡ length (joined entry_file (plan_of image.now).entries) }
{
    (0..entries(image))
        .map(|entry| entry_size(image, entry))
        .sum()
}

// The whole file: four counts, and what they count.
#[tactic(auto, using(crate::proofs::Lengths::plan_most, crate::proofs::Lengths::plan_long))]
pub fn file_size(image: &[u8; IMAGE]) -> usize
    ensures { result ≡ length (file_of (plan_of image.now)) }
{
    let layout = TRACK_SIZE * tracks(image) + signals(image);
    4 + layout + routes_size(image) + entries_size(image)
}
