// A plan in memory as its file. The writer lends each section's writer the part of the memory that starts where the section before it ended, and is handed
// back how many bytes were written at its front. Within a section each thing is written from an offset on, and hands back the offset after it. Nothing is
// tested here; the room is required.
ghost use Rattle.std.specs.Prelude.{◌∷◌, ◌+◌, ◌<◌, ◌≤◌, length};
ghost use Rattle.laws.specs.Written.{Wrote};
ghost use Rattle.plan.specs.Records.{route_of, entry_of};
ghost use Rattle.plan.specs.File.{counted_file, entry_file, file_of, list_file, route_file, track_file};
ghost use Rattle.plan.specs.Image.{plan_of};

use lists::put_bytes;
use plan::image::{
    clear_of, entries, entry_byte, entry_clear, homes, normal_of, path_of, releases_of, reverse_of,
    routes, start_byte, track_rows, tracks,
};
use plan::limits::{IMAGE, RELEASE_SIZE};

// Things after their count.
fn put_counted(count: usize, bytes: &[u8], out: &mut [u8], at: usize) -> usize
    requires count_bound { count < 256 }
    requires bytes_in_bounds { at + 1 + length bytes.now ≤ length out.old }
    ensures { Wrote (count ∷ bytes.now) out.old at out.new result }
{
    out[at] = count as u8;
    put_bytes(bytes, out, at + 1)
}

// A list of numbers after its count.
#[tactic(auto, unfolding(plan::specs::File::list_file))]
fn put_list(list: &[u8], out: &mut [u8], at: usize) -> usize
    requires list_len_bound { length list.now < 256 }
    requires list_in_bounds { at + 1 + length list.now ≤ length out.old }
    ensures { Wrote (list_file list.now) out.old at out.new result }
{
    put_counted(list.len(), list, out, at)
}

// Section 1: the tracks.
#[tactic(auto, using(crate::proofs::Lengths::plan_most, crate::proofs::Lengths::tracks_long), unfolding(plan::specs::File::counted_file))]
fn write_tracks(image: &[u8; IMAGE], out: &mut [u8]) -> usize
    requires { length (counted_file track_file (plan_of image.now).tracks) ≤ length out.old }
    ensures { Wrote (counted_file track_file (plan_of image.now).tracks) out.old 0 out.new result }
{
    put_counted(tracks(image), track_rows(image), out, 0)
}

// Section 2: the signals.
#[tactic(auto, using(crate::proofs::Lengths::plan_most), unfolding(plan::specs::File::list_file))]
fn write_signals(image: &[u8; IMAGE], out: &mut [u8]) -> usize
    requires { length (list_file (plan_of image.now).signals) ≤ length out.old }
    ensures { Wrote (list_file (plan_of image.now).signals) out.old 0 out.new result }
{
    put_list(homes(image), out, 0)
}

// A route: its start signal and five lists.
#[tactic(auto, using(crate::proofs::Lengths::route_shown), unfolding(plan::specs::File::route_file, plan::specs::File::list_file, plan::specs::File::counted_file))]
fn write_route(image: &[u8; IMAGE], route: usize, out: &mut [u8], at: usize) -> usize
    requires { at + length (route_file (route_of (plan_of image.now) route)) ≤ length out.old }
    ensures { Wrote (route_file (route_of (plan_of image.now) route)) out.old at out.new result }
{
    out[at] = start_byte(image, route);
    let clear_at = put_list(path_of(image, route), out, at + 1);
    let normal_at = put_list(clear_of(image, route), out, clear_at);
    let reverse_at = put_list(normal_of(image, route), out, normal_at);
    let releases_at = put_list(reverse_of(image, route), out, reverse_at);
    let releases = releases_of(image, route);
    put_counted(releases.len() / RELEASE_SIZE, releases, out, releases_at)
}

// Section 3: the routes.
#[tactic(auto, using(crate::proofs::Lengths::plan_most), unfolding(plan::specs::File::counted_file))]
fn write_routes(image: &[u8; IMAGE], out: &mut [u8]) -> usize
    requires { length (counted_file route_file (plan_of image.now).routes) ≤ length out.old }
    ensures { Wrote (counted_file route_file (plan_of image.now).routes) out.old 0 out.new result }
{
    let routes = routes(image);
    out[0] = routes as u8;
    let mut at = 1;
    for route in 0..routes {
        at = write_route(image, route, out, at);
    }
    at
}

// An entry: its track and its clear list.
#[tactic(auto, using(crate::proofs::Lengths::entry_shown), unfolding(plan::specs::File::entry_file, plan::specs::File::list_file))]
fn write_entry(image: &[u8; IMAGE], entry: usize, out: &mut [u8], at: usize) -> usize
    requires { at + length (entry_file (entry_of (plan_of image.now) entry)) ≤ length out.old }
    ensures { Wrote (entry_file (entry_of (plan_of image.now) entry)) out.old at out.new result }
{
    out[at] = entry_byte(image, entry);
    put_list(entry_clear(image, entry), out, at + 1)
}

// Section 4: the entries.
#[tactic(auto, using(crate::proofs::Lengths::plan_most), unfolding(plan::specs::File::counted_file))]
fn write_entries(image: &[u8; IMAGE], out: &mut [u8]) -> usize
    requires { length (counted_file entry_file (plan_of image.now).entries) ≤ length out.old }
    ensures { Wrote (counted_file entry_file (plan_of image.now).entries) out.old 0 out.new result }
{
    let entries = entries(image);
    out[0] = entries as u8;
    let mut at = 1;
    for entry in 0..entries {
        at = write_entry(image, entry, out, at);
    }
    at
}

// The whole file: each section into the part that starts where the section before it ended.
#[tactic(auto, using(crate::proofs::Lengths::plan_lengths))]
pub fn write_sections(image: &[u8; IMAGE], out: &mut [u8]) -> usize
    requires { length (file_of (plan_of image.now)) ≤ length out.old }
    ensures { Wrote (file_of (plan_of image.now)) out.old 0 out.new result }
{
    let signals_from = write_tracks(image, &mut out[0..]);
    let routes_from = signals_from + write_signals(image, &mut out[signals_from..]);
    let entries_from = routes_from + write_routes(image, &mut out[routes_from..]);
    entries_from + write_entries(image, &mut out[entries_from..])
}
