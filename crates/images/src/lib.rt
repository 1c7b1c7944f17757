// Deciding whether a plan in memory is one that some file reads as: each function looks and writes nothing. An image is read like a file in which
// every list stands at its full length, and what is past its count must be 0.
#![tactic(auto)]

ghost use Rattle.std.specs.Prelude.{◌≡◌, ◌-◌, length};
ghost use Rattle.plan.specs.Limits.{tracks_at, routes_at, entries_at};
ghost use Rattle.plan.specs.Image.{plan_of};
ghost use Rattle.reading.specs.Calls.{stepped};
ghost use Rattle.reading.specs.Reading.{after_entry, scanned};
ghost use Rattle.images.specs.Images.{entry_room, entry_rooms, rooms, route_room, route_rooms, standing, zeros, zeros_in};

use lists::only_from;
use plan::image::{signals, tracks};
use plan::limits::{
    CLEAR, CLEAR_AT, ENTRIES, ENTRIES_AT, ENTRY_SIZE, IMAGE, NORMAL_AT, RELEASES_AT, REVERSE_AT,
    ROUTE_SIZE, ROUTES, ROUTES_AT, SIGNALS, SIGNALS_AT, TRACKS_AT,
};
use reading::{
    Form, counted, free, many, number_at, number_step, path_list, point_list, release_list,
    rising_list, track_section,
};

// Whether there are zeros from an offset up to another, and nothing else.
fn zeros_in(bytes: &[u8], from: usize, to: usize) -> bool
    ensures { result ≡ zeros_in bytes.now from to }
{
    bytes
        .get(from..to)
        .is_some_and(|part| only_from(0, part, 0))
}

// The same byte by byte: where they end, or the first that is none.
fn zeros_seen(bytes: &[u8], from: usize, to: usize) -> Result<usize, Form>
    ensures { result ≡ scanned (zeros (to - from)) bytes.now from }
{
    many(from, to.saturating_sub(from), |at, least| {
        free(number_at(bytes, at, 1, least))
    })
}

// The same: where all is right, as it nearly always is, none of them is looked at by itself.
fn zeros_to(bytes: &[u8], from: usize, to: usize) -> Result<usize, Form>
    ensures { result ≡ scanned (zeros (to - from)) bytes.now from }
{
    if zeros_in(bytes, from, to) {
        return Ok(to);
    }
    zeros_seen(bytes, from, to)
}

// The record of a route: its start signal and five lists.
fn route_room(image: &[u8; IMAGE], at: usize) -> Result<usize, Form>
    ensures { result ≡ scanned (route_room (plan_of image.now).tracks (length (plan_of image.now).signals)) image.now at }
{
    let bytes = &image[..];
    let tracks = tracks(image);
    let path_from = number_at(bytes, at, signals(image), 0)?;
    let path_end = path_list(bytes, path_from, tracks)?;
    let clear_from = zeros_to(bytes, path_end, at + CLEAR_AT)?;
    let clear_end = rising_list(bytes, clear_from, tracks, CLEAR)?;
    let normal_from = zeros_to(bytes, clear_end, at + NORMAL_AT)?;
    let normal_end = point_list(bytes, normal_from, image)?;
    let reverse_from = zeros_to(bytes, normal_end, at + REVERSE_AT)?;
    let reverse_end = point_list(bytes, reverse_from, image)?;
    let releases_from = zeros_to(bytes, reverse_end, at + RELEASES_AT)?;
    let releases_end = release_list(bytes, releases_from, image)?;
    zeros_to(bytes, releases_end, at + ROUTE_SIZE)
}

// Section 3: the records of the routes after their count.
fn route_rooms(image: &[u8; IMAGE]) -> Result<usize, Form>
    ensures { result ≡ scanned (route_rooms (plan_of image.now).tracks (length (plan_of image.now).signals)) image.now routes_at }
{
    counted(&image[..], ROUTES_AT, 0, ROUTES, |at, _| {
        free(route_room(image, at))
    })
}

// The record of an entry: its track, not below the least one allowed, and its clear list.
fn entry_room(image: &[u8; IMAGE], at: usize, least: usize) -> Result<(usize, usize), Form>
    ensures { result ≡ stepped (entry_room (length (plan_of image.now).tracks)) after_entry image.now at least }
{
    let bytes = &image[..];
    let tracks = tracks(image);
    let (clear_from, next) = number_step(bytes, at, tracks, least)?;
    let clear_end = rising_list(bytes, clear_from, tracks, CLEAR)?;
    let end = zeros_to(bytes, clear_end, at + ENTRY_SIZE)?;
    Ok((end, next))
}

// Section 4: the records of the entries after their count.
fn entry_rooms(image: &[u8; IMAGE]) -> Result<usize, Form>
    ensures { result ≡ scanned (entry_rooms (length (plan_of image.now).tracks)) image.now entries_at }
{
    counted(&image[..], ENTRIES_AT, 0, ENTRIES, |at, least| {
        entry_room(image, at, least)
    })
}

// The whole image: each section and its zeros, up to where the next one stands.
fn all_rooms(image: &[u8; IMAGE]) -> Result<usize, Form>
    ensures { result ≡ scanned rooms image.now tracks_at }
{
    let bytes = &image[..];
    let tracks_end = track_section(bytes, TRACKS_AT)?;
    zeros_to(bytes, tracks_end, SIGNALS_AT)?;
    let signals_end = rising_list(bytes, SIGNALS_AT, tracks(image), SIGNALS)?;
    zeros_to(bytes, signals_end, ROUTES_AT)?;
    let routes_end = route_rooms(image)?;
    zeros_to(bytes, routes_end, ENTRIES_AT)?;
    let entries_end = entry_rooms(image)?;
    zeros_to(bytes, entries_end, IMAGE)
}

// Whether an image is one that some file reads as.
#[tactic(auto, unfolding(crate::specs::Images::standing))]
pub fn stands(image: &[u8; IMAGE]) -> bool
    ensures { result ≡ standing image.now }
{
    all_rooms(image).is_ok()
}
