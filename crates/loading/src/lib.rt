// Loading a plan file into the plan's image, with the answers 1 to 5.
#![tactic(auto)]

mod store;

ghost use Rattle.std.specs.Prelude.{◌≡◌};
ghost use Rattle.reading.specs.Reading.{parse, seen};
ghost use Rattle.loading.specs.Storing.{after_reading};

use plan::image::tracks;
use plan::limits::{IMAGE, SIGNALS, SIGNALS_AT, TRACK_SIZE, TRACKS_AT};
use reading::{Form, entry_section, rising_list, route_section, track_section};
use store::{store_entries, store_list, store_routes};

// Loads a plan: what the file gives, and, where it is a plan, its image. A refusal leaves the lent image as it was.
pub fn load(file: &[u8], image: &mut [u8; IMAGE]) -> Result<usize, Form>
    ensures { (result ≡ seen (parse file.now)) × (image.new ≡ after_reading (parse file.now) image.old) }
{
    let mut fresh = [0u8; IMAGE];
    let signals_from = track_section(file, 0)?;
    store_list(file, 0, TRACK_SIZE, &mut fresh, TRACKS_AT);
    let routes_from = rising_list(file, signals_from, tracks(&fresh), SIGNALS)?;
    store_list(file, signals_from, 1, &mut fresh, SIGNALS_AT);
    let entries_from = route_section(file, routes_from, &fresh)?;
    let end = entry_section(file, entries_from, tracks(&fresh))?;
    if end < file.len() {
        return Err(Form::LeftOver(end));
    }
    store_routes(file, routes_from, &mut fresh);
    store_entries(file, entries_from, &mut fresh);
    *image = fresh;
    Ok(end)
}
