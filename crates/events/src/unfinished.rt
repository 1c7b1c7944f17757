// An event that has not come whole yet: how many of its bytes are there, and these. The bytes that come next go on from there.
ghost use Rattle.std.specs.Prelude.{◌≡◌, ◌++◌, ◌<◌, length, get_or};
ghost use Rattle.events.specs.declared.Event.TheVariants.{Unknown};
ghost use Rattle.events.specs.Events.{whole_events, left_over, unfinished_in, unfinished_cells};

use crate::{Event, event_at};

// A byte for the count, and room for all bytes of an event but its last.
pub const UNFINISHED: usize = 3;

// How many bytes of it are there: two at most, whatever the count says.
#[tactic(auto, using(crate::proofs::Pieces::waiting_count))]
pub fn waiting(unfinished: &[u8; UNFINISHED]) -> usize
    ensures { result ≡ length (unfinished_in unfinished.now) }
{
    usize::from(unfinished[0]).min(2)
}

// The byte at a place among these and the next ones; 0 past their end.
fn byte_at(unfinished: &[u8; UNFINISHED], bytes: &[u8], i: usize) -> u8
    ensures { result ≡ get_or (unfinished_in unfinished.now ++ bytes.now) i 0 }
{
    match i.checked_sub(waiting(unfinished)) {
        Some(at) => bytes.get(at).copied().unwrap_or(0),
        None => unfinished[i + 1],
    }
}

// How many whole events these and the next ones are.
pub fn whole_count(unfinished: &[u8; UNFINISHED], bytes: &[u8]) -> usize
    ensures { result ≡ length (whole_events (unfinished_in unfinished.now ++ bytes.now)) }
{
    (waiting(unfinished) + bytes.len()) / 3
}

// One of them. All but the first stand in the next bytes alone.
pub fn whole_event(unfinished: &[u8; UNFINISHED], bytes: &[u8], i: usize) -> Event
    requires { i < length (whole_events (unfinished_in unfinished.now ++ bytes.now)) }
    ensures { result ≡ get_or (whole_events (unfinished_in unfinished.now ++ bytes.now)) i Unknown }
{
    let at = 3 * i;
    match at.checked_sub(waiting(unfinished)) {
        Some(at) => event_at(bytes, at),
        None => Event::from([
            byte_at(unfinished, bytes, at),
            byte_at(unfinished, bytes, at + 1),
            byte_at(unfinished, bytes, at + 2),
        ]),
    }
}

// Keeps what is left over after them.
pub fn keep(unfinished: &mut [u8; UNFINISHED], bytes: &[u8])
    ensures { unfinished.new ≡ unfinished_cells (left_over (unfinished_in unfinished.old ++ bytes.now)) }
{
    let at = 3 * whole_count(unfinished, bytes);
    let left = (waiting(unfinished) + bytes.len()) % 3;
    *unfinished = [
        left as u8,
        byte_at(unfinished, bytes, at),
        byte_at(unfinished, bytes, at + 1),
    ];
}
