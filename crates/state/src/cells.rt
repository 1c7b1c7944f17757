// The cells of a state: trains, lies and signals one after the other. Holds are wider and stand apart. The readers of one cell alone know where it
// stands; other rooms read through them, or are lent a part.
#![tactic(auto, unfolding(crate::specs::Cells::part, crate::specs::Cells::trains_in, crate::specs::Cells::lies_in, crate::specs::Cells::signals_in))]

ghost use Rattle.std.specs.Prelude.{◌≡◌, ◌<◌, get_or};
ghost use Rattle.plan.specs.Limits.{most_tracks, most_signals};
ghost use Rattle.state.specs.Cells.{offset_table, trains_in, lies_in, signals_in};

use plan::limits::{SIGNALS, TRACKS};

// Where each part starts, and where the last one ends.
pub const TRAINS_FROM: usize = 0;

pub const LIES_FROM: usize = TRAINS_FROM + TRACKS;

pub const SIGNALS_FROM: usize = LIES_FROM + TRACKS;

pub const CELLS: usize = SIGNALS_FROM + SIGNALS;

// The constants in the order in which they stand above, for the proof that they are the definitions' numbers.
pub fn offsets() -> [usize; 4]
    ensures { result ≡ offset_table }
{
    [TRAINS_FROM, LIES_FROM, SIGNALS_FROM, CELLS]
}

// The train on a track, the lie of a point, what a signal shows.
pub fn train_at(cells: &[u8; CELLS], track: usize) -> u8
    requires { track < most_tracks }
    ensures { result ≡ get_or (trains_in cells.now) track 0 }
{
    trains_of(cells)[track]
}

pub fn lie_at(cells: &[u8; CELLS], point: usize) -> u8
    requires { point < most_tracks }
    ensures { result ≡ get_or (lies_in cells.now) point 0 }
{
    lies_of(cells)[point]
}

pub fn shown_at(cells: &[u8; CELLS], signal: usize) -> u8
    requires { signal < most_signals }
    ensures { result ≡ get_or (signals_in cells.now) signal 0 }
{
    signals_of(cells)[signal]
}

// Each part whole.
pub fn trains_of(cells: &[u8; CELLS]) -> &[u8]
    ensures { result.now ≡ trains_in cells.now }
{
    &cells[TRAINS_FROM..LIES_FROM]
}

pub fn lies_of(cells: &[u8; CELLS]) -> &[u8]
    ensures { result.now ≡ lies_in cells.now }
{
    &cells[LIES_FROM..SIGNALS_FROM]
}

pub fn signals_of(cells: &[u8; CELLS]) -> &[u8]
    ensures { result.now ≡ signals_in cells.now }
{
    &cells[SIGNALS_FROM..CELLS]
}
