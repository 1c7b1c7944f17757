// The plan file and the plan in memory.
#![tactic(auto)]

pub mod image;
pub mod kinds;
pub mod limits;

// The kinds of track.
#[derive(Clone, Copy, PartialEq, Eq)]
pub enum Kind {
    Plain,
    Facing,
    Trailing,
    Exit,
}

// A byte that is the code of no kind: a plan in memory may have any.
#[derive(Clone, Copy, PartialEq, Eq)]
pub struct NoKind;

// A track: the code of its kind (kinds.rt) and three numbers. A plain track has its next track; a facing point its normal and its reverse way out; a
// trailing point its next track, its normal and its reverse leg. What is not used is 0.
#[derive(Clone, Copy)]
pub struct Track {
    pub kind: u8,
    pub first: u8,
    pub second: u8,
    pub third: u8,
}

// A train's arrival on the track gives the point back.
#[derive(Clone, Copy)]
pub struct Release {
    pub track: u8,
    pub point: u8,
}
