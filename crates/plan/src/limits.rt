// The numbers of document 01 and the offsets computed from them, as specs/Limits.antt has them: `limits` ties the two.
ghost use Rattle.std.specs.Prelude.{◌≡◌};
ghost use Rattle.plan.specs.Limits.{limit_table};

// How many of each a plan may have.
pub const LEAST_TRACKS: usize = 1;

pub const TRACKS: usize = 64;

pub const SIGNALS: usize = 32;

pub const ROUTES: usize = 48;

pub const ENTRIES: usize = 16;

pub const LEAST_PATH: usize = 1;

pub const PATH: usize = 32;

pub const CLEAR: usize = 64;

pub const POINTS: usize = 16;

pub const RELEASES: usize = 32;

// The bytes of a track and of a release.
pub const TRACK_SIZE: usize = 4;

pub const RELEASE_SIZE: usize = 2;

// The image: where each list of a route and of an entry stands, from the record's own start ..
pub const PATH_AT: usize = 1;

pub const CLEAR_AT: usize = PATH_AT + (1 + PATH);

pub const NORMAL_AT: usize = CLEAR_AT + (1 + CLEAR);

pub const REVERSE_AT: usize = NORMAL_AT + (1 + POINTS);

pub const RELEASES_AT: usize = REVERSE_AT + (1 + POINTS);

pub const ROUTE_SIZE: usize = RELEASES_AT + (1 + RELEASE_SIZE * RELEASES);

pub const ENTRY_CLEAR_AT: usize = 1;

pub const ENTRY_SIZE: usize = ENTRY_CLEAR_AT + (1 + CLEAR);

// .. and where each section stands. The image is as long as the longest file.
pub const TRACKS_AT: usize = 0;

pub const SIGNALS_AT: usize = TRACKS_AT + (1 + TRACK_SIZE * TRACKS);

pub const ROUTES_AT: usize = SIGNALS_AT + (1 + SIGNALS);

pub const ENTRIES_AT: usize = ROUTES_AT + (1 + ROUTE_SIZE * ROUTES);

pub const IMAGE: usize = ENTRIES_AT + (1 + ENTRY_SIZE * ENTRIES);

// The constants in the order in which they stand above, for the proof that they are the definitions' numbers.
pub fn limits() -> [usize; 25]
    ensures { result ≡ limit_table }
{
    [
        LEAST_TRACKS,
        TRACKS,
        SIGNALS,
        ROUTES,
        ENTRIES,
        LEAST_PATH,
        PATH,
        CLEAR,
        POINTS,
        RELEASES,
        TRACK_SIZE,
        RELEASE_SIZE,
        PATH_AT,
        CLEAR_AT,
        NORMAL_AT,
        REVERSE_AT,
        RELEASES_AT,
        ROUTE_SIZE,
        ENTRY_CLEAR_AT,
        ENTRY_SIZE,
        TRACKS_AT,
        SIGNALS_AT,
        ROUTES_AT,
        ENTRIES_AT,
        IMAGE,
    ]
}
