// Deciding whether a file is a plan: each function looks and writes nothing. What it answers is what its reader of specs/Reading.antt
// gives at that offset: the offset of the next byte, or the form of the first bad one.
#![tactic(auto)]

ghost use Rattle.std.specs.Prelude.{◌≡◌, ℕ, Bool, length};
ghost use Rattle.plan.specs.Kinds.{is_point, limit_of};
ghost use Rattle.reading.specs.Calls.{IsStep, IsTest, Step, byte_at, counted_steps, freed, repeated, stepped};
ghost use Rattle.reading.specs.Reading.{above, after_entry, after_release, below, count, entry, entry_section, form_number, form_offset, number, path_list, point_list, release, release_list, rising_list, route, route_section, scanned, track, track_section};
ghost use Rattle.plan.specs.Image.{plan_of};

use plan::image::{is_point, signals, tracks};
use plan::kinds::{KINDS, uses};
use plan::limits::{
    CLEAR, ENTRIES, IMAGE, LEAST_PATH, LEAST_TRACKS, PATH, POINTS, RELEASES, ROUTES, TRACKS,
};

// Why a file is no plan: one case for each number of the document's table, with the offset.
#[derive(Clone, Copy)]
pub enum Form {
    EndsEarly(usize),
    BadCount(usize),
    BadNumber(usize),
    NotRising(usize),
    LeftOver(usize),
}

impl Form {
    // Its number in the document's table.
    pub fn number(self) -> usize
        ensures { result ≡ form_number self }
    {
        match self {
            Form::EndsEarly(_) => 1,
            Form::BadCount(_) => 2,
            Form::BadNumber(_) => 3,
            Form::NotRising(_) => 4,
            Form::LeftOver(_) => 5,
        }
    }

    // The offset of the first bad byte.
    pub fn offset(self) -> usize
        ensures { result ≡ form_offset self }
    {
        match self {
            Form::EndsEarly(at)
            | Form::BadCount(at)
            | Form::BadNumber(at)
            | Form::NotRising(at)
            | Form::LeftOver(at) => at,
        }
    }
}

// The number at an offset.
fn byte_at(file: &[u8], at: usize) -> Result<usize, Form>
    ensures { result ≡ byte_at file.now at }
{
    file.get(at)
        .map(|b| usize::from(*b))
        .ok_or(Form::EndsEarly(at))
}

// A number that fits, and is not below the least one allowed: where it ends, and the least number that is above it.
fn fitting<F: Fn(usize) -> bool>(
    file: &[u8],
    at: usize,
    least: usize,
    fits: F,
) -> Result<(usize, usize), Form>
    requires { F.IsAlwaysCallable fits }
    ensures { (test : ℕ → Bool) → IsTest (F.post fits) test → result ≡ stepped (number test) above file.now at least }
{
    let found = byte_at(file, at)?;
    if !fits(found) {
        return Err(Form::BadNumber(at));
    }
    if found < least {
        return Err(Form::NotRising(at));
    }
    Ok((at + 1, found + 1))
}

// A number below a limit.
pub fn number_step(
    file: &[u8],
    at: usize,
    limit: usize,
    least: usize,
) -> Result<(usize, usize), Form>
    ensures { result ≡ stepped (number (below limit)) above file.now at least }
{
    fitting(file, at, least, |found| found < limit)
}

// A point.
fn point_step(
    file: &[u8],
    at: usize,
    image: &[u8; IMAGE],
    least: usize,
) -> Result<(usize, usize), Form>
    ensures { result ≡ stepped (number (is_point (plan_of image.now).tracks)) above file.now at least }
{
    fitting(file, at, least, |found| is_point(image, found))
}

// A number below a limit, and not below the least one allowed.
pub fn number_at(file: &[u8], at: usize, limit: usize, least: usize) -> Result<usize, Form>
    ensures { result ≡ scanned (number (below limit) least) file.now at }
{
    let (next, _) = number_step(file, at, limit, least)?;
    Ok(next)
}

// A count within its limits.
pub fn count_of(file: &[u8], at: usize, least: usize, most: usize) -> Result<usize, Form>
    ensures { result ≡ scanned (count least most) file.now at }
{
    let found = byte_at(file, at)?;
    if found < least || most < found {
        return Err(Form::BadCount(at));
    }
    Ok(at + 1)
}

// Things one after the other, from an offset on. A step reads the one that begins at an offset, where no number below a least one is allowed, and
// hands back where it ends, and the least number that is allowed of the next.
pub fn many<F: Fn(usize, usize) -> Result<(usize, usize), Form>>(
    from: usize,
    count: usize,
    step: F,
) -> Result<usize, Form>
    requires { F.IsAlwaysCallable step }
    ensures { (one : Step) → IsStep (F.post step) one → result ≡ repeated one count from 0 }
{
    let mut at = from;
    let mut least = 0;
    for _ in 0..count {
        (at, least) = step(at, least)?;
    }
    Ok(at)
}

// The same after their count, which has its limits.
pub fn counted<F: Fn(usize, usize) -> Result<(usize, usize), Form>>(
    file: &[u8],
    from: usize,
    least: usize,
    most: usize,
    step: F,
) -> Result<usize, Form>
    requires { F.IsAlwaysCallable step }
    ensures { (one : Step) → IsStep (F.post step) one → result ≡ counted_steps one least most file.now from }
{
    let first = count_of(file, from, least, most)?;
    many(first, usize::from(file[from]), step)
}

// A step after which any number may follow.
pub fn free(end: Result<usize, Form>) -> Result<(usize, usize), Form>
    ensures { result ≡ freed end }
{
    Ok((end?, 0))
}

// A path, in travel order.
pub fn path_list(file: &[u8], from: usize, tracks: usize) -> Result<usize, Form>
    ensures { result ≡ scanned (path_list tracks) file.now from }
{
    counted(file, from, LEAST_PATH, PATH, |at, least| {
        free(number_at(file, at, tracks, least))
    })
}

// A list of tracks that rises strictly.
pub fn rising_list(file: &[u8], from: usize, tracks: usize, most: usize) -> Result<usize, Form>
    ensures { result ≡ scanned (rising_list tracks most) file.now from }
{
    counted(file, from, 0, most, |at, least| {
        number_step(file, at, tracks, least)
    })
}

// A list of points that rises strictly.
pub fn point_list(file: &[u8], from: usize, image: &[u8; IMAGE]) -> Result<usize, Form>
    ensures { result ≡ scanned (point_list (plan_of image.now).tracks) file.now from }
{
    counted(file, from, 0, POINTS, |at, least| {
        point_step(file, at, image, least)
    })
}

// The limit of a track's i-th number, by the track's kind.
#[tactic(auto, unfolding(plan::specs::Kinds::limit_of))]
fn limit_of(tracks: usize, kind: u8, i: usize) -> usize
    ensures { result ≡ limit_of tracks kind i }
{
    if i < uses(kind) { tracks } else { 1 }
}

// A track: its kind and three numbers.
fn track_at(file: &[u8], at: usize, tracks: usize) -> Result<usize, Form>
    ensures { result ≡ scanned (track tracks) file.now at }
{
    let first = number_at(file, at, KINDS, 0)?;
    let kind = file[at];
    let second = number_at(file, first, limit_of(tracks, kind, 0), 0)?;
    let third = number_at(file, second, limit_of(tracks, kind, 1), 0)?;
    number_at(file, third, limit_of(tracks, kind, 2), 0)
}

// Section 1: the tracks after their count.
pub fn track_section(file: &[u8], from: usize) -> Result<usize, Form>
    ensures { result ≡ scanned track_section file.now from }
{
    let first = count_of(file, from, LEAST_TRACKS, TRACKS)?;
    let tracks = usize::from(file[from]);
    many(first, tracks, |at, _| free(track_at(file, at, tracks)))
}

// A release: a track, then a point not below the least one allowed.
fn release_step(
    file: &[u8],
    at: usize,
    image: &[u8; IMAGE],
    least: usize,
) -> Result<(usize, usize), Form>
    ensures { result ≡ stepped (release (plan_of image.now).tracks) after_release file.now at least }
{
    let point = number_at(file, at, tracks(image), 0)?;
    point_step(file, point, image, least)
}

// The releases of a route, which rise strictly by point.
pub fn release_list(file: &[u8], from: usize, image: &[u8; IMAGE]) -> Result<usize, Form>
    ensures { result ≡ scanned (release_list (plan_of image.now).tracks) file.now from }
{
    counted(file, from, 0, RELEASES, |at, least| {
        release_step(file, at, image, least)
    })
}

// A route: its start signal and five lists.
fn route_at(file: &[u8], at: usize, image: &[u8; IMAGE]) -> Result<usize, Form>
    ensures { result ≡ scanned (route (plan_of image.now).tracks (length (plan_of image.now).signals)) file.now at }
{
    let tracks = tracks(image);
    let path_from = number_at(file, at, signals(image), 0)?;
    let clear_from = path_list(file, path_from, tracks)?;
    let normal_from = rising_list(file, clear_from, tracks, CLEAR)?;
    let reverse_from = point_list(file, normal_from, image)?;
    let releases_from = point_list(file, reverse_from, image)?;
    release_list(file, releases_from, image)
}

// Section 3: the routes after their count.
pub fn route_section(file: &[u8], from: usize, image: &[u8; IMAGE]) -> Result<usize, Form>
    ensures { result ≡ scanned (route_section (plan_of image.now).tracks (length (plan_of image.now).signals)) file.now from }
{
    counted(file, from, 0, ROUTES, |at, _| {
        free(route_at(file, at, image))
    })
}

// An entry: its track, not below the least one allowed, and its clear list.
fn entry_step(file: &[u8], at: usize, tracks: usize, least: usize) -> Result<(usize, usize), Form>
    ensures { result ≡ stepped (entry tracks) after_entry file.now at least }
{
    let (clear_from, next) = number_step(file, at, tracks, least)?;
    Ok((rising_list(file, clear_from, tracks, CLEAR)?, next))
}

// Section 4: the entries after their count.
pub fn entry_section(file: &[u8], from: usize, tracks: usize) -> Result<usize, Form>
    ensures { result ≡ scanned (entry_section tracks) file.now from }
{
    counted(file, from, 0, ENTRIES, |at, least| {
        entry_step(file, at, tracks, least)
    })
}
