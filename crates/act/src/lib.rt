// The code that acts on an answer. It goes by the answer alone: a deed goes array by array, as the definition of the state after does.
#![tactic(auto)]

ghost use Rattle.std.specs.Prelude.{◌≡◌, ◌<◌, length};
ghost use Rattle.laws.specs.Lists.{All};
ghost use Rattle.laws.specs.Tables.{tab};
ghost use Rattle.plan.specs.Limits.{most_tracks, most_signals};
ghost use Rattle.plan.specs.File.{Readable};
ghost use Rattle.plan.specs.Image.{plan_of};
ghost use Rattle.state.specs.Cells.{state_in};
ghost use Rattle.events.specs.After.{dropped, arrived, reddened, new_trains, new_lies, new_holds, new_signals, after_deed, after, Acts};
ghost use Rattle.act.specs.Cells.{turned, held, released, freed, Ready, ready_prop};

use events::{Answer, Deed};
use plan::image::{homes, normal_of, releases_of, reverse_of, routes, start_of};
use plan::limits::{IMAGE, TRACKS};
use state::HoldSet;
use state::cells::{CELLS, LIES_FROM, SIGNALS_FROM, TRAINS_FROM};

const NO_TRAIN: u8 = 0;

const NORMAL: u8 = 0;

const REVERSE: u8 = 1;

const RED: u8 = 0;

// The state after the answer. Only a deed changes it.
pub fn act(image: &[u8; IMAGE], cells: &mut [u8; CELLS], holds: &mut [u64; TRACKS], answer: Answer)
    requires { Readable (plan_of image.now) × Acts (plan_of image.now) answer }
    ensures { state_in cells.new holds.new ≡ after (plan_of image.now) (state_in cells.old holds.old) answer }
{
    if let Answer::Done(deed) = answer {
        Due { image, deed }.carry_out(cells, holds);
    }
}

// A deed that is due, and the image of a plan that has what it names.
#[derive(Clone, Copy)]
struct Due<'a> {
    image: &'a [u8; IMAGE],
    deed: Deed,
    ghost ready: { Ready (plan_of image.now) deed } by { ready_prop (plan_of image.now) deed },
}

impl<'a> Due<'a> {
    // Each part of the state is lent to the method that acts on it.
    fn carry_out(self, cells: &mut [u8; CELLS], holds: &mut [u64; TRACKS])
        ensures { state_in cells.new holds.new ≡ after_deed (plan_of self.entry.image.now) (state_in cells.old holds.old) self.entry.deed }
    {
        self.trains(&mut cells[TRAINS_FROM..LIES_FROM]);
        self.lies(&mut cells[LIES_FROM..SIGNALS_FROM]);
        self.signals(&mut cells[SIGNALS_FROM..CELLS]);
        self.holds(holds);
    }

    // A train comes to stand on a track; a train is gone from one. A move is both.
    fn trains(self, trains: &mut [u8])
        requires { length trains.old ≡ most_tracks }
        ensures { trains.new ≡ new_trains trains.old self.entry.deed }
    {
        match self.deed {
            Deed::Entered { train, track } => {
                trains[track] = train;
            }
            Deed::Moved { train, from, to } => {
                trains[to] = train;
                trains[from] = NO_TRAIN;
            }
            Deed::Left { from, .. } => {
                trains[from] = NO_TRAIN;
            }
            Deed::Granted(_) | Deed::Cancelled(_) => {}
        }
    }

    // Only a grant turns points: normal points go normal, then reverse points reverse.
    fn lies(self, lies: &mut [u8])
        requires { length lies.old ≡ most_tracks }
        ensures { lies.new ≡ new_lies (plan_of self.entry.image.now) lies.old self.entry.deed }
    {
        let Deed::Granted(route) = self.deed else {
            return;
        };
        turn(normal_of(self.image, route), NORMAL, lies);
        turn(reverse_of(self.image, route), REVERSE, lies);
    }

    // A grant turns the route's signal green for it, a cancel red; a signal on the track left goes red.
    fn signals(self, signals: &mut [u8])
        requires { length signals.old ≡ most_signals }
        ensures { signals.new ≡ new_signals (plan_of self.entry.image.now) signals.old self.entry.deed }
    {
        match self.deed {
            Deed::Granted(route) => {
                let start = start_of(self.image, route);
                signals[start] = (route + 1) as u8;
            }
            Deed::Cancelled(route) => {
                let start = start_of(self.image, route);
                signals[start] = RED;
            }
            Deed::Moved { from, .. } | Deed::Left { from, .. } => redden(self.image, from, signals),
            Deed::Entered { .. } => {}
        }
    }

    // A grant takes the listed points, a cancel drops all holds of the route, a train's arrival gives back what the releases name.
    fn holds(self, holds: &mut [u64; TRACKS])
        ensures { holds.new ≡ new_holds (plan_of self.entry.image.now) holds.old self.entry.deed }
    {
        match self.deed {
            Deed::Granted(route) => {
                take(normal_of(self.image, route), route, holds);
                take(reverse_of(self.image, route), route, holds);
            }
            Deed::Cancelled(route) => drop_all(route, holds),
            Deed::Moved { to, .. } => self.arrive(to, holds),
            Deed::Entered { .. } | Deed::Left { .. } => {}
        }
    }

    // A train's arrival gives back, for every route, the holds that its releases name.
    fn arrive(self, to: usize, holds: &mut [u64; TRACKS])
        ensures { holds.new ≡ tab most_tracks (arrived (plan_of self.entry.image.now) to holds.old) }
    {
        for route in 0..routes(self.image) {
            give_back(releases_of(self.image, route), to, route, holds);
        }
    }
}

// Every point of a list is turned.
fn turn(list: &[u8], lie: u8, lies: &mut [u8])
    requires { All (λ q. q < length lies.old) list.now }
    ensures { lies.new ≡ tab (length lies.old) (turned list.now lie lies.old) }
{
    for point in list {
        lies[usize::from(*point)] = lie;
    }
}

// Every point of a list is held by the route.
fn take(list: &[u8], route: usize, holds: &mut [u64])
    requires { All (λ q. q < length holds.old) list.now }
    ensures { holds.new ≡ tab (length holds.old) (held list.now route holds.old) }
{
    for point in list {
        let held = &mut holds[usize::from(*point)];
        *held = HoldSet::from(*held).with(route).routes;
    }
}

// The route's holds are dropped, of every point.
fn drop_all(route: usize, holds: &mut [u64])
    ensures { holds.new ≡ tab (length holds.old) (dropped route holds.old) }
{
    for holders in holds.iter_mut() {
        *holders = HoldSet::from(*holders).without(route).routes;
    }
}

// The route's hold is dropped of each point whose release track is the one that the train arrives on.
fn give_back(releases: &[u8], to: usize, route: usize, holds: &mut [u64])
    requires { All (λ q. q < length holds.old) releases.now }
    ensures { holds.new ≡ tab (length holds.old) (freed (released to releases.now) route holds.old) }
{
    for pair in releases.chunks_exact(2) {
        if usize::from(pair[0]) == to {
            let held = &mut holds[usize::from(pair[1])];
            *held = HoldSet::from(*held).without(route).routes;
        }
    }
}

// A signal on the track left goes red.
fn redden(image: &[u8; IMAGE], from: usize, signals: &mut [u8])
    requires { length signals.old ≡ most_signals }
    ensures { signals.new ≡ tab most_signals (reddened (plan_of image.now) from signals.old) }
{
    for (signal, home) in homes(image).iter().enumerate() {
        if usize::from(*home) == from {
            signals[signal] = RED;
        }
    }
}
