// The code that decides: the answer to an event, by the tests of document 01 in its order. All is lent by `&`, so that deciding can't write.
#![tactic(auto)]

mod chain;
mod tests;

ghost use Rattle.std.specs.Prelude.{◌≡◌, List, ℕ};
ghost use Rattle.plan.specs.File.{Readable};
ghost use Rattle.plan.specs.Image.{plan_of};
ghost use Rattle.events.specs.declared.Event.TheVariants.{Request, Cancel, Enter, Move};
ghost use Rattle.events.specs.Decide.{decided};
ghost use Rattle.decide.specs.Single.{readable_single};
ghost use Rattle.decide.specs.Chain.{chained};

use chain::{ensure, stop_at};
use events::{Answer, Deed, Event, Harm, Refusal};
use layout::{home_of, is_exit};
use plan::image::{
    clear_of, entries, entry_clear, entry_track, normal_of, reverse_of, routes, start_of,
};
use plan::limits::{IMAGE, TRACKS};
use state::cells::{CELLS, shown_at};

// What a decision looks at: a plan that can be read, and the state. All is lent by `&`, so that deciding can't write.
#[derive(Clone, Copy)]
pub struct Junction<'a> {
    pub image: &'a [u8; IMAGE],
    pub cells: &'a [u8; CELLS],
    pub holds: &'a [u64; TRACKS],
    pub ghost readable: { Readable (plan_of image.now) } by { readable_single (plan_of image.now) },
}

// The points that a grant turns: the normal ones to normal, and then the reverse ones to reverse.
#[derive(Clone, Copy)]
pub struct Points<'a> {
    pub normal: &'a [u8],
    pub reverse: &'a [u8],
}

impl Junction<'_> {
    ghost use Rattle.decide.specs.Lent.{plan, state, state_with};

    // A request: 11, 12, 13, 14, 42.
    fn request(self, route: usize) -> Result<Deed, Answer>
        ensures { result ≡ chained (decided (plan self.entry) (state self.entry) (Request route)) }
    {
        ensure(route < routes(self.image), Refusal::BadEvent)?;
        let start = start_of(self.image, route);
        ensure(shown_at(self.cells, start) == 0, Refusal::NotRed)?;
        let clear = clear_of(self.image, route);
        stop_at(
            self.busy_train(clear)
                .map(|(track, train)| Refusal::Occupied(track, train)),
        )?;
        let points = Points {
            normal: normal_of(self.image, route),
            reverse: reverse_of(self.image, route),
        };
        stop_at(self.held_point(points).map(Refusal::Held))?;
        stop_at(self.derailed_point(points).map(Harm::Derailment))?;
        Ok(Deed::Granted(route))
    }

    // A cancel, whatever the holds: 11, 15, 16.
    fn cancel(self, route: usize) -> Result<Deed, Answer>
        ensures { (holds : List ℕ) → result ≡ chained (decided (plan self.entry) (state_with self.entry holds) (Cancel route)) }
    {
        ensure(route < routes(self.image), Refusal::BadEvent)?;
        let start = start_of(self.image, route);
        let shown = usize::from(shown_at(self.cells, start));
        ensure(shown == route + 1, Refusal::NotGreen)?;
        let home = home_of(self.image, start);
        ensure(!self.has_train(home), Refusal::HomeOccupied(home))?;
        Ok(Deed::Cancelled(route))
    }

    // An entry, whatever the holds: 11, 17, 13, 40.
    fn enter(self, entry: usize, train: u8) -> Result<Deed, Answer>
        ensures { (holds : List ℕ) → result ≡ chained (decided (plan self.entry) (state_with self.entry holds) (Enter entry train)) }
    {
        ensure(entry < entries(self.image), Refusal::BadEvent)?;
        ensure(train != 0, Refusal::BadEvent)?;
        ensure(self.front_of(train).is_none(), Refusal::TrainIn)?;
        let clear = entry_clear(self.image, entry);
        stop_at(
            self.busy_train(clear)
                .map(|(at, other)| Refusal::Occupied(at, other)),
        )?;
        let track = entry_track(self.image, entry);
        ensure(!self.has_train(track), Harm::Collision(track))?;
        Ok(Deed::Entered { train, track })
    }

    // A move, whatever the holds: 11, 18, 19, and then 40 and 41. From an exit the train leaves.
    fn go(self, train: u8) -> Result<Deed, Answer>
        ensures { (holds : List ℕ) → result ≡ chained (decided (plan self.entry) (state_with self.entry holds) (Move train)) }
    {
        ensure(train != 0, Refusal::BadEvent)?;
        let from = self.front_of(train).ok_or(Refusal::TrainOut)?;
        stop_at(self.red_at(from).map(Refusal::Red))?;
        if is_exit(self.image, from) {
            return Ok(Deed::Left { train, from });
        }
        let to = self.next_track(from);
        ensure(!self.has_train(to), Harm::Collision(to))?;
        ensure(!self.runs_through(from, to), Harm::RunThrough(to))?;
        Ok(Deed::Moved { train, from, to })
    }

    // The answer to an event of any kind. Test 10 stands apart.
    pub fn decide(self, event: Event) -> Answer
        ensures { result ≡ decided (plan self.entry) (state self.entry) event }
    {
        let deed = match event {
            Event::Request(route) => self.request(route),
            Event::Cancel(route) => self.cancel(route),
            Event::Enter { entry, train } => self.enter(entry, train),
            Event::Move(train) => self.go(train),
            Event::Unknown => Err(Answer::Refused(Refusal::BadEvent)),
        };
        match deed {
            Ok(deed) => Answer::Done(deed),
            Err(answer) => answer,
        }
    }
}
