// What an event is and what an answer is. The definitions that decide and that say the state after stand in specs/.
#![tactic(auto)]

pub mod unfinished;

ghost use Rattle.std.specs.Prelude.{◌≡◌, length, get_or, drop};
ghost use Rattle.events.specs.Events.{event_of, first_event, events_of};
ghost use Rattle.events.specs.Answers.{refusal_number, harm_number, deed_number};
ghost use Rattle.events.specs.declared.Answer.TheVariants.{Refused, Accident};

// The four events, and what is none: an unknown kind, an unused byte that is not 0, or an incomplete last event.
#[derive(Clone, Copy)]
pub enum Event {
    Request(usize),
    Cancel(usize),
    Enter { entry: usize, train: u8 },
    Move(u8),
    Unknown,
}

// Why an event is refused: one case for each number of the document's table, with what the document names; 13 names a track and the train on it.
#[derive(Clone, Copy)]
pub enum Refusal {
    IllFormed,
    BadEvent,
    NotRed,
    Occupied(usize, u8),
    Held(usize),
    NotGreen,
    HomeOccupied(usize),
    TrainIn,
    TrainOut,
    Red(usize),
}

// What goes wrong on a bad plan.
#[derive(Clone, Copy)]
pub enum Harm {
    Collision(usize),
    RunThrough(usize),
    Derailment(usize),
}

// What an event does to the state.
#[derive(Clone, Copy)]
pub enum Deed {
    Granted(usize),
    Cancelled(usize),
    Entered { train: u8, track: usize },
    Moved { train: u8, from: usize, to: usize },
    Left { train: u8, from: usize },
}

// What comes of an event. Only a deed changes the state.
#[derive(Clone, Copy)]
pub enum Answer {
    Refused(Refusal),
    Accident(Harm),
    Done(Deed),
}

// A refusal and a harm are answers, and end a chain of tests by `?`.

impl From<Refusal> for Answer {
    ghost from_gives = { λ refusal answer. answer ≡ Refused refusal };

    fn from(refusal: Refusal) -> Answer {
        Answer::Refused(refusal)
    }
}

impl From<Harm> for Answer {
    ghost from_gives = { λ harm answer. answer ≡ Accident harm };

    fn from(harm: Harm) -> Answer {
        Answer::Accident(harm)
    }
}

// The document's numbers of answers. What its table doesn't number has a number from 100 on.

impl Refusal {
    #[tactic(auto, unfolding(crate::specs::Answers::refusal_number))]
    pub fn number(self) -> usize
        ensures { result ≡ refusal_number self }
    {
        match self {
            Self::IllFormed => 10,
            Self::BadEvent => 11,
            Self::NotRed => 12,
            Self::Occupied(..) => 13,
            Self::Held(_) => 14,
            Self::NotGreen => 15,
            Self::HomeOccupied(_) => 16,
            Self::TrainIn => 17,
            Self::TrainOut => 18,
            Self::Red(_) => 19,
        }
    }
}

impl Harm {
    #[tactic(auto, unfolding(crate::specs::Answers::harm_number))]
    pub fn number(self) -> usize
        ensures { result ≡ harm_number self }
    {
        match self {
            Self::Collision(_) => 40,
            Self::RunThrough(_) => 41,
            Self::Derailment(_) => 42,
        }
    }
}

impl Deed {
    #[tactic(auto, unfolding(crate::specs::Answers::deed_number))]
    pub fn number(self) -> usize
        ensures { result ≡ deed_number self }
    {
        match self {
            Self::Granted(_) => 100,
            Self::Cancelled(_) => 101,
            Self::Entered { .. } => 102,
            Self::Moved { .. } => 103,
            Self::Left { .. } => 104,
        }
    }
}

// The event of three bytes.
impl From<[u8; 3]> for Event {
    #[tactic(auto, unfolding(crate::specs::Events::event_of))]
    fn from(bytes: [u8; 3]) -> Self
        ensures { result ≡ event_of (get_or bytes 0 0) (get_or bytes 1 0) (get_or bytes 2 0) }
    {
        match bytes {
            [1, route, 0] => Self::Request(usize::from(route)),
            [2, route, 0] => Self::Cancel(usize::from(route)),
            [3, entry, train] => Self::Enter {
                entry: usize::from(entry),
                train,
            },
            [4, train, 0] => Self::Move(train),
            _ => Self::Unknown,
        }
    }
}

// The event that starts at an offset. Fewer than three bytes are an incomplete one.
pub fn event_at(bytes: &[u8], at: usize) -> Event
    ensures { result ≡ first_event (drop at bytes.now) }
{
    match bytes.get(at..).unwrap_or(&[]) {
        &[kind, first, second, ..] => Event::from([kind, first, second]),
        _ => Event::Unknown,
    }
}

// How many events bytes have, an incomplete last one too.
#[tactic(auto, using(crate::proofs::Pieces::events_length))]
pub fn event_count(bytes: &[u8]) -> usize
    ensures { result ≡ length (events_of bytes.now) }
{
    bytes.len().div_ceil(3)
}
