// The only public face of the box: reading a plan, into memory too, and writing it back, checking it, the fresh state, one event, many events, events
// as they come. No function asks anything of its caller: any bytes as a plan or an image, any state and any bytes as events get an answer.
#![tactic(auto)]

mod said;

ghost use Rattle.std.specs.Prelude.{◌≡◌};
ghost use Rattle.reading.specs.Reading.{parse};
ghost use Rattle.loading.specs.Storing.{after_reading};
ghost use Rattle.state.specs.Cells.{state_in};
ghost use Rattle.events.specs.Events.{first_event};
ghost use Rattle.codes.specs.Codes.{check_code, read_code};
ghost use Rattle.signalbox.specs.Face.{Feeds, Filed, Finishes, Loaded, Opened, Ran, Started, Stepped, done, not_done, readiness, reason_code};

use checking::check;
use codes::{NO_ROOM, answer_code, form_code, refusal_code, verdict_code, written_code};
use events::unfinished::{UNFINISHED, keep, waiting, whole_count, whole_event};
use events::{Event, Refusal, event_at, event_count};
use lines::{LINE, form_line, verdict_line};
use loading::load;
use plan::limits::{IMAGE, TRACKS};
use play::play;
use reading::Form;
use said::say;
use state::cells::CELLS;
use state::form::well_formed;
use writing::write;

// What comes of a call that does all that it is given or nothing: 0, or the code of why nothing was done; and how many codes or bytes stand in the
// lent memory.
#[repr(C)]
#[derive(Clone, Copy)]
pub struct Outcome {
    pub code: u64,
    pub written: usize,
}

impl Outcome {
    // All was done, and so much is written.
    fn done(written: usize) -> Outcome
        ensures { result ≡ done written }
    {
        Outcome { code: 0, written }
    }

    // Nothing was done.
    fn not_done(reason: Reason) -> Outcome
        ensures { result ≡ not_done reason }
    {
        Outcome {
            code: reason.code(),
            written: 0,
        }
    }
}

// Why nothing was done: no plan is read, the state or what is unfinished is ill formed, there is too little room.
#[derive(Clone, Copy)]
enum Reason {
    NoPlan(Form),
    BadState,
    NoRoom,
}

impl Reason {
    fn code(self) -> u64
        ensures { result ≡ reason_code self }
    {
        match self {
            Reason::NoPlan(form) => form_code(form),
            Reason::BadState => refusal_code(Refusal::IllFormed),
            Reason::NoRoom => NO_ROOM,
        }
    }
}

// Reads a file into the lent image: 0, or its form's number and offset, and the image is then as it was.
pub fn signalbox_load(file: &[u8], image: &mut [u8; IMAGE]) -> u64
    ensures { Loaded file.now image.old result image.new }
{
    match load(file, image) {
        Ok(_) => 0,
        Err(form) => form_code(form),
    }
}

// Whether a file is a plan: 0, or its form's number and offset.
pub fn signalbox_read(file: &[u8]) -> u64
    ensures { result ≡ read_code (parse file.now) }
{
    let mut image = [0u8; IMAGE];
    signalbox_load(file, &mut image)
}

// Writes an image as the file that reads as it: its length, or 7 where there is none, or 6 where it is longer than the lent memory, which is then
// as it was.
pub fn signalbox_write(image: &[u8; IMAGE], out: &mut [u8]) -> u64
    ensures { Filed image.now out.old result out.new }
{
    written_code(write(image, out))
}

// Whether a file is a plan that is accepted: 200, or its form's number and offset, or the broken rule's number and row.
pub fn signalbox_check(file: &[u8]) -> u64
    ensures { result ≡ check_code (parse file.now) }
{
    let mut image = [0u8; IMAGE];
    match load(file, &mut image) {
        Ok(_) => verdict_code(check(&image)),
        Err(form) => form_code(form),
    }
}

// The fresh state, and no byte of an unfinished event, whatever the memory held.
pub fn signalbox_fresh(
    cells: &mut [u8; CELLS],
    holds: &mut [u64; TRACKS],
    unfinished: &mut [u8; UNFINISHED],
)
    ensures { Started (state_in cells.new holds.new) unfinished.new }
{
    *cells = [0u8; CELLS];
    *holds = [0u64; TRACKS];
    *unfinished = [0u8; UNFINISHED];
}

// Whether anything is in the way of every event: the plan's form, then 10. Leaves the plan in the lent image.
fn ready(
    file: &[u8],
    cells: &[u8; CELLS],
    holds: &[u64; TRACKS],
    image: &mut [u8; IMAGE],
) -> Result<(), Reason>
    ensures { (result ≡ readiness (parse file.now) (state_in cells.now holds.now)) × (image.new ≡ after_reading (parse file.now) image.old) }
{
    if let Err(form) = load(file, image) {
        return Err(Reason::NoPlan(form));
    }
    if !well_formed(image, cells, holds) {
        return Err(Reason::BadState);
    }
    Ok(())
}

// One event: the code of its answer, and the state after it. Fewer than three bytes are an incomplete event.
pub fn signalbox_step(
    file: &[u8],
    cells: &mut [u8; CELLS],
    holds: &mut [u64; TRACKS],
    event: &[u8],
) -> u64
    ensures { Stepped (parse file.now) (state_in cells.old holds.old) (first_event event.now) result (state_in cells.new holds.new) }
{
    let mut image = [0u8; IMAGE];
    if let Err(reason) = ready(file, cells, holds, &mut image) {
        return reason.code();
    }
    answer_code(play(&image, cells, holds, event_at(event, 0)))
}

// All events of bytes, an incomplete last one too: the code of each answer, and the state after them.
pub fn signalbox_run(
    file: &[u8],
    cells: &mut [u8; CELLS],
    holds: &mut [u64; TRACKS],
    events: &[u8],
    answers: &mut [u64],
) -> Outcome
    ensures { Ran (parse file.now) (state_in cells.old holds.old) events.now answers.old result (state_in cells.new holds.new) answers.new }
{
    let mut image = [0u8; IMAGE];
    if let Err(reason) = ready(file, cells, holds, &mut image) {
        return Outcome::not_done(reason);
    }
    let count = event_count(events);
    if answers.len() < count {
        return Outcome::not_done(Reason::NoRoom);
    }
    for i in 0..count {
        let answer = play(&image, cells, holds, event_at(events, 3 * i));
        answers[i] = answer_code(answer);
    }
    Outcome::done(count)
}

// The first line that the program prints: the form, the broken rule or `accepted`.
pub fn signalbox_open(file: &[u8], out: &mut [u8]) -> Outcome
    ensures { Opened (parse file.now) out.old result out.new }
{
    if out.len() / LINE < 1 {
        return Outcome::not_done(Reason::NoRoom);
    }
    let mut image = [0u8; IMAGE];
    Outcome::done(match load(file, &mut image) {
        Ok(_) => verdict_line(check(&image), out, 0),
        Err(form) => form_line(form, out, 0),
    })
}

// The next bytes of the input, cut anywhere: the line of every event that they make whole, and the state after them; what is left over is
// unfinished then.
pub fn signalbox_feed(
    file: &[u8],
    cells: &mut [u8; CELLS],
    holds: &mut [u64; TRACKS],
    unfinished: &mut [u8; UNFINISHED],
    bytes: &[u8],
    out: &mut [u8],
) -> Outcome
    ensures { Feeds (parse file.now) (state_in cells.old holds.old) unfinished.old bytes.now out.old result (state_in cells.new holds.new) unfinished.new out.new }
{
    let mut image = [0u8; IMAGE];
    if let Err(reason) = ready(file, cells, holds, &mut image) {
        return Outcome::not_done(reason);
    }
    if 2 < unfinished[0] {
        return Outcome::not_done(Reason::BadState);
    }
    let count = whole_count(unfinished, bytes);
    if out.len() / LINE < count {
        return Outcome::not_done(Reason::NoRoom);
    }
    let mut at = 0;
    for i in 0..count {
        let event = whole_event(unfinished, bytes, i);
        at = say(&image, cells, holds, event, out, at);
    }
    keep(unfinished, bytes);
    Outcome::done(at)
}

// The end of the input: the line of an incomplete event where one is unfinished, and none is then.
pub fn signalbox_finish(
    file: &[u8],
    cells: &mut [u8; CELLS],
    holds: &mut [u64; TRACKS],
    unfinished: &mut [u8; UNFINISHED],
    out: &mut [u8],
) -> Outcome
    ensures { Finishes (parse file.now) (state_in cells.old holds.old) unfinished.old out.old result (state_in cells.new holds.new) unfinished.new out.new }
{
    let mut image = [0u8; IMAGE];
    if let Err(reason) = ready(file, cells, holds, &mut image) {
        return Outcome::not_done(reason);
    }
    if 2 < unfinished[0] {
        return Outcome::not_done(Reason::BadState);
    }
    if waiting(unfinished) == 0 {
        *unfinished = [0u8; UNFINISHED];
        return Outcome::done(0);
    }
    if out.len() / LINE < 1 {
        return Outcome::not_done(Reason::NoRoom);
    }
    let written = say(&image, cells, holds, Event::Unknown, out, 0);
    *unfinished = [0u8; UNFINISHED];
    Outcome::done(written)
}
