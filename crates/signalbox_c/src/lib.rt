// The box as C calls it: for each function of the public face an export of its name, with the same clauses, that calls it. A slice passes as a pointer
// and a length, an array as a pointer, and the outcome by its value.
#![tactic(auto)]

ghost use Rattle.std.specs.Prelude.{◌≡◌};
ghost use Rattle.reading.specs.Reading.{parse};
ghost use Rattle.state.specs.Cells.{state_in};
ghost use Rattle.events.specs.Events.{first_event};
ghost use Rattle.codes.specs.Codes.{check_code, read_code};
ghost use Rattle.signalbox.specs.Face.{Feeds, Filed, Finishes, Loaded, Opened, Ran, Started, Stepped};

use events::unfinished::UNFINISHED;
use plan::limits::{IMAGE, TRACKS};
use signalbox::Outcome;
use state::cells::CELLS;

// Reads a file into the lent image: 0, or its form's number and offset, and the image is then as it was.
#[unsafe(no_mangle)]
pub extern "C" fn signalbox_load(file: &[u8], image: &mut [u8; IMAGE]) -> u64
    ensures { Loaded file.now image.old result image.new }
{
    signalbox::signalbox_load(file, image)
}

// Whether a file is a plan: 0, or its form's number and offset.
#[unsafe(no_mangle)]
pub extern "C" fn signalbox_read(file: &[u8]) -> u64
    ensures { result ≡ read_code (parse file.now) }
{
    signalbox::signalbox_read(file)
}

// Writes an image as the file that reads as it: its length, or 7 where there is none, or 6 where it is longer than the lent memory, which is then
// as it was.
#[unsafe(no_mangle)]
pub extern "C" fn signalbox_write(image: &[u8; IMAGE], out: &mut [u8]) -> u64
    ensures { Filed image.now out.old result out.new }
{
    signalbox::signalbox_write(image, out)
}

// Whether a file is a plan that is accepted: 200, or its form's number and offset, or the broken rule's number and row.
#[unsafe(no_mangle)]
pub extern "C" fn signalbox_check(file: &[u8]) -> u64
    ensures { result ≡ check_code (parse file.now) }
{
    signalbox::signalbox_check(file)
}

// The fresh state, and no byte of an unfinished event, whatever the memory held.
#[unsafe(no_mangle)]
pub extern "C" fn signalbox_fresh(
    cells: &mut [u8; CELLS],
    holds: &mut [u64; TRACKS],
    unfinished: &mut [u8; UNFINISHED],
)
    ensures { Started (state_in cells.new holds.new) unfinished.new }
{
    signalbox::signalbox_fresh(cells, holds, unfinished);
}

// One event: the code of its answer, and the state after it. Fewer than three bytes are an incomplete event.
#[unsafe(no_mangle)]
pub extern "C" fn signalbox_step(
    file: &[u8],
    cells: &mut [u8; CELLS],
    holds: &mut [u64; TRACKS],
    event: &[u8],
) -> u64
    ensures { Stepped (parse file.now) (state_in cells.old holds.old) (first_event event.now) result (state_in cells.new holds.new) }
{
    signalbox::signalbox_step(file, cells, holds, event)
}

// All events of bytes, an incomplete last one too: the code of each answer, and the state after them.
#[unsafe(no_mangle)]
pub extern "C" fn signalbox_run(
    file: &[u8],
    cells: &mut [u8; CELLS],
    holds: &mut [u64; TRACKS],
    events: &[u8],
    answers: &mut [u64],
) -> Outcome
    ensures { Ran (parse file.now) (state_in cells.old holds.old) events.now answers.old result (state_in cells.new holds.new) answers.new }
{
    signalbox::signalbox_run(file, cells, holds, events, answers)
}

// The first line that the program prints: the form, the broken rule or `accepted`.
#[unsafe(no_mangle)]
pub extern "C" fn signalbox_open(file: &[u8], out: &mut [u8]) -> Outcome
    ensures { Opened (parse file.now) out.old result out.new }
{
    signalbox::signalbox_open(file, out)
}

// The next bytes of the input, cut anywhere: the line of every event that they make whole, and the state after them; what is left over is
// unfinished then.
#[unsafe(no_mangle)]
pub extern "C" fn signalbox_feed(
    file: &[u8],
    cells: &mut [u8; CELLS],
    holds: &mut [u64; TRACKS],
    unfinished: &mut [u8; UNFINISHED],
    bytes: &[u8],
    out: &mut [u8],
) -> Outcome
    ensures { Feeds (parse file.now) (state_in cells.old holds.old) unfinished.old bytes.now out.old result (state_in cells.new holds.new) unfinished.new out.new }
{
    signalbox::signalbox_feed(file, cells, holds, unfinished, bytes, out)
}

// The end of the input: the line of an incomplete event where one is unfinished, and none is then.
#[unsafe(no_mangle)]
pub extern "C" fn signalbox_finish(
    file: &[u8],
    cells: &mut [u8; CELLS],
    holds: &mut [u64; TRACKS],
    unfinished: &mut [u8; UNFINISHED],
    out: &mut [u8],
) -> Outcome
    ensures { Finishes (parse file.now) (state_in cells.old holds.old) unfinished.old out.old result (state_in cells.new holds.new) unfinished.new out.new }
{
    signalbox::signalbox_finish(file, cells, holds, unfinished, out)
}
