// The program: reads plan.bin in the folder where it is started, then events from standard input until it ends, and prints a line for the plan and
// one for each event. What it prints is proved in the room below; here bytes are only moved: read, feed, write. What can't be read or written is
// told on standard error, and no more is played then.
#![tactic(auto)]

ghost use Rattle.std.specs.Prelude.{◌≤◌, length, IfOk};
ghost use Rattle.reading.specs.Reading.{parse};
ghost use Rattle.lines.specs.Lines.{line_most};
ghost use Rattle.laws.specs.Written.{Wrote};
ghost use Rattle.demands.specs.Session.{first_line};
ghost use Rattle.state.specs.Cells.{state_in};
ghost use Rattle.bench.specs.Serving.{piece_most, lines_most, Serves, Took, Turned, total, ServedOn, Ended};

use events::unfinished::UNFINISHED;
use lines::LINE;
use plan::limits::{IMAGE, TRACKS};
use signalbox::{
    signalbox_feed, signalbox_finish, signalbox_fresh, signalbox_open, signalbox_read,
};
use state::cells::CELLS;
use std::fs::File;
use std::io;
use std::io::{Cursor, Read, Write};
use std::rt::Files;

// One byte more than the longest plan: a longer file gets the answer of these.
const PLAN: usize = IMAGE + 1;

// How many bytes of events one read takes at most, and how many the lines of the events may take that these and two bytes before them make whole.
const PIECE: usize = 3072;

const LINES: usize = (PIECE + 2) / 3 * LINE;

// More than the longest reason that the system gives.
const REASON: usize = 256;

// What is told where something fails.
const UNOPENED: &str = "bench: plan.bin can't be opened, and counts as empty";

const UNREADABLE: &str = "bench: plan.bin can't be read, and counts as empty";

const UNREAD: &str = "bench: standard input can't be read, and no more is played";

const UNWRITTEN: &str = "bench: standard output can't be written, and no more is played";

// Something has failed, and that was told on standard error.
#[derive(Clone, Copy)]
pub struct Told;

// The plan file's bytes. A file that can't be opened, or not read to its end, counts as empty.
fn load<'a>(rt: &(impl Files + Eprint), plan: &'a mut [u8; PLAN]) -> &'a [u8]
    ensures { length result.now ≤ length plan.old }
{
    let opened = File::open(rt, "plan.bin").map_err(|error| fail(rt, UNOPENED, error));
    let read = opened.and_then(|mut file| fill(rt, &mut file, &mut plan[..]));
    &plan[..read.unwrap_or(0)]
}

// Reads until the memory is full or the file ends.
fn fill(rt: &impl Eprint, file: &mut impl Read, bytes: &mut [u8]) -> Result<usize, Told>
    ensures { IfOk result (λ done. done ≤ length bytes.new) }
{
    let mut done = 0;
    while done < bytes.len() {
        let read = next(rt, file, &mut bytes[done..], UNREADABLE)?;
        if read == 0 {
            break;
        }
        done += read;
    }
    Ok(done)
}

// One read: how many bytes it has brought. Where it fails, that is told in these words.
fn next(
    rt: &impl Eprint,
    from: &mut impl Read,
    bytes: &mut [u8],
    failure: &str,
) -> Result<usize, Told>
    ensures { Took result bytes.new }
{
    from.read(bytes).map_err(|error| fail(rt, failure, error))
}

// Tells on standard error what can't be done, and why: in the system's words, without the number that stands after them. Where that can't be written
// either, nothing is told.
fn fail(rt: &impl Eprint, what: &str, error: io::Error) -> Told {
    let mut reason = Cursor::new([0u8; REASON]);
    let _ = write!(reason, "{error}");
    let reason = reason.into_inner();
    if let Ok(reason) = str::from_utf8(&reason) {
        if let Some((words, _)) = reason.split_once(" (os error ") {
            let _ = eprintln!(rt; "{what}: {words}");
            return Told;
        }
    }
    let _ = eprintln!(rt; "{what}: {error}");
    Told
}

// Writes all of it to standard output.
fn print(rt: &(impl Print + Eprint), lines: &[u8]) -> Result<(), Told> {
    rt.write_all(lines)
        .map_err(|error| fail(rt, UNWRITTEN, error))
}

fn main(rt: HostRuntime) {
    let mut plan = [0u8; PLAN];
    let file = load(&rt, &mut plan);
    let mut first = [0u8; LINE];
    let count = first_line(file, &mut first[..]);
    if print(&rt, &first[..count]).is_err() {
        return;
    }
    if signalbox_read(file) != 0 {
        return;
    }
    let mut cells = [0u8; CELLS];
    let mut holds = [0u64; TRACKS];
    let mut unfinished = [0u8; UNFINISHED];
    signalbox_fresh(&mut cells, &mut holds, &mut unfinished);
    if serve(&rt, file, &mut cells, &mut holds, &mut unfinished).is_err() {
        return;
    }
    let mut last = [0u8; LINE];
    let more = last_line(file, &mut cells, &mut holds, &mut unfinished, &mut last[..]);
    let _ = print(&rt, &last[..more]);
}

// The line for the plan.
fn first_line(plan: &[u8], out: &mut [u8]) -> usize
    requires { line_most ≤ length out.old }
    ensures { Wrote (first_line (parse plan.now)) out.old 0 out.new result }
{
    let opened = signalbox_open(plan, out);
    opened.written
}

// The line of an incomplete event at the end of the input, or none.
fn last_line(
    plan: &[u8],
    cells: &mut [u8; CELLS],
    holds: &mut [u64; TRACKS],
    unfinished: &mut [u8; UNFINISHED],
    out: &mut [u8],
) -> usize
    requires serves { Serves (parse plan.now) (state_in cells.old holds.old) unfinished.old }
    requires line_most_in_bounds { line_most ≤ length out.old }
    ensures { Ended (parse plan.now) (state_in cells.old holds.old) unfinished.old out.old result (state_in cells.new holds.new) unfinished.new out.new }
{
    let finished = signalbox_finish(plan, cells, holds, unfinished, out);
    finished.written
}

// Turn after turn until the input ends, the lines of each written before the next one. It goes on from what it is lent, whatever that is. Hands back
// how many bytes were read: until the input ended, or, as an error, until a read that failed or a line that can't be written broke it off.
fn serve(
    rt: &(impl Input + Print + Eprint),
    plan: &[u8],
    cells: &mut [u8; CELLS],
    holds: &mut [u64; TRACKS],
    unfinished: &mut [u8; UNFINISHED],
) -> Result<usize, usize>
    requires { Serves (parse plan.now) (state_in cells.old holds.old) unfinished.old }
    ensures { ServedOn (parse plan.now) (state_in cells.old holds.old) unfinished.old (total result) (state_in cells.new holds.new) unfinished.new }
{
    let mut total = 0;
    // the bytes of so many turns can be counted
    for _ in 0..usize::MAX / PIECE {
        let mut bytes = [0u8; PIECE];
        let mut lines = [0u8; LINES];
        let done = turn(
            rt,
            plan,
            cells,
            holds,
            unfinished,
            &mut bytes[..],
            &mut lines[..],
        );
        let read = done.read.map_err(|_| total)?;
        total += read;
        print(rt, &lines[..done.written]).map_err(|_| total)?;
        if read == 0 {
            return Ok(total);
        }
    }
    Err(total)
}

// How many bytes a turn has read, none at the end of the input, and how many there are to be written.
#[derive(Drop)]
pub struct Exchange {
    pub read: Result<usize, Told>,
    pub written: usize,
}

// One read into the lent memory, and the lines of the events that it makes whole.
fn turn(
    rt: &(impl Input + Eprint),
    plan: &[u8],
    cells: &mut [u8; CELLS],
    holds: &mut [u64; TRACKS],
    unfinished: &mut [u8; UNFINISHED],
    bytes: &mut [u8],
    lines: &mut [u8],
) -> Exchange
    requires serves { Serves (parse plan.now) (state_in cells.old holds.old) unfinished.old }
    requires bytes_len_bound { length bytes.old ≤ piece_most }
    requires lines_most_in_bounds { lines_most ≤ length lines.old }
    ensures { Turned (parse plan.now) (state_in cells.old holds.old) unfinished.old lines.old result (state_in cells.new holds.new) unfinished.new bytes.new lines.new }
{
    let read = next(rt, &mut rt.reader(), bytes, UNREAD);
    let brought = read.unwrap_or(0);
    let fed = signalbox_feed(plan, cells, holds, unfinished, &bytes[..brought], lines);
    Exchange {
        read,
        written: fed.written,
    }
}
