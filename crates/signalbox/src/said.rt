// An event played, and its answer as a line.
ghost use Rattle.std.specs.Prelude.{◌≡◌, ◌+◌, ◌≤◌, length};
ghost use Rattle.plan.specs.File.{Readable};
ghost use Rattle.plan.specs.Image.{plan_of};
ghost use Rattle.state.specs.Cells.{state_in};
ghost use Rattle.events.specs.Decide.{decided};
ghost use Rattle.events.specs.After.{after};
ghost use Rattle.lines.specs.Lines.{answer_line, line_most};
ghost use Rattle.laws.specs.Written.{Wrote};

use events::Event;
use lines::answer_line;
use plan::limits::{IMAGE, TRACKS};
use play::play;
use state::cells::CELLS;

// Hands back the offset after the line. Feeding and finishing say their answers here, so that playing and writing have one place.
pub fn say(
    image: &[u8; IMAGE],
    cells: &mut [u8; CELLS],
    holds: &mut [u64; TRACKS],
    event: Event,
    out: &mut [u8],
    at: usize,
) -> usize
    requires readable { Readable (plan_of image.now) }
    requires line_most_in_bounds { at + line_most ≤ length out.old }
    ensures { (state_in cells.new holds.new ≡ after (plan_of image.now) (state_in cells.old holds.old) (decided (plan_of image.now) (state_in cells.old holds.old) event)) × Wrote (answer_line (decided (plan_of image.now) (state_in cells.old holds.old) event)) out.old at out.new result }
{
    let answer = play(image, cells, holds, event);
    answer_line(answer, out, at)
}
