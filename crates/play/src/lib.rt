// One event: the answer, and the state after it. Every way to play goes through here.
#![tactic(auto)]

ghost use Rattle.std.specs.Prelude.{◌≡◌};
ghost use Rattle.plan.specs.File.{Readable};
ghost use Rattle.plan.specs.Image.{plan_of};
ghost use Rattle.state.specs.Cells.{state_in};
ghost use Rattle.events.specs.Decide.{decided};
ghost use Rattle.events.specs.After.{after};

use act::act;
use decide::Junction;
use events::{Answer, Event};
use plan::limits::{IMAGE, TRACKS};
use state::cells::CELLS;

pub fn play(
    image: &[u8; IMAGE],
    cells: &mut [u8; CELLS],
    holds: &mut [u64; TRACKS],
    event: Event,
) -> Answer
    requires { Readable (plan_of image.now) }
    ensures { (result ≡ decided (plan_of image.now) (state_in cells.old holds.old) event) × (state_in cells.new holds.new ≡ after (plan_of image.now) (state_in cells.old holds.old) (decided (plan_of image.now) (state_in cells.old holds.old) event)) }
{
    let answer = Junction {
        image,
        cells,
        holds,
    }
    .decide(event);
    act(image, cells, holds, answer);
    answer
}
