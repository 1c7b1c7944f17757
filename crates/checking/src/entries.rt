// Rules 4, 5 and 12, whose rows are signals and entries.
ghost use Rattle.std.specs.Prelude.{◌≡◌};
ghost use Rattle.plan.specs.Image.{plan_of};
ghost use Rattle.rules.specs.Rules.{home_plain, entry_placed, entry_clear};

use crate::tracks::none_leads;
use layout::{home_of, is_home, is_plain};
use lists::has;
use plan::image::{entry_clear, entry_track};
use plan::limits::IMAGE;

#[tactic(auto, unfolding(rules::specs::Rules::home_plain))]
pub fn home_plain(image: &[u8; IMAGE], signal: usize) -> bool
    ensures { result ≡ home_plain (plan_of image.now) signal }
{
    is_plain(image, home_of(image, signal))
}

#[tactic(auto, unfolding(rules::specs::Rules::entry_placed))]
pub fn entry_placed(image: &[u8; IMAGE], entry: usize) -> bool
    ensures { result ≡ entry_placed (plan_of image.now) entry }
{
    let track = entry_track(image, entry);
    is_plain(image, track) && is_home(image, track) && none_leads(image, track)
}

#[tactic(auto, unfolding(rules::specs::Rules::entry_clear))]
pub fn entry_cleared(image: &[u8; IMAGE], entry: usize) -> bool
    ensures { result ≡ entry_clear (plan_of image.now) entry }
{
    has(entry_clear(image, entry), entry_track(image, entry))
}
