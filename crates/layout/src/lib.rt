// How the tracks of a plan in memory lie, by the definitions of the plan's Layout.
#![tactic(auto, unfolding(plan::specs::Layout::leads, plan::specs::Layout::is_home, plan::specs::Records::home_of))]

ghost use Rattle.std.specs.Prelude.{◌≡◌};
ghost use Rattle.plan.specs.Records.{home_of, track_of};
ghost use Rattle.plan.specs.Kinds.{plain, exit, forks, legged, out, leg};
ghost use Rattle.plan.specs.Layout.{leads, is_home};
ghost use Rattle.plan.specs.Image.{plan_of};

use lists::has;
use plan::image::{homes, track_of};
use plan::limits::IMAGE;

pub fn is_plain(image: &[u8; IMAGE], track: usize) -> bool
    ensures { result ≡ plain (track_of (plan_of image.now) track) }
{
    track_of(image, track).plain()
}

pub fn is_exit(image: &[u8; IMAGE], track: usize) -> bool
    ensures { result ≡ exit (track_of (plan_of image.now) track) }
{
    track_of(image, track).exit()
}

pub fn is_forking(image: &[u8; IMAGE], track: usize) -> bool
    ensures { result ≡ forks (track_of (plan_of image.now) track) }
{
    track_of(image, track).forks()
}

pub fn is_legged(image: &[u8; IMAGE], track: usize) -> bool
    ensures { result ≡ legged (track_of (plan_of image.now) track) }
{
    track_of(image, track).legged()
}

// The way out of a track for a lie: false normal, true reverse.
pub fn way_out(image: &[u8; IMAGE], track: usize, lie: bool) -> usize
    ensures { result ≡ out (track_of (plan_of image.now) track) lie }
{
    track_of(image, track).out(lie)
}

// The leg of a trailing point for a lie.
pub fn leg_of(image: &[u8; IMAGE], track: usize, lie: bool) -> usize
    ensures { result ≡ leg (track_of (plan_of image.now) track) lie }
{
    track_of(image, track).leg(lie)
}

pub fn leads_to(image: &[u8; IMAGE], from: usize, to: usize) -> bool
    ensures { result ≡ leads (plan_of image.now) from to }
{
    let t = track_of(image, from);
    !t.exit() && (t.out(false) == to || t.out(true) == to)
}

// The home of a signal.
pub fn home_of(image: &[u8; IMAGE], signal: usize) -> usize
    ensures { result ≡ home_of (plan_of image.now) signal }
{
    homes(image)
        .get(signal)
        .map_or(0, |home| usize::from(*home))
}

pub fn is_home(image: &[u8; IMAGE], track: usize) -> bool
    ensures { result ≡ is_home (plan_of image.now) track }
{
    has(homes(image), track)
}
