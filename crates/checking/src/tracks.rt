// Rules 1 to 3, whose rows are tracks.
ghost use Rattle.std.specs.Prelude.{◌≡◌, true, false, not, cond, ◌&&◌, eqb, length};
ghost use Rattle.laws.specs.Search.{lowest};
ghost use Rattle.plan.specs.Kinds.{forks, legged, out, leg};
ghost use Rattle.plan.specs.Image.{plan_of};
ghost use Rattle.plan.specs.Records.{track_of};
ghost use Rattle.rules.specs.Rules.{ways_differ, legs_lead, is_leg, none_leads, led_once};

use layout::{is_forking, is_legged, leads_to, leg_of, way_out};
use plan::image::tracks;
use plan::limits::IMAGE;

// Whether a facing point has one way out for both lies.
fn ways_meet(image: &[u8; IMAGE], track: usize) -> bool
    ensures { result ≡ (forks (track_of (plan_of image.now) track) && eqb (out (track_of (plan_of image.now) track) false) (out (track_of (plan_of image.now) track) true)) }
{
    is_forking(image, track) && way_out(image, track, false) == way_out(image, track, true)
}

// Whether a trailing point has one leg for both lies.
fn legs_meet(image: &[u8; IMAGE], track: usize) -> bool
    ensures { result ≡ (legged (track_of (plan_of image.now) track) && eqb (leg (track_of (plan_of image.now) track) false) (leg (track_of (plan_of image.now) track) true)) }
{
    is_legged(image, track) && leg_of(image, track, false) == leg_of(image, track, true)
}

#[tactic(auto, unfolding(rules::specs::Rules::ways_differ))]
pub fn ways_differ(image: &[u8; IMAGE], track: usize) -> bool
    ensures { result ≡ ways_differ (plan_of image.now) track }
{
    !ways_meet(image, track) && !legs_meet(image, track)
}

#[tactic(auto, unfolding(rules::specs::Rules::legs_lead))]
pub fn legs_lead(image: &[u8; IMAGE], track: usize) -> bool
    ensures { result ≡ legs_lead (plan_of image.now) track }
{
    !is_legged(image, track)
        || leads_to(image, leg_of(image, track, false), track)
            && leads_to(image, leg_of(image, track, true), track)
}

#[tactic(auto, unfolding(rules::specs::Rules::is_leg))]
fn is_leg(image: &[u8; IMAGE], point: usize, track: usize) -> bool
    ensures { result ≡ is_leg (plan_of image.now) point track }
{
    leg_of(image, point, false) == track || leg_of(image, point, true) == track
}

// Whether a track that leads to another must not, given whether no lower one does.
fn misleads(image: &[u8; IMAGE], to: usize, from: usize, first: bool) -> bool
    ensures { result ≡ cond (legged (track_of (plan_of image.now) to)) (not (is_leg (plan_of image.now) to from)) (not first) }
{
    if is_legged(image, to) {
        !is_leg(image, to, from)
    } else {
        !first
    }
}

// The lowest track to which a track leads that must not: the pairs are left at the first that is forbidden.
pub fn first_pair(image: &[u8; IMAGE]) -> Option<usize>
    ensures { result ≡ lowest (length (plan_of image.now).tracks) (λ v. not (led_once (plan_of image.now) v)) }
{
    let count = tracks(image);
    let mut row = None;
    'pairs: for to in 0..count {
        let mut first = true;
        for from in 0..count {
            if !leads_to(image, from, to) {
                continue;
            }
            if misleads(image, to, from, first) {
                row = Some(to);
                break 'pairs;
            }
            first = false;
        }
    }
    row
}

// Whether no track leads to this one.
pub fn none_leads(image: &[u8; IMAGE], to: usize) -> bool
    ensures { result ≡ none_leads (plan_of image.now) to (length (plan_of image.now).tracks) }
{
    (0..tracks(image)).all(|from| !leads_to(image, from, to))
}
