// Checking a plan: whether it is accepted, and which rule it breaks first.
#![tactic(auto)]

mod entries;
mod tracks;

ghost use Rattle.std.specs.Prelude.{◌≡◌, ℕ, Bool, not, Ok};
ghost use Rattle.laws.specs.Search.{lowest, unless};
ghost use Rattle.plan.specs.Image.{plan_of};
ghost use Rattle.rules.specs.Verdict.{broken, verdict};

use plan::limits::IMAGE;
use rules::Broken;

// The lowest broken rule of a plan with its lowest row. Each rule is a test of a row, but for the rule of the named form: its rows come from pairs of
// tracks.
pub fn check(image: &[u8; IMAGE]) -> Result<(), Broken>
    ensures { result ≡ verdict (plan_of image.now) }
{
    let tracks = plan::image::tracks(image);
    let signals = plan::image::signals(image);
    let routes = plan::image::routes(image);
    let entries = plan::image::entries(image);
    each(1, tracks, |track| tracks::ways_differ(image, track))?;
    each(2, tracks, |track| tracks::legs_lead(image, track))?;
    broken_by(3, tracks::first_pair(image))?;
    each(4, signals, |signal| entries::home_plain(image, signal))?;
    each(5, entries, |entry| entries::entry_placed(image, entry))?;
    each(6, routes, |route| routes::path_linked(image, route))?;
    each(7, routes, |route| routes::path_ends(image, route))?;
    each(8, routes, |route| routes::path_clear(image, route))?;
    each(9, routes, |route| routes::points_listed(image, route))?;
    each(10, routes, |route| routes::points_clear(image, route))?;
    each(11, routes, |route| routes::releases_fit(image, route))?;
    each(12, entries, |entry| entries::entry_cleared(image, entry))
}

// Whether each row keeps a rule; if not, the rule is broken by the lowest that does not.
fn each<F: Fn(usize) -> bool>(rule: usize, rows: usize, keeps: F) -> Result<(), Broken>
    requires { F.IsAlwaysCallable keeps }
    ensures { (test : ℕ → Bool) → ((row : ℕ) (kept : Bool) → F.post keeps row kept → kept ≡ test row) → result ≡ unless (lowest rows (λ i. not (test i))) (broken rule) (Ok tt) }
{
    broken_by(rule, (0..rows).find(|row| !keeps(*row)))
}

// A rule is broken by the row that is found, if there is one.
#[tactic(auto, unfolding(laws::specs::Search::unless))]
fn broken_by(rule: usize, row: Option<usize>) -> Result<(), Broken>
    ensures { result ≡ unless row (broken rule) (Ok tt) }
{
    match row {
        None => Ok(()),
        Some(row) => Err(Broken { rule, row }),
    }
}
