// A chain of tests: `?` after each hands back what the first that applies stops at.
ghost use Rattle.std.specs.Prelude.{◌≡◌};
ghost use Rattle.decide.specs.Chain.{ensured, stopped};

// A test of what has to be so.
pub fn ensure<E: Drop>(holds: bool, stop: E) -> Result<(), E>
    ensures { result ≡ ensured holds stop }
{
    if holds { Ok(()) } else { Err(stop) }
}

// A test that looks for what is in the way.
pub fn stop_at<E>(found: Option<E>) -> Result<(), E>
    ensures { result ≡ stopped found }
{
    match found {
        Some(stop) => Err(stop),
        None => Ok(()),
    }
}
