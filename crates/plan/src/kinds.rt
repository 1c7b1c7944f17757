// The kinds of track, as specs/Kinds.antt has them. Nothing else looks at a kind.
#![tactic(auto, unfolding(crate::specs::Kinds::plain, crate::specs::Kinds::exit, crate::specs::Kinds::forks, crate::specs::Kinds::legged, crate::specs::Kinds::point, crate::specs::Kinds::out, crate::specs::Kinds::leg, crate::specs::Kinds::uses))]

ghost use Rattle.std.specs.Prelude.{◌≡◌, ◌≤◌, MatchResult};
ghost use Rattle.plan.specs.Kinds.{kinds, code_of, of_kind, uses, plain, exit, forks, legged, point, out, leg, no_track};

use crate::{Kind, NoKind, Track};

// How many kinds there are. Their codes are the numbers below.
pub const KINDS: usize = 4;

impl TryFrom<u8> for Kind {
    type Error = NoKind;

    ghost try_from_gives = { λ code r. MatchResult r (λ kind. code_of kind ≡ code) (λ _. kinds ≤ code) };

    fn try_from(code: u8) -> Result<Kind, NoKind> {
        match code {
            0 => Ok(Kind::Plain),
            1 => Ok(Kind::Facing),
            2 => Ok(Kind::Trailing),
            3 => Ok(Kind::Exit),
            _ => Err(NoKind),
        }
    }
}

impl Track {
    // A byte that is no kind's code makes the track one of no kind.
    fn is(self, kind: Kind) -> bool
        ensures { result ≡ of_kind self kind }
    {
        Kind::try_from(self.kind) == Ok(kind)
    }

    pub fn plain(self) -> bool
        ensures { result ≡ plain self }
    {
        self.is(Kind::Plain)
    }

    pub fn exit(self) -> bool
        ensures { result ≡ exit self }
    {
        self.is(Kind::Exit)
    }

    // Whether a track is left by its lie.
    pub fn forks(self) -> bool
        ensures { result ≡ forks self }
    {
        self.is(Kind::Facing)
    }

    // Whether a track is entered by its lie.
    pub fn legged(self) -> bool
        ensures { result ≡ legged self }
    {
        self.is(Kind::Trailing)
    }

    pub fn point(self) -> bool
        ensures { result ≡ point self }
    {
        self.forks() || self.legged()
    }

    // The way out of a track for a lie: false normal, true reverse.
    pub fn out(self, lie: bool) -> usize
        ensures { result ≡ out self lie }
    {
        if self.forks() && lie {
            usize::from(self.second)
        } else {
            usize::from(self.first)
        }
    }

    // The leg of a track for a lie.
    pub fn leg(self, lie: bool) -> usize
        ensures { result ≡ leg self lie }
    {
        if lie {
            usize::from(self.third)
        } else {
            usize::from(self.second)
        }
    }
}

// How many of its numbers a kind uses.
pub fn uses(kind: u8) -> usize
    ensures { result ≡ uses kind }
{
    match Kind::try_from(kind) {
        Ok(Kind::Plain) => 1,
        Ok(Kind::Facing) => 2,
        Ok(Kind::Trailing) => 3,
        Ok(Kind::Exit) | Err(NoKind) => 0,
    }
}

// What stands for a track that there isn't: an exit.
pub fn no_track() -> Track
    ensures { result ≡ no_track }
{
    Track {
        kind: Kind::Exit as u8,
        first: 0,
        second: 0,
        third: 0,
    }
}
