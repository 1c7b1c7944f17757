// What walks a list of numbers, whatever the list is of.
#![tactic(auto)]

ghost use Rattle.std.specs.Prelude.{◌≡◌, not, ◌+◌, ◌≤◌, ltb, length, drop};
ghost use Rattle.laws.specs.Lists.{all_of, has, different};
ghost use Rattle.laws.specs.Written.{Wrote};

// Whether a number stands in a list.
#[tactic(auto, unfolding(laws::specs::Lists::has))]
pub fn has(list: &[u8], x: usize) -> bool
    ensures { result ≡ has x list.now }
{
    list.iter().any(|y| usize::from(*y) == x)
}

// Whether the other list has every number of a list.
pub fn all_in(list: &[u8], other: &[u8]) -> bool
    ensures { result ≡ all_of (λ x. has x other.now) list.now }
{
    list.iter().all(|x| has(other, usize::from(*x)))
}

// Whether it has none.
pub fn none_in(list: &[u8], other: &[u8]) -> bool
    ensures { result ≡ all_of (λ x. not (has x other.now)) list.now }
{
    list.iter().all(|x| !has(other, usize::from(*x)))
}

// Whether every number of a list is below a limit.
pub fn all_below(list: &[u8], limit: usize) -> bool
    ensures { result ≡ all_of (λ x. ltb x limit) list.now }
{
    list.iter().all(|x| usize::from(*x) < limit)
}

// Whether no number stands twice in a list.
pub fn different(list: &[u8]) -> bool
    ensures { result ≡ different list.now }
{
    for (i, x) in list.iter().enumerate() {
        if has(&list[i + 1..], usize::from(*x)) {
            return false;
        }
    }
    true
}

// Whether there is nothing but one value from a place on. Most of a plan in memory is looked at here, so all of it is looked at, with no way out:
// many are taken at a time then.
pub fn only_from<T: PartialEq + Copy>(from: usize, list: &[T], value: T) -> bool
    ensures { result ≡ all_of (λ x. T.eq x value) (drop from list.now) }
{
    let rest = &list[from.min(list.len())..];
    rest.iter().fold(true, |only, x| only & (*x == value))
}

// Bytes into lent memory, from an offset on: hands back the offset after them. Not by `copy_from_slice`, for which the archive would need memmove of its
// host, and include/signalbox.h says that it doesn't.
pub fn put_bytes(list: &[u8], out: &mut [u8], at: usize) -> usize
    requires { at + length list.now ≤ length out.old }
    ensures { Wrote list.now out.old at out.new result }
{
    for i in 0..list.len() {
        out[at + i] = list[i];
    }
    at + list.len()
}
