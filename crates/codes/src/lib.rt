// Each outcome as one number of 64 bits, by the definitions of specs/Codes.antt.
#![tactic(auto)]

ghost use Rattle.std.specs.Prelude.{◌≡◌, ◌+◌, ◌*◌, ◌%◌, [], ◌∷◌};
ghost use Rattle.events.specs.declared.Answer.TheVariants.{Refused, Accident, Done};
ghost use Rattle.codes.specs.Codes.{packed, answer_code, form_code, verdict_code, written_code};

use events::{Answer, Deed, Harm, Refusal};
use reading::Form;
use rules::Broken;
use writing::Unwritten;

// There is too little room for what is to be written.
pub const NO_ROOM: u64 = 6;

// The lowest byte of a value.
fn byte(value: usize) -> u8
    ensures { result ≡ value % 256 }
{
    (value % 256) as u8
}

// A number and three values, a byte each.
fn pack(number: usize, first: usize, second: usize, third: usize) -> u64
    ensures { result ≡ packed (number ∷ first ∷ second ∷ third ∷ []) }
{
    let bytes = [byte(number), byte(first), byte(second), byte(third)];
    u64::from(u32::from_le_bytes(bytes))
}

// A refusal: what the document names are its values.
pub fn refusal_code(refusal: Refusal) -> u64
    ensures { result ≡ answer_code (Refused refusal) }
{
    let number = refusal.number();
    match refusal {
        Refusal::Occupied(track, train) => pack(number, track, usize::from(train), 0),
        Refusal::Held(named) | Refusal::HomeOccupied(named) | Refusal::Red(named) => {
            pack(number, named, 0, 0)
        }
        _ => pack(number, 0, 0, 0),
    }
}

fn harm_code(harm: Harm) -> u64
    ensures { result ≡ answer_code (Accident harm) }
{
    let number = harm.number();
    match harm {
        Harm::Collision(track) | Harm::RunThrough(track) => pack(number, track, 0, 0),
        Harm::Derailment(point) => pack(number, point, 0, 0),
    }
}

// A deed: the route, or the train and its tracks.
fn deed_code(deed: Deed) -> u64
    ensures { result ≡ answer_code (Done deed) }
{
    let number = deed.number();
    match deed {
        Deed::Granted(route) | Deed::Cancelled(route) => pack(number, route, 0, 0),
        Deed::Entered { train, track } | Deed::Left { train, from: track } => {
            pack(number, usize::from(train), track, 0)
        }
        Deed::Moved { train, from, to } => pack(number, usize::from(train), from, to),
    }
}

// An answer of any kind.
pub fn answer_code(answer: Answer) -> u64
    ensures { result ≡ answer_code answer }
{
    match answer {
        Answer::Refused(refusal) => refusal_code(refusal),
        Answer::Accident(harm) => harm_code(harm),
        Answer::Done(deed) => deed_code(deed),
    }
}

// A form: its number, then its offset.
pub fn form_code(form: Form) -> u64
    ensures { result ≡ form_code form }
{
    offset_code(byte(form.number()), form.offset())
}

fn offset_code(number: u8, at: usize) -> u64
    ensures { result ≡ number + 256 * (at % 65536) }
{
    u64::from(number) + (at % 65536) as u64 * 256
}

// What comes of writing: its number, then the length of the file.
pub fn written_code(written: Result<usize, Unwritten>) -> u64
    ensures { result ≡ written_code written }
{
    match written {
        Err(why) => why.number() as u64,
        Ok(size) => offset_code(120, size),
    }
}

// A verdict: the number of the rule and its row.
pub fn verdict_code(verdict: Result<(), Broken>) -> u64
    ensures { result ≡ verdict_code verdict }
{
    match verdict {
        Ok(()) => 200,
        Err(Broken { rule, row }) => pack(200 + rule % 256, row, 0, 0),
    }
}
