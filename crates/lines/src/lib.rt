// An answer, a verdict or a form as the line that is printed, written into lent memory.
#![tactic(auto, unfolding(crate::specs::Lines::parts_most))]

ghost use Rattle.std.specs.Prelude.{◌≡◌, ◌+◌, ◌≤◌, length};
ghost use Rattle.events.specs.declared.Answer.TheVariants.{Refused, Accident, Done};
ghost use Rattle.lines.specs.Lines.{answer_line, verdict_line, form_line, line_most};
ghost use Rattle.laws.specs.Written.{Wrote};

use events::{Answer, Deed, Harm, Refusal};
use lists::put_bytes;
use reading::Form;
use rules::Broken;
use text::{put_end, put_line};

mod text;

// The room that any line may need, as specs/Lines.antt has it: `line_most` ties the two.
pub const LINE: usize = 83;

pub fn line_most() -> usize
    ensures { result ≡ line_most }
{
    LINE
}

// A refusal: 13 names a track and the train on it, 16 a track, 14 a point, 19 a signal.
fn refusal_line(refusal: Refusal, out: &mut [u8], at: usize) -> usize
    requires { at + line_most ≤ length out.old }
    ensures { Wrote (answer_line (Refused refusal)) out.old at out.new result }
{
    let refused: (&[u8], usize) = (b"refused ", refusal.number());
    match refusal {
        Refusal::Occupied(track, train) => {
            let train = usize::from(train);
            put_line(
                &[refused, (b" track ", track), (b" train ", train)],
                out,
                at,
            )
        }
        Refusal::Held(point) => put_line(&[refused, (b" point ", point)], out, at),
        Refusal::HomeOccupied(track) => put_line(&[refused, (b" track ", track)], out, at),
        Refusal::Red(signal) => put_line(&[refused, (b" signal ", signal)], out, at),
        _ => put_line(&[refused], out, at),
    }
}

// An accident: 40 and 41 name a track, 42 a point.
fn harm_line(harm: Harm, out: &mut [u8], at: usize) -> usize
    requires { at + line_most ≤ length out.old }
    ensures { Wrote (answer_line (Accident harm)) out.old at out.new result }
{
    let accident: (&[u8], usize) = (b"accident ", harm.number());
    match harm {
        Harm::Collision(track) | Harm::RunThrough(track) => {
            put_line(&[accident, (b" track ", track)], out, at)
        }
        Harm::Derailment(point) => put_line(&[accident, (b" point ", point)], out, at),
    }
}

// A deed's line.
fn deed_line(deed: Deed, out: &mut [u8], at: usize) -> usize
    requires { at + line_most ≤ length out.old }
    ensures { Wrote (answer_line (Done deed)) out.old at out.new result }
{
    match deed {
        Deed::Granted(route) => put_line(&[(b"granted ", route)], out, at),
        Deed::Cancelled(route) => put_line(&[(b"cancelled ", route)], out, at),
        Deed::Entered { train, track } => {
            let train = usize::from(train);
            put_line(&[(b"entered ", train), (b" track ", track)], out, at)
        }
        Deed::Moved { train, from, to } => {
            let train = usize::from(train);
            put_line(
                &[(b"moved ", train), (b" from ", from), (b" to ", to)],
                out,
                at,
            )
        }
        Deed::Left { train, from } => {
            let train = usize::from(train);
            put_line(&[(b"left ", train), (b" from ", from)], out, at)
        }
    }
}

// An answer's line.
pub fn answer_line(answer: Answer, out: &mut [u8], at: usize) -> usize
    requires { at + line_most ≤ length out.old }
    ensures { Wrote (answer_line answer) out.old at out.new result }
{
    match answer {
        Answer::Refused(refusal) => refusal_line(refusal, out, at),
        Answer::Accident(harm) => harm_line(harm, out, at),
        Answer::Done(deed) => deed_line(deed, out, at),
    }
}

// A verdict's line.
pub fn verdict_line(verdict: Result<(), Broken>, out: &mut [u8], at: usize) -> usize
    requires { at + line_most ≤ length out.old }
    ensures { Wrote (verdict_line verdict) out.old at out.new result }
{
    match verdict {
        Ok(()) => {
            let next = put_bytes(b"accepted", out, at);
            put_end(out, next)
        }
        Err(Broken { rule, row }) => { put_line(&[(b"rule ", rule), (b" row ", row)], out, at) }
    }
}

// A form's line.
pub fn form_line(form: Form, out: &mut [u8], at: usize) -> usize
    requires { at + line_most ≤ length out.old }
    ensures { Wrote (form_line form) out.old at out.new result }
{
    put_line(
        &[(b"form ", form.number()), (b" at ", form.offset())],
        out,
        at,
    )
}
