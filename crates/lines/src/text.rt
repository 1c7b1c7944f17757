// Bytes one after the other into lent memory: each function hands back the offset after what it wrote.
ghost use Rattle.std.specs.Prelude.{◌++◌, ◌+◌, ◌<◌, ◌≤◌, length};
ghost use Rattle.lines.specs.Decimal.{decimal, number_most};
ghost use Rattle.lines.specs.Lines.{end, parts_line, parts_most};
ghost use Rattle.laws.specs.Written.{Wrote};

use itoa::Buffer;
use lists::put_bytes;

// The decimal digits of a number of any length, by the library. Few numbers of a line come here, so that it stands apart from those that are short.
#[inline(never)]
fn put_long(n: usize, out: &mut [u8], at: usize) -> usize
    requires { at + number_most ≤ length out.old }
    ensures { Wrote (decimal n) out.old at out.new result }
{
    let mut digits = Buffer::new();
    put_bytes(digits.format(n).as_bytes(), out, at)
}

// A number's decimal digits. Nearly all numbers of a line have one digit or two, and these are written here.
#[inline(always)]
fn put_decimal(n: usize, out: &mut [u8], at: usize) -> usize
    requires { at + number_most ≤ length out.old }
    ensures { Wrote (decimal n) out.old at out.new result }
{
    if n < 10 {
        out[at] = b'0' + n as u8;
        return at + 1;
    }
    if n < 100 {
        out[at] = b'0' + (n / 10) as u8;
        out[at + 1] = b'0' + (n % 10) as u8;
        return at + 2;
    }
    put_long(n, out, at)
}

// A word and a number.
#[inline(always)]
fn put_number(word: &[u8], n: usize, out: &mut [u8], at: usize) -> usize
    requires { at + (length word.now + number_most) ≤ length out.old }
    ensures { Wrote (word.now ++ decimal n) out.old at out.new result }
{
    let next = put_bytes(word, out, at);
    put_decimal(n, out, next)
}

// The end of a line.
pub fn put_end(out: &mut [u8], at: usize) -> usize
    requires { at < length out.old }
    ensures { Wrote end out.old at out.new result }
{
    out[at] = b'\n';
    at + 1
}

// A line of words, each with its number. Put where it is called, so that the length of each word is known there.
#[inline(always)]
pub fn put_line(parts: &[(&[u8], usize)], out: &mut [u8], at: usize) -> usize
    requires { at + parts_most parts.now ≤ length out.old }
    ensures { Wrote (parts_line parts.now) out.old at out.new result }
{
    let mut next = at;
    for (word, n) in parts {
        next = put_number(word, *n, out, next);
    }
    put_end(out, next)
}
