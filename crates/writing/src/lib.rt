// Writing a plan in memory as its file, with the answers 7 and 6.
#![tactic(auto)]

mod sections;
mod size;

ghost use Rattle.std.specs.Prelude.{◌≡◌, length};
ghost use Rattle.writing.specs.Writing.{after_writing, unwritten_number, written};

use images::stands;
use plan::limits::IMAGE;
use sections::write_sections;
use size::file_size;

// Why nothing is written: no file reads as the plan in memory (7), or there is too little room (6).
#[derive(Clone, Copy)]
pub enum Unwritten {
    NoFile,
    NoRoom,
}

impl Unwritten {
    pub fn number(self) -> usize
        ensures { result ≡ unwritten_number self }
    {
        match self {
            Self::NoFile => 7,
            Self::NoRoom => 6,
        }
    }
}

// The answer for so much room. It looks, and can't write.
#[tactic(auto, unfolding(crate::specs::Writing::written, crate::specs::Writing::file_in))]
fn judged(image: &[u8; IMAGE], room: usize) -> Result<usize, Unwritten>
    ensures { result ≡ written image.now room }
{
    if !stands(image) {
        return Err(Unwritten::NoFile);
    }
    let size = file_size(image);
    if room < size {
        return Err(Unwritten::NoRoom);
    }
    Ok(size)
}

// Writes the file at the front of the lent memory, and leaves what is past it. A refusal leaves all of it.
pub fn write(image: &[u8; IMAGE], out: &mut [u8]) -> Result<usize, Unwritten>
    ensures { (result ≡ written image.now (length out.old)) × (out.new ≡ after_writing image.now (written image.now (length out.old)) out.old) }
{
    let size = judged(image, out.len())?;
    write_sections(image, out);
    Ok(size)
}
