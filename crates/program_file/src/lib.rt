// What the programs share: the buffers that they lend, the reading of a file into them, and the text of a refusal.
#![tactic(auto)]

ghost use Rattle.std.specs.Prelude.{◌≤◌, length};
ghost use Rattle.rules.specs.Answers.{number, answers};
ghost use Rattle.rules.specs.Program.{refused_line};
ghost use Rattle.text.specs.Added.{Added};
ghost use Rattle.program_file.specs.FileTaken.{FileGives};

use rules::{Refusal, Shape};
use text::Text;

// "It lends buffers for exactly 128 elements and eight smokes".
pub const ELEMENTS: usize = 128;

pub const SMOKES: usize = 8;

// A file is read into the buffers, but one of more than 65,536 bytes is refused by 3, before any other check.
pub fn read(file: &[u8], field: &mut [u32], wind: &mut [i16]) -> Result<Shape, Refusal>
    ensures { FileGives file.now field.old wind.old (answers result) field.new wind.new }
{
    if 65536 < file.len() {
        return Err(Refusal::BadOffsets);
    }
    file_reading::read(file, field, wind)
}

// The line of a refusal at the front of the buffer. A leaf: there is room for it.
pub fn refusal(out: &mut [u8], r: Refusal) -> usize
    requires { 29 ≤ length out.old }
    ensures { Added 29 0 (refused_line (number r)) out.old out.new result }
{
    let mut text = Text::new(out);
    text_lines::refused_line(&mut text, r.into());
    text.len()
}
