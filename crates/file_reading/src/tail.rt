// The tail of a file: its last 12 bytes.
ghost use Rattle.std.specs.Prelude.{◌≡◌, ◌||◌, ◌≤◌, length};
ghost use Rattle.rules.specs.Answers.{answers};
ghost use Rattle.rules.specs.declared.Mark.TheVariants.{Plum, Plu2};
ghost use Rattle.rules.specs.FieldFile.{ends_with, tail_mark};
ghost use Rattle.file_reading.specs.Reading.{tail_reply};

use rules::{Mark, Refusal, Shape};

// Whether the file ends with a mark.
fn ends_with(file: &[u8], mark: Mark) -> bool
    requires { 12 ≤ length file.now }
    ensures { result ≡ ends_with mark file.now }
{
    file_layout::is_mark(&file[file.len() - 4..], mark)
}

// Whether it ends with one of the two.
fn marked(file: &[u8]) -> bool
    requires { 12 ≤ length file.now }
    ensures { result ≡ ends_with Plum file.now || ends_with Plu2 file.now }
{
    ends_with(file, Mark::Plum) || ends_with(file, Mark::Plu2)
}

// Reads the tail: the shape, or why there is none. "The reader starts at the end."
pub(crate) fn read_tail(file: &[u8]) -> Result<Shape, Refusal>
    ensures { answers result (tail_reply file.now) }
{
    let n = file.len();
    if n < 12 {
        return Err(Refusal::NoFieldFile);
    }
    if !marked(file) {
        return Err(Refusal::NoFieldFile);
    }
    if file[n - 9] != 0 {
        return Err(Refusal::NoFieldFile);
    }
    let shape = Shape {
        nx: usize::from(file[n - 12]),
        ny: usize::from(file[n - 11]),
        tracers: usize::from(file[n - 10]),
    };
    if !field_layout::admitted(shape) {
        return Err(Refusal::BadShape);
    }
    Ok(shape)
}

// The mark of a file whose tail was read.
pub(crate) fn read_mark(file: &[u8]) -> Mark
    requires { 12 ≤ length file.now }
    ensures { result ≡ tail_mark file.now }
{
    if ends_with(file, Mark::Plum) {
        Mark::Plum
    } else {
        Mark::Plu2
    }
}
