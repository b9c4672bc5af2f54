// The lines that the program prints, each added to a text.
// Every function here is a leaf: the text has room for the longest line. A place or a count becomes a u64 by `as`: std has no `From` for it,
// and a `try_from` would add an unwrap that can never fail.
// `grid_line`, `refused_line` and `tracer_lines` are what the program calls.
#![tactic(auto)]

ghost use Rattle.std.specs.Prelude.{◌+◌, ◌*◌, ◌≤◌, length};
ghost use Rattle.whole.specs.Table.{blocks, at};
ghost use Rattle.rules.specs.Field.{faces};
ghost use Rattle.rules.specs.Program.{way_word, numbers_line, grid_line, face_line, total_line, refused_line, face_lines, tracer_lines};
ghost use Rattle.text.specs.Adds.{Adds, HasRoom};

use field_layout::Grid;
use rules::{Shape, Way};
use text::Text;

// A line of a word and three numbers.
fn numbers_line(text: &mut Text, word: &[u8], x: u64, y: u64, z: u64)
    requires { HasRoom (length word.now + 63) text.old }
    ensures { Adds (length word.now + 63) (numbers_line word.now x y z) text.old text.new }
{
    text.put(word);
    text.number(x);
    text.put(b" ");
    text.number(y);
    text.put(b" ");
    text.number(z);
    text.newline();
}

// The line of the grid: nx, ny and how many tracers.
pub fn grid_line(text: &mut Text, shape: Shape)
    requires { HasRoom 68 text.old }
    ensures { Adds 68 (grid_line shape) text.old text.new }
{
    numbers_line(
        text,
        b"grid ",
        shape.nx as u64,
        shape.ny as u64,
        shape.tracers as u64,
    );
}

// The line of a refusal: its number, which is all that the line prints.
pub fn refused_line(text: &mut Text, n: u8)
    requires { HasRoom 29 text.old }
    ensures { Adds 29 (refused_line n) text.old text.new }
{
    text.put(b"refused ");
    text.number(u64::from(n));
    text.newline();
}

// The line of one face of element (i, j): its tracer, which way it looks, i, j and its limited flux.
fn face_line(text: &mut Text, tracer: usize, way: Way, i: usize, j: usize, flux: i32)
    requires { HasRoom 96 text.old }
    ensures { Adds 96 (face_line tracer way i j flux) text.old text.new }
{
    text.put(b"face ");
    text.number(tracer as u64);
    way_word(text, way);
    text.number(i as u64);
    text.put(b" ");
    text.number(j as u64);
    text.put(b" ");
    text.signed(flux);
    text.newline();
}

// Which way a face looks, between spaces.
fn way_word(text: &mut Text, way: Way)
    requires { HasRoom 7 text.old }
    ensures { Adds 7 (way_word way) text.old text.new }
{
    match way {
        Way::East => text.put(b" east "),
        Way::North => text.put(b" north "),
    }
}

// The faces of row j that look one way, by their limited fluxes.
fn face_row(text: &mut Text, tracer: usize, way: Way, j: usize, row: &[i32])
    requires { HasRoom (length row.now * 96) text.old }
    ensures { Adds (length row.now * 96) (blocks (length row.now) (λ i. face_line tracer way i j (at row.now i))) text.old text.new }
{
    for (i, &flux) in row.iter().enumerate() {
        face_line(text, tracer, way, i, j, flux);
    }
}

// The line of a tracer: its total, and its step's clipped mass.
fn total_line(text: &mut Text, tracer: usize, total: u64, clipped: u64)
    requires { HasRoom 69 text.old }
    ensures { Adds 69 (total_line tracer total clipped) text.old text.new }
{
    numbers_line(text, b"total ", tracer as u64, total, clipped);
}

// The report of a tracer's step, in which every face of the grid has a place.
#[derive(Clone, Copy)]
pub(crate) struct TracerReport<'a> {
    report: &'a [i32],
    grid: Grid,
    tracer: usize,
    ghost complete: { faces grid.shape ≤ length report.now },
}

impl TracerReport<'_> {
    // All faces that look one way, a half of the report, row by row.
    fn face_lines(&self, text: &mut Text, way: Way)
        requires { HasRoom (self.now.grid.shape.ny * (self.now.grid.shape.nx * 96)) text.old }
        ensures { Adds (self.now.grid.shape.ny * (self.now.grid.shape.nx * 96)) (face_lines self.now.grid.shape self.now.tracer way self.now.report.now) text.old text.new }
    {
        let n = self.grid.elements();
        let start = match way {
            Way::East => 0,
            Way::North => n,
        };
        let half = &self.report[start..start + n];
        for (j, row) in half.chunks_exact(self.grid.shape.nx).enumerate() {
            face_row(text, self.tracer, way, j, row);
        }
    }
}

// What is printed of a tracer after its step: its east faces, its north faces, and its total with the step's clipped mass.
pub fn tracer_lines(
    text: &mut Text,
    grid: Grid,
    tracer: usize,
    report: &[i32],
    total: u64,
    clipped: u64,
)
    requires shape_in_bounds { faces grid.shape ≤ length report.now }
    requires room { HasRoom (2 * (grid.shape.ny * (grid.shape.nx * 96)) + 69) text.old }
    ensures { Adds (2 * (grid.shape.ny * (grid.shape.nx * 96)) + 69) (tracer_lines grid.shape tracer report.now total clipped) text.old text.new }
{
    let faces = TracerReport {
        report,
        grid,
        tracer,
    };
    faces.face_lines(text, Way::East);
    faces.face_lines(text, Way::North);
    total_line(text, tracer, total, clipped);
}
