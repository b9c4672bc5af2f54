// What the program prints for a file, as bytes in a lent buffer.
#![tactic(auto)]

ghost use Rattle.std.specs.Prelude.{◌≡◌, ◌*◌, ◌+◌, ◌≤◌, length, take};
ghost use Rattle.io.specs.Counts.{IsPrefixLen};
ghost use Rattle.whole.specs.Table.{overwrite};
ghost use Rattle.rules.specs.Program.{stepped, up_to, printed, steps, output};
ghost use Rattle.text.specs.Adds.{HasRoom};
ghost use Rattle.output.specs.AddedLines.{tracer_room, AddedOrRefused, LinesOrRefused};

use field_layout::Grid;
use program_file::{ELEMENTS, SMOKES};
use rules::Refusal;
use rules::element::NUMBERS;
use text::Text;

// No text is longer.
const TEXT: usize = 200_000;

// The buffers that the program lends, which document 01 wants for exactly 128 elements and eight smokes: their types say how long they are.
#[derive(Drop)]
struct Buffers {
    field: [u32; SMOKES * (ELEMENTS * NUMBERS + 1)],
    wind: [i16; 2 * ELEMENTS],
    report: [i32; 2 * ELEMENTS],
    work: [i64; 64 * ELEMENTS],
}

impl Buffers {
    // Steps one tracer, and adds its lines to the text.
    fn tracer(&mut self, text: &mut Text, grid: Grid, tracer: usize) -> Result<(), Refusal>
        requires { HasRoom (tracer_room grid.shape) text.old }
        ensures same_wind { self.new.wind ≡ self.old.wind }
        ensures lines { AddedOrRefused (tracer_room grid.shape) (stepped grid.shape self.old.wind tracer self.old.field) self.new.field text.old text.new result }
    {
        let clipped = step::step(
            &mut self.field,
            &self.wind,
            &mut self.report,
            &mut self.work,
            grid.shape,
            tracer,
        )?;
        let total = field::total_on(&self.field, grid, tracer)?;
        text_lines::tracer_lines(text, grid, tracer, &self.report, total, clipped);
        Ok(())
    }

    // The line of the grid, and every tracer's lines after its step. Counted, since each tracer's number is handed on.
    fn tracers(&mut self, text: &mut Text, grid: Grid) -> Result<(), Refusal>
        requires { HasRoom (68 + grid.shape.tracers * tracer_room grid.shape) text.old }
        ensures { AddedOrRefused (68 + grid.shape.tracers * tracer_room grid.shape) (up_to grid.shape self.old.wind grid.shape.tracers self.old.field) self.new.field text.old text.new result }
    {
        text_lines::grid_line(text, grid.shape);
        for s in 0..grid.shape.tracers {
            self.tracer(text, grid, s)?;
        }
        Ok(())
    }

    // Reads the file, and adds the lines of its tracers to the text. The buffers are `print`'s own: only the text is used after this.
    fn lines(&mut self, file: &[u8], text: &mut Text) -> Result<(), Refusal>
        requires { HasRoom 200000 text.old }
        ensures { LinesOrRefused (printed steps file.now self.old.field self.old.wind) text.old text.new result }
    {
        let shape = program_file::read(file, &mut self.field, &mut self.wind)?;
        self.tracers(text, Grid { shape })
    }

    // The whole text at the front of `out`: the lines, or the refusal alone.
    fn fill(&mut self, file: &[u8], out: &mut [u8]) -> usize
        requires { 200000 ≤ length out.old }
        ensures upper_bound { result ≤ 200000 }
        ensures out_after { take result out.new ≡ printed steps file.now self.old.field self.old.wind }
    {
        let mut text = Text::new(out);
        match self.lines(file, &mut text) {
            Ok(()) => text.len(),
            Err(r) => program_file::refusal(out, r),
        }
    }
}

// What the program prints for a file, and its length. A leaf: the output has room for 200,000 bytes, which no text exceeds.
// `prefix_len` is there for `&out[..n]` at the caller.
pub fn print(file: &[u8], out: &mut [u8]) -> usize
    requires { 200000 ≤ length out.old }
    ensures value { result ≡ length (output file.now) }
    ensures prefix_len { IsPrefixLen result out.new }
    ensures out_after { out.new ≡ overwrite 0 (output file.now) out.old }
{
    let mut text = [0u8; TEXT];
    let mut buffers = Buffers {
        field: [0; SMOKES * (ELEMENTS * NUMBERS + 1)],
        wind: [0; 2 * ELEMENTS],
        report: [0; 2 * ELEMENTS],
        work: [0; 64 * ELEMENTS],
    };
    let n = buffers.fill(file, &mut text);
    out[..n].copy_from_slice(&text[..n]);
    n
}
