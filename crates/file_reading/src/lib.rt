// The call that answers a field file.
// A call has no `requires`: what document 01 doesn't admit is refused by its number, and a refused call writes nothing.
#![tactic(auto)]

ghost use Rattle.std.specs.Prelude.{◌≡◌, ◌*◌, ◌≤◌, true, length};
ghost use Rattle.whole.specs.Table.{overwrite};
ghost use Rattle.rules.specs.Field.{quadratic, faces, field_length};
ghost use Rattle.rules.specs.FieldFile.{section_length, file_length, file_wind, file_field, field_sound, ReadGives};
ghost use Rattle.rules.specs.Answers.{answers};
ghost use Rattle.file_sections.specs.Numbers.{winds_of, parts_of_sections};
ghost use Rattle.file_reading.specs.Reading.{AreTotals};

use field_layout::Grid;
use file_layout::Layout;
use file_sections::part;
use rules::{Refusal, Shape};

mod checks; // checks.rt: the checks that need the shape
mod tail; // tail.rt: the last 12 bytes

// The wind section, and the tracers' sections one after the other, in a file of the right length.
fn sections(file: &[u8], layout: Layout) -> (&[u8], &[u8])
    requires { length file.now ≡ file_length quadratic layout.mark layout.grid.shape }
    ensures winds_length { length result.0.now ≡ 2 * faces layout.grid.shape }
    ensures winds { winds_of result.0.now (faces layout.grid.shape) ≡ file_wind layout.grid.shape file.now }
    ensures tracers_length { length result.1.now ≡ layout.grid.shape.tracers * (4 * section_length quadratic layout.mark layout.grid.shape) }
    ensures tracers { parts_of_sections layout.mark layout.grid.shape result.1.now ≡ file_field quadratic layout.mark layout.grid.shape file.now }
{
    let tracers = layout.section_start(1);
    let table = layout.table_start();
    file[..table].split_at(tracers)
}

// Reads every tracer's section into its part of the field: each section as its own part of the file, which is document 01's form. The part
// is lent by its place: of what stands in parts that `chunks_exact_mut` has lent, a proof knows nothing afterwards.
fn read_tracers(sections: &[u8], totals: &[u64; checks::TRACERS], field: &mut [u32], layout: Layout)
    requires sections_len { length sections.now ≡ layout.grid.shape.tracers * (4 * section_length quadratic layout.mark layout.grid.shape) }
    requires sections_sound { field_sound quadratic layout.grid.shape (parts_of_sections layout.mark layout.grid.shape sections.now) ≡ true }
    requires sections_totals { AreTotals layout.grid.shape (parts_of_sections layout.mark layout.grid.shape sections.now) totals.now }
    requires shape_in_bounds { field_length quadratic layout.grid.shape ≤ length field.old }
    ensures { field.new ≡ overwrite 0 (parts_of_sections layout.mark layout.grid.shape sections.now) field.old }
{
    let n = layout.grid.part_length();
    let mut to = 0;
    for (s, section) in sections
        .chunks_exact(4 * layout.section_length())
        .enumerate()
    {
        part::read_summed(section, totals[s], &mut field[to..to + n], layout);
        to += n;
    }
}

// Reads a file into field and wind, and answers its shape.
pub fn read(file: &[u8], field: &mut [u32], wind: &mut [i16]) -> Result<Shape, Refusal>
    ensures { ReadGives quadratic file.now field.old wind.old (answers result) field.new wind.new }
{
    let tail = tail::read_tail(file);
    // By let .. else, and by no `?`: document 01 names this form.
    let Ok(shape) = tail else {
        return tail;
    };
    let grid = Grid { shape };
    let mark = tail::read_mark(file);
    let layout = Layout { grid, mark };
    let totals = checks::check(file, field.len(), wind.len(), layout)?;
    let (winds, tracers) = sections(file, layout);
    file_sections::read_all(winds, &mut wind[..grid.faces()]);
    read_tracers(tracers, &totals, field, layout);
    Ok(shape)
}
