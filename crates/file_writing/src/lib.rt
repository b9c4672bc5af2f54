// The call that writes a field file.
// A call has no `requires`: what document 01 doesn't admit is refused by its number, and a refused call writes nothing. Its buffers are lent one by
// one, as document 01 names them.
#![tactic(auto)]

ghost use Rattle.std.specs.Prelude.{◌≡◌, ◌*◌, ◌+◌, ◌^◌, ◌≤◌, ◌<◌, length};
ghost use Rattle.whole.specs.Table.{blocks, overwrite};
ghost use Rattle.rules.specs.Field.{quadratic, faces, field_length};
ghost use Rattle.rules.specs.Bytes.{bytes32};
ghost use Rattle.rules.specs.declared.Mark.TheVariants.{Plu2};
ghost use Rattle.rules.specs.FieldFile.{section_start, file_length, tail, file_of, WriteGives};
ghost use Rattle.rules.specs.Answers.{answers};

use field_layout::Grid;
use file_layout::{Layout, PLU2};
use file_numbers::Stored;
use rules::{Mark, Refusal, Shape};

mod checks; // checks.rt: the checks of a writing

// The layout of what is written: "PLU2" alone is (document 02, 2026-06).
fn layout(grid: Grid) -> Layout
    ensures same_grid { result.grid ≡ grid }
    ensures mark { result.mark ≡ Plu2 }
{
    Layout {
        grid,
        mark: Mark::Plu2,
    }
}

// Writes a place of the file over the first four bytes.
fn write_place(to: &mut [u8], place: usize)
    requires room { 4 ≤ length to.old }
    requires small { place < 2 ^ 32 }
    ensures { to.new ≡ overwrite 0 (bytes32 place) to.old }
{
    // `as`: it is proved to lose nothing, and `try_from` would want an `unwrap` that never fails.
    let number = place as u32;
    number.write(to);
}

// Writes the table of offsets. An offset's bytes are lent by number: of what stands in parts that `chunks_exact_mut` has lent, a proof knows
// nothing afterwards.
fn write_table(table: &mut [u8], grid: Grid)
    requires { 4 * (grid.shape.tracers + 1) ≤ length table.old }
    ensures { table.new ≡ overwrite 0 (blocks (grid.shape.tracers + 1) (λ i. bytes32 (section_start quadratic Plu2 grid.shape i))) table.old }
{
    let layout = layout(grid);
    let n = grid.shape.tracers + 1;
    for i in 0..n {
        write_place(&mut table[4 * i..], layout.section_start(i));
    }
}

// Writes the tail: the shape, a byte 0, the table's offset and the mark.
fn write_tail(out: &mut [u8], grid: Grid)
    requires { length out.old ≡ 12 }
    ensures { out.new ≡ tail quadratic Plu2 grid.shape }
{
    // `as`: as in `write_place`; a grid has at most 64 columns and rows and eight tracers.
    out[..4].copy_from_slice(&[
        grid.shape.nx as u8,
        grid.shape.ny as u8,
        grid.shape.tracers as u8,
        0,
    ]);
    write_place(&mut out[4..], layout(grid).table_start());
    out[8..].copy_from_slice(&PLU2);
}

// Writes the file of a field and a wind that have passed the checks: the wind's section, the tracers' sections, which stand one after
// the other like their parts of the field, the table, the tail.
fn write_parts(file: &mut [u8], field: &[u32], wind: &[i16], grid: Grid)
    requires shape_in_bounds { file_length quadratic Plu2 grid.shape ≤ length file.old }
    requires shape_in_bounds_2 { field_length quadratic grid.shape ≤ length field.now }
    requires shape_in_bounds_3 { faces grid.shape ≤ length wind.now }
    ensures { file.new ≡ overwrite 0 (file_of quadratic Plu2 grid.shape field.now wind.now) file.old }
{
    let layout = layout(grid);
    let (sections, rest) = file.split_at_mut(layout.table_start());
    let (winds, tracers) = sections.split_at_mut(layout.section_start(1));
    let (table, tail) = rest.split_at_mut(4 * (grid.shape.tracers + 1));
    file_sections::write_all(winds, &wind[..grid.faces()]);
    file_sections::write_all(tracers, &field[..grid.field_length()]);
    write_table(table, grid);
    write_tail(&mut tail[..12], grid);
}

// Writes a field and a wind of this shape to a file, and answers its length in bytes.
pub fn write(file: &mut [u8], field: &[u32], wind: &[i16], shape: Shape) -> Result<u64, Refusal>
    ensures { WriteGives quadratic shape field.now wind.now file.old (answers result) file.new }
{
    let grid = Grid::try_from(shape)?;
    let n = checks::check(file, field, wind, grid)?;
    write_parts(file, field, wind, grid);
    Ok(n)
}
