// The checks of a writing. Leaves of `write`.
ghost use Rattle.std.specs.Prelude.{◌≡◌, ◌&&◌, ◌≤◌, leb, length};
ghost use Rattle.rules.specs.Answers.{answered};
ghost use Rattle.rules.specs.Field.{quadratic, faces, field_length};
ghost use Rattle.rules.specs.declared.Mark.TheVariants.{Plu2};
ghost use Rattle.rules.specs.FieldFile.{file_length, field_sound, write_reply};

use field_layout::Grid;
use rules::Refusal;

// Whether buffers of these lengths are long enough. A step asks for another list, of which this has two lengths: one function for both would take
// a list and be no plainer.
fn lent_enough(field: usize, wind: usize, file: usize, grid: Grid) -> bool
    ensures { result ≡ (leb (field_length quadratic grid.shape) field && (leb (faces grid.shape) wind && leb (file_length quadratic Plu2 grid.shape) file)) }
{
    grid.field_length() <= field
        && grid.faces() <= wind
        && crate::layout(grid).file_length() <= file
}

// Whether every tracer is sound. One chain; of a file's sections (file_reading) it is a loop, which keeps their totals.
fn tracers_sound(field: &[u32], grid: Grid) -> bool
    requires { field_length quadratic grid.shape ≤ length field.now }
    ensures { result ≡ field_sound quadratic grid.shape field.now }
{
    field[..grid.field_length()]
        .chunks_exact(grid.part_length())
        .all(|part| field_search::part_sum(part, grid).is_ok())
}

// The checks of a writing on a grid: 4, 5 and 6.
pub(crate) fn check(file: &[u8], field: &[u32], wind: &[i16], grid: Grid) -> Result<u64, Refusal>
    ensures { answered result ≡ write_reply quadratic grid.shape field.now wind.now file.now }
{
    if !lent_enough(field.len(), wind.len(), file.len(), grid) {
        return Err(Refusal::ShortBuffer);
    }
    if !field_search::winds_sound(wind, grid) {
        return Err(Refusal::WindOutOfRange);
    }
    if !tracers_sound(field, grid) {
        return Err(Refusal::UnsoundTracer);
    }
    // `as`: std has no `From` of usize for u64, and `try_from` would want an `unwrap` that never fails.
    Ok(crate::layout(grid).file_length() as u64)
}
