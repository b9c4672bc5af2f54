// The readings of a field: a tracer's total and an element's mass, as calls, and as leaves on the grid of an admitted shape; and the sum that a step and a
// map compare with the stored total.
ghost use Rattle.std.specs.Prelude.{◌≡◌, ◌≤◌, length};
ghost use Rattle.rules.specs.Answers.{answered, answers};
ghost use Rattle.rules.specs.Field.{quadratic, element, field_length, part, mass};
ghost use Rattle.rules.specs.Calls.{mass_reading, total_reading};
ghost use Rattle.field_layout.specs.Places.{Inside};
ghost use Rattle.field.specs.Leaves.{there_reply, sum_reading, mass_and_total_reading};

use field_elements::element;
use field_layout::Grid;
use field_search::{LARGEST_REMAINDER, LIMIT};
use rules::element::{NODES, NUMBERS};
use rules::{Refusal, Shape};

// A tracer's total.
pub fn total(field: &[u32], shape: Shape, tracer: usize) -> Result<u64, Refusal>
    ensures { answers result (total_reading quadratic shape tracer field.now) }
{
    let grid = Grid::try_from(shape)?;
    total_on(field, grid, tracer)
}

// An element's mass.
pub fn mass(field: &[u32], shape: Shape, tracer: usize, i: usize, j: usize) -> Result<u64, Refusal>
    ensures { answers result (mass_reading quadratic shape tracer i j field.now) }
{
    let grid = Grid::try_from(shape)?;
    Ok(mass_and_total(field, grid, tracer, i, j)?.mass)
}

// Whether the field has room and the tracer is there: 4 and 7. One that is not there has no numbers, so that 6 does not meet it.
fn there(field: &[u32], grid: Grid, tracer: usize) -> Result<(), Refusal>
    ensures { answered result ≡ there_reply grid.shape tracer (length field.now) }
{
    if field.len() < grid.field_length() {
        return Err(Refusal::ShortBuffer);
    }
    if grid.shape.tracers <= tracer {
        return Err(Refusal::NoSuchTracer);
    }
    Ok(())
}

// A tracer's total, as it is stored.
pub fn total_on(field: &[u32], grid: Grid, tracer: usize) -> Result<u64, Refusal>
    ensures { answers result (total_reading quadratic grid.shape tracer field.now) }
{
    there(field, grid, tracer)?;
    let total = u64::from(field[grid.total_at(tracer)]);
    if LIMIT < total {
        return Err(Refusal::UnsoundTracer);
    }
    Ok(total)
}

// The sum of a tracer, which has to be its stored total: 4, 6 and 7 of a step and of a map.
pub fn sum_on(field: &[u32], grid: Grid, tracer: usize) -> Result<u64, Refusal>
    ensures { answers result (sum_reading grid.shape tracer field.now) }
{
    there(field, grid, tracer)?;
    let start = grid.tracer_start(tracer);
    let end = start + grid.part_length();
    field_search::part_sum(&field[start..end], grid)
}

// What an emission, a withdrawal and the reading of an element's mass look at, beside the element's remainder: what it holds, and the stored total.
#[derive(Clone, Copy)]
pub struct MassAndTotal {
    pub total: u64,
    pub mass: u64,
}

// Both, of an element; their checks are 4, 6, 7 and 8. It takes no longer on a larger grid.
pub(crate) fn mass_and_total(
    field: &[u32],
    grid: Grid,
    tracer: usize,
    i: usize,
    j: usize,
) -> Result<MassAndTotal, Refusal>
    ensures { answers result (mass_and_total_reading grid.shape tracer i j field.now) }
{
    let total = total_on(field, grid, tracer)?;
    if !field_layout::on_grid(grid.shape, i, j) {
        return Err(Refusal::NoSuchElement);
    }
    let start = grid.element_start(tracer, i, j);
    if LARGEST_REMAINDER < u64::from(field[start + NODES]) {
        return Err(Refusal::UnsoundTracer);
    }
    let mass = element_mass(field, grid, tracer, i, j);
    if total < mass {
        return Err(Refusal::UnsoundTracer);
    }
    Ok(MassAndTotal { total, mass })
}

// The mass of an element that is there: the field has room.
pub fn element_mass(field: &[u32], grid: Grid, tracer: usize, i: usize, j: usize) -> u64
    requires inside { Inside grid.shape tracer i j }
    requires shape_in_bounds { field_length quadratic grid.shape ≤ length field.now }
    ensures { result ≡ mass quadratic (part quadratic grid.shape tracer field.now) (element grid.shape i j) }
{
    let at = grid.element_start(tracer, i, j);
    let end = at + NUMBERS;
    element::mass(&field[at..end])
}
