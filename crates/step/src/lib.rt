// The step of one tracer under the wind.
// The call has no `requires`: what document 01 doesn't admit is refused by its number, and a refused call writes nothing. Its buffers are lent one by
// one, as document 01 names them.
#![tactic(auto)]

ghost use Rattle.std.specs.Prelude.{◌≡◌, ◌&&◌, leb};
ghost use Rattle.rules.specs.Answers.{plain, answered, answers, AtMost};
ghost use Rattle.rules.specs.Field.{quadratic, faces, work_needed, field_length};
ghost use Rattle.rules.specs.Calls.{step, lengths_lent, call, StepGives};
ghost use Rattle.rules.specs.Sizes.{step_clipped_size};

use field_layout::Grid;
use rules::{Refusal, Shape};
use step_upwind::Winds;

mod tracer; // tracer.rt: the step on a tracer's part

// The numbers of work that a step needs.
fn work_needed(grid: Grid) -> usize
    ensures { result ≡ work_needed grid.shape }
{
    64 * grid.elements()
}

// Whether buffers of these lengths are long enough. A function of its own, as a file's writing has one: one list of lengths for both would be no
// plainer.
fn lent_enough(field: usize, wind: usize, report: usize, work: usize, grid: Grid) -> bool
    ensures { result ≡ (leb (field_length quadratic grid.shape) field && (leb (faces grid.shape) wind && (leb (faces grid.shape) report && leb (work_needed grid.shape) work))) }
{
    let faces = grid.faces();
    grid.field_length() <= field && faces <= wind && faces <= report && work_needed(grid) <= work
}

// The checks of a step on a grid, for a report and a work of these lengths: 4, 5, and then 6 and 7 by the sum of the tracer.
fn check(
    field: &[u32],
    wind: &[i16],
    report: usize,
    work: usize,
    grid: Grid,
    tracer: usize,
) -> Result<(), Refusal>
    ensures { answers result (plain (call quadratic grid.shape tracer (step (lengths_lent wind.now report work)) field.now).reply) }
{
    if !lent_enough(field.len(), wind.len(), report, work, grid) {
        return Err(Refusal::ShortBuffer);
    }
    if !field_search::winds_sound(wind, grid) {
        return Err(Refusal::WindOutOfRange);
    }
    field::sum_on(field, grid, tracer)?;
    Ok(())
}

// A step of one tracer: its elements and the face report. The clipped mass is answered, the sum over the elements; it is bounded because the C interface
// passes it as an i64.
pub fn step(
    field: &mut [u32],
    wind: &[i16],
    report: &mut [i32],
    work: &mut [i64],
    shape: Shape,
    tracer: usize,
) -> Result<u64, Refusal>
    ensures gives { StepGives quadratic shape tracer field.old wind.now report.old work.old (answers result) field.new report.new work.new }
    ensures bound { AtMost step_clipped_size (answered result) }
{
    let grid = Grid::try_from(shape)?;
    check(field, wind, report.len(), work.len(), grid, tracer)?;
    let start = grid.tracer_start(tracer);
    let end = start + grid.part_length();
    let faces = grid.faces();
    let needed = work_needed(grid);
    Ok(tracer::step(
        &mut field[start..end],
        Winds { wind, grid },
        &mut report[..faces],
        &mut work[..needed],
    ))
}
