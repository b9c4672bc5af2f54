// The calls on a field: emission, withdrawal, load, fresh and wind here, the readings in readings.rt.
// A call has no `requires`: what document 01 doesn't admit is refused by its number, and a refused call writes nothing.
// It is lent shape, tracer, i and j one by one, as document 01 names them: each may be wrong, with a refusal of its own. Two functions ask
// for an element that is there and one for a face (`Inside`); a type for it would be made and taken apart again beside each of them.
#![tactic(auto)]

ghost use Rattle.std.specs.Prelude.{◌≡◌, ◌+◌, ◌*◌, ◌≤◌, ◌<◌, length};
ghost use Rattle.std.proofs.Math.ListN.{set};
ghost use Rattle.rules.specs.Field.{quadratic, elements_length, part_length, field_length, limit};
ghost use Rattle.rules.specs.Calls.{load, emission, withdrawal, CallGives, FreshGives, WindGives, one_face};
ghost use Rattle.rules.specs.Answers.{answers};

use field_elements::{element, fill};
use field_layout::Grid;
use field_search::LIMIT;
use rules::element::{NODES, NUMBERS};
use rules::{Face, Refusal, Shape};

mod readings; // readings.rt: an element's mass, a tracer's total and its sum

pub use readings::{element_mass, mass, sum_on, total, total_on};

// Stores a tracer's total. `as`: it is proved to lose nothing, and `try_from` would want an `unwrap` that never fails.
fn store_total(field: &mut [u32], grid: Grid, tracer: usize, total: u64)
    requires there { tracer < grid.shape.tracers }
    requires room { field_length quadratic grid.shape ≤ length field.old }
    requires small { total ≤ limit }
    ensures { field.new ≡ set field.old (tracer * part_length quadratic grid.shape + elements_length quadratic grid.shape) total }
{
    field[grid.total_at(tracer)] = total as u32;
}

// Emission of q into element (i, j) of a tracer. The clipped mass is answered.
pub fn emission(
    field: &mut [u32],
    shape: Shape,
    tracer: usize,
    i: usize,
    j: usize,
    q: u64,
) -> Result<u64, Refusal>
    ensures { CallGives quadratic shape tracer (emission i j q) field.old (answers result) field.new }
{
    let grid = Grid::try_from(shape)?;
    let named = readings::mass_and_total(field, grid, tracer, i, j)?;
    if LIMIT - named.total < q {
        return Err(Refusal::TotalAboveLimit);
    }
    let start = grid.element_start(tracer, i, j);
    let end = start + NUMBERS;
    let clipped = element::emit(&mut field[start..end], q);
    store_total(field, grid, tracer, named.total + q);
    Ok(clipped)
}

// Withdrawal of q from element (i, j) of a tracer. The clipped mass is answered.
pub fn withdrawal(
    field: &mut [u32],
    shape: Shape,
    tracer: usize,
    i: usize,
    j: usize,
    q: u64,
) -> Result<u64, Refusal>
    ensures { CallGives quadratic shape tracer (withdrawal i j q) field.old (answers result) field.new }
{
    let grid = Grid::try_from(shape)?;
    let named = readings::mass_and_total(field, grid, tracer, i, j)?;
    if named.mass < q {
        return Err(Refusal::MassTooSmall);
    }
    let start = grid.element_start(tracer, i, j);
    let end = start + NUMBERS;
    let clipped = element::withdraw(&mut field[start..end], q);
    store_total(field, grid, tracer, named.total - q);
    Ok(clipped)
}

// Load: nine numbers for each element of a tracer; every element is replaced, and the stored total is their sum.
pub fn load(field: &mut [u32], numbers: &[u32], shape: Shape, tracer: usize) -> Result<(), Refusal>
    ensures { CallGives quadratic shape tracer (load numbers.now) field.old (answers result) field.new }
{
    let grid = Grid::try_from(shape)?;
    if field.len() < grid.field_length() {
        return Err(Refusal::ShortBuffer);
    }
    let n = grid.elements();
    if numbers.len() < n * NODES {
        return Err(Refusal::ShortBuffer);
    }
    if grid.shape.tracers <= tracer {
        return Err(Refusal::NoSuchTracer);
    }
    let total = fill::loaded_total(numbers, n);
    if LIMIT < total {
        return Err(Refusal::TotalAboveLimit);
    }
    let start = grid.tracer_start(tracer);
    let end = grid.total_at(tracer);
    fill::lay(&mut field[start..end], numbers, n);
    store_total(field, grid, tracer, total);
    Ok(())
}

// Fresh: zeros in field and wind.
pub fn fresh(field: &mut [u32], winds: &mut [i16], shape: Shape) -> Result<(), Refusal>
    ensures { FreshGives quadratic shape field.old winds.old (answers result) field.new winds.new }
{
    let grid = Grid::try_from(shape)?;
    let length = grid.field_length();
    let faces = grid.faces();
    if field.len() < length {
        return Err(Refusal::ShortBuffer);
    }
    if winds.len() < faces {
        return Err(Refusal::ShortBuffer);
    }
    field[..length].fill(0);
    winds[..faces].fill(0);
    Ok(())
}

// Wind: one face gets a new wind.
pub fn wind(winds: &mut [i16], shape: Shape, face: Face) -> Result<(), Refusal>
    ensures { WindGives shape (one_face face) winds.old (answers result) winds.new }
{
    let grid = Grid::try_from(shape)?;
    if winds.len() < grid.faces() {
        return Err(Refusal::ShortBuffer);
    }
    if !field_layout::wind_in_range(face.wind) {
        return Err(Refusal::WindOutOfRange);
    }
    if !field_layout::on_grid(grid.shape, face.i, face.j) {
        return Err(Refusal::NoSuchElement);
    }
    winds[grid.face_at(face)] = face.wind;
    Ok(())
}
