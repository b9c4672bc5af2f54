// The step of one tracer, on its part of the field. Leaves: what is lent has its length, winds are in their range, and the part is sound.
ghost use Rattle.std.specs.Prelude.{◌≡◌, ◌+◌, ◌*◌, ◌≤◌, ◌<◌, true, pos, ◌+ℤ◌, ◌*ℤ◌, length};
ghost use Rattle.whole.specs.Bound.{AllWithin};
ghost use Rattle.whole.specs.Parts.{positive};
ghost use Rattle.whole.specs.Sum.{sum};
ghost use Rattle.whole.specs.Table.{table, blocks, at};
ghost use Rattle.rules.specs.Field.{quadratic, elements, part_length, stored_total, part_of, faces, work_needed, sound};
ghost use Rattle.rules.specs.Correction.{target};
ghost use Rattle.rules.specs.Stages.{stages};
ghost use Rattle.rules.specs.Step.{fluxes, tracer_step};
ghost use Rattle.rules.specs.Calls.{wind_at};
ghost use Rattle.rules.specs.Sizes.{earlier_sum_size, target_size, clipped_size, step_clipped_size};
ghost use Rattle.step_upwind.specs.Upwind.{stage_length, listed, as_stage, face_products};
ghost use Rattle.step_stages.specs.Passes.{from_stage, factor, new_sums};
ghost use Rattle.step_fluxes.specs.Amount.{amount_size, stage_amount};
ghost use Rattle.step.specs.Finish.{Balance, Values, mass_of, closed_lent};

use field_layout::Grid;
use limiter::Closing;
use rules::element::{NODES, NUMBERS, SIDE};
use step_correction::held;
use step_grid::{Element, Row};
use step_stages::Pass;
use step_upwind::{FaceProducts, Stage, Winds};

// An element's target: its mass, less what leaves by its east and north face, and what comes by its west and south face.
fn target(masses: &[i64], report: &[i32], element: Element) -> u64
    requires { Balance element.grid.shape masses.now report.now }
    ensures value { result ≡ positive (target element.grid.shape (mass_of masses.now) (at report.now) element.index) }
    ensures bound { result ≤ target_size }
{
    let [west, east, south, north] = element.sides();
    let left = masses[element.index] - i64::from(report[east]) + i64::from(report[west]);
    let all = left - i64::from(report[north]) + i64::from(report[south]);
    all.unsigned_abs() // a target is never below 0
}

// The elements of a row are closed, each with its tentative values, to which its faces add what they hold back, and its target. The sum of the clipped masses
// is answered.
fn finish_row(
    part: &mut [u32],
    psi: &[i64],
    rises: &[i64],
    masses: &[i64],
    report: &[i32],
    row: Row,
) -> u64
    requires inside { row.index < row.grid.shape.ny }
    requires part_len { length part.old ≡ row.grid.shape.nx * 10 }
    requires values { Values row.grid.shape psi.now rises.now }
    requires balance { Balance row.grid.shape masses.now report.now }
    ensures numbers { part.new ≡ blocks row.grid.shape.nx (λ i. (closed_lent row.grid.shape psi.now rises.now masses.now report.now (row.index * row.grid.shape.nx + i)).numbers) }
    ensures clipped { result ≡ sum row.grid.shape.nx (λ i. (closed_lent row.grid.shape psi.now rises.now masses.now report.now (row.index * row.grid.shape.nx + i)).clipped) }
    ensures upper_bound { result ≤ row.grid.shape.nx * clipped_size }
{
    let mut clipped = 0;
    // By number, which gives the element its neighbours and its place in the row: of what stands in parts that `chunks_exact_mut` has lent,
    // a proof knows nothing afterwards.
    for column in 0..row.grid.shape.nx {
        let element = row.element(column);
        let closing = Closing {
            psi: &held::with_held_flux(psi, rises, element),
            target: target(masses, report, element),
        };
        let start = column * NUMBERS;
        let end = start + NUMBERS;
        clipped += closing.close(&mut part[start..end]);
    }
    clipped
}

// All rows are closed; the stored total is left. The sum of the clipped masses is answered.
fn finish(
    part: &mut [u32],
    psi: &[i64],
    rises: &[i64],
    masses: &[i64],
    report: &[i32],
    grid: Grid,
) -> u64
    requires part_len { length part.old ≡ part_length quadratic grid.shape }
    requires values { Values grid.shape psi.now rises.now }
    requires balance { Balance grid.shape masses.now report.now }
    ensures numbers { part.new ≡ part_of (blocks (elements grid.shape) (λ e. (closed_lent grid.shape psi.now rises.now masses.now report.now e).numbers)) (stored_total quadratic grid.shape part.old) }
    ensures clipped { result ≡ sum (elements grid.shape) (λ e. (closed_lent grid.shape psi.now rises.now masses.now report.now e).clipped) }
    ensures upper_bound { result ≤ step_clipped_size }
{
    let width = grid.shape.nx * NUMBERS;
    let mut clipped = 0;
    for index in 0..grid.shape.ny {
        let row = Row { grid, index };
        let start = index * width;
        let end = start + width;
        clipped += finish_row(&mut part[start..end], psi, rises, masses, report, row);
    }
    clipped
}

// What a stage adds to the sums of the faces and of the elements. The products of winds and upwind values are made once, for a face's sum and for both of its
// elements.
fn add_stage(amounts: &mut [i64], sums: &mut [i64], products: &mut [i64], stage: Stage, pass: Pass)
    requires amounts_len { length amounts.old ≡ faces stage.winds.grid.shape }
    requires amounts_small { AllWithin amount_size amounts.old }
    requires sums_len { length sums.old ≡ stage_length stage.winds.grid.shape }
    requires sums_small { AllWithin earlier_sum_size sums.old }
    requires products_len { length products.old ≡ faces stage.winds.grid.shape * 3 }
    ensures amounts_after { amounts.new ≡ table (faces stage.entry.winds.grid.shape) (λ f. at amounts.old f +ℤ pos (factor (from_stage pass)) *ℤ stage_amount stage.entry.winds.grid.shape (wind_at stage.entry.winds.wind.now) (as_stage stage.entry.phi.now) f) }
    ensures sums_after { sums.new ≡ listed (stage_length stage.entry.winds.grid.shape) (new_sums stage.entry.winds.grid.shape (wind_at stage.entry.winds.wind.now) (from_stage pass) sums.old stage.entry.phi.now) }
    ensures products_after { products.new ≡ face_products stage.entry.winds.grid.shape (wind_at stage.entry.winds.wind.now) (as_stage stage.entry.phi.now) }
{
    step_stages::products(products, stage);
    let from = FaceProducts { stage, products };
    step_fluxes::add(amounts, from, pass);
    step_stages::add_tendencies(sums, from, pass);
}

// The stages of a step: the tentative values, in whose place stages 0, 1 and 2 stand before them, and the fluxes. Sections of `work` have the sums of
// tendencies, and a stage's products; what they hold afterwards is free.
fn stages(psi: &mut [i64], amounts: &mut [i64], part: &[u32], winds: Winds, work: &mut [i64])
    requires psi_len { length psi.old ≡ stage_length winds.grid.shape }
    requires amounts_len { length amounts.old ≡ faces winds.grid.shape }
    requires part_len { length part.now ≡ part_length quadratic winds.grid.shape }
    requires part_sound { sound quadratic winds.grid.shape part.now ≡ true }
    requires work_len { 15 * elements winds.grid.shape ≤ length work.old }
    ensures psi_after { psi.new ≡ listed (stage_length winds.entry.grid.shape) (stages quadratic winds.entry.grid.shape (wind_at winds.entry.wind.now) part.now).ψ }
    ensures amounts_after { amounts.new ≡ fluxes quadratic winds.entry.grid.shape (wind_at winds.entry.wind.now) (stages quadratic winds.entry.grid.shape (wind_at winds.entry.wind.now) part.now) }
{
    let (sums, rest) = work.split_at_mut(winds.grid.elements() * NODES);
    let (products, _) = rest.split_at_mut(winds.grid.faces() * SIDE);
    step_stages::start(psi, part, winds.grid);
    sums.fill(0);
    amounts.fill(0);
    for pass in [Pass::First, Pass::Second, Pass::Third] {
        add_stage(amounts, sums, products, Stage { phi: psi, winds }, pass);
        step_stages::set_values(psi, part, sums, winds.grid, pass);
    }
    step_fluxes::fluxes(amounts);
}

// The step of a tracer's part, and its report; the clipped mass is answered. What it works with stands in sections of `work`, one after the other: the
// tentative values, what the faces and the elements have, and what the stages need.
pub(crate) fn step(part: &mut [u32], winds: Winds, report: &mut [i32], work: &mut [i64]) -> u64
    requires part_len { length part.old ≡ part_length quadratic winds.grid.shape }
    requires part_sound { sound quadratic winds.grid.shape part.old ≡ true }
    requires report_len { length report.old ≡ faces winds.grid.shape }
    requires work_len { work_needed winds.grid.shape ≤ length work.old }
    ensures part_after { part.new ≡ (tracer_step quadratic winds.entry.grid.shape (wind_at winds.entry.wind.now) part.old).part }
    ensures report_after { report.new ≡ (tracer_step quadratic winds.entry.grid.shape (wind_at winds.entry.wind.now) part.old).report }
    ensures clipped_after { result ≡ (tracer_step quadratic winds.entry.grid.shape (wind_at winds.entry.wind.now) part.old).clipped }
    ensures upper_bound { result ≤ step_clipped_size }
{
    let grid = winds.grid;
    let n = grid.elements();
    let (psi, rest) = work.split_at_mut(n * NODES);
    let (fluxes, rest) = rest.split_at_mut(grid.faces());
    let (masses, rest) = rest.split_at_mut(n);
    let (outflows, rest) = rest.split_at_mut(n);
    stages(psi, fluxes, part, winds, rest);
    step_correction::masses(masses, part);
    step_correction::outflows(outflows, fluxes, grid);
    step_correction::limit(report, fluxes, outflows, masses, grid);
    held::rises(fluxes, report); // over the fluxes, which nothing else reads any more
    finish(part, psi, fluxes, masses, report, grid)
}
