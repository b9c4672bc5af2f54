// The flux correction of a step: outflows from the fluxes, masses from the stored numbers, and the fluxes cut by both; held.rt has what is held back.
// Every function here is a leaf: what is lent has its length, and its numbers are as small as a step makes them.
#![tactic(auto)]

ghost use Rattle.std.specs.Prelude.{◌≡◌, cond, ℕ, ◌+◌, ◌*◌, ◌≤◌, ◌<◌, pos, length};
ghost use Rattle.std.specs.Int.Signed.{non_neg};
ghost use Rattle.whole.specs.Table.{table, overwrite, at};
ghost use Rattle.whole.specs.Bound.{Within, Are, AllWithin};
ghost use Rattle.whole.specs.Parts.{positive, negative};
ghost use Rattle.rules.specs.Field.{quadratic, elements, faces, mass, limit};
ghost use Rattle.rules.specs.Grid.{behind, ahead};
ghost use Rattle.rules.specs.Correction.{cut, donor, outflow};
ghost use Rattle.rules.specs.Sizes.{flux_size, outflow_size};
ghost use Rattle.step_correction.specs.Amounts.{NotNegative, Amounts, limited_face};

use field_elements::element;
use field_layout::Grid;
use rules::element::NUMBERS;
use step_grid::{Element, Face, Row};

pub mod held; // held.rt: what is held back

// x where it is above 0, else 0.
fn positive(x: i64) -> i64
    requires { Within flux_size x }
    ensures { Are flux_size result (pos (positive x)) }
{
    x.max(0)
}

// -x where x is below 0, else 0.
fn negative(x: i64) -> i64
    requires { Within flux_size x }
    ensures { Are flux_size result (pos (negative x)) }
{
    (-x).max(0)
}

// An element's outflow by its four sides, from the fluxes of all faces.
fn outflow(fluxes: &[i64], element: Element) -> i64
    requires fluxes_len { length fluxes.now ≡ faces element.grid.shape }
    requires all_within { AllWithin flux_size fluxes.now }
    ensures { Are outflow_size result (pos (outflow element.grid.shape (donor element.grid.shape (at fluxes.now)) (at fluxes.now) element.index)) }
{
    let [west, east, south, north] = element.sides();
    let along = positive(fluxes[east]) + negative(fluxes[west]);
    let across = positive(fluxes[north]) + negative(fluxes[south]);
    along + across
}

// The outflows of the elements of a row.
fn row_outflows(outflows: &mut [i64], fluxes: &[i64], row: Row)
    requires outflows_len { length outflows.old ≡ row.grid.shape.nx }
    requires fluxes_len { length fluxes.now ≡ faces row.grid.shape }
    requires all_within { AllWithin flux_size fluxes.now }
    requires row { row.index < row.grid.shape.ny }
    ensures { outflows.new ≡ table row.grid.shape.nx (λ i. pos (outflow row.grid.shape (donor row.grid.shape (at fluxes.now)) (at fluxes.now) (row.index * row.grid.shape.nx + i))) }
{
    for (column, out) in outflows.iter_mut().enumerate() {
        *out = outflow(fluxes, row.element(column));
    }
}

// The outflows of all elements, row by row: an element of a row finds its neighbours by its column, without a division.
pub fn outflows(outflows: &mut [i64], fluxes: &[i64], grid: Grid)
    requires outflows_len { length outflows.old ≡ elements grid.shape }
    requires fluxes_len { length fluxes.now ≡ faces grid.shape }
    requires all_within { AllWithin flux_size fluxes.now }
    ensures { outflows.new ≡ table (elements grid.shape) (λ e. pos (outflow grid.shape (donor grid.shape (at fluxes.now)) (at fluxes.now) e)) }
{
    for index in 0..grid.shape.ny {
        let row = Row { grid, index };
        let start = row.start();
        let end = start + grid.shape.nx;
        row_outflows(&mut outflows[start..end], fluxes, row);
    }
}

// The masses of all elements of a tracer's part.
pub fn masses(masses: &mut [i64], part: &[u32])
    requires part_len { length masses.old * 10 ≤ length part.now }
    requires within_limit { (e : ℕ) → e < length masses.old → mass quadratic part.now e ≤ limit }
    ensures { masses.new ≡ table (length masses.old) (λ e. pos (mass quadratic part.now e)) }
{
    let (elements, _) = part.as_chunks::<NUMBERS>();
    for (e, mass) in masses.iter_mut().enumerate() {
        *mass = element::mass(&elements[e]) as i64; // std has no `From` for it; the limit is far below
    }
}

// A flux, cut by its donor's outflow and mass.
fn cut(flux: i64, out: i64, mass: i64) -> i64
    requires within { Within flux_size flux }
    requires not_negative { NotNegative outflow_size out }
    requires not_negative_2 { NotNegative limit mass }
    ensures { Are flux_size result (cut flux (positive out) (positive mass)) }
{
    if out <= mass {
        return flux;
    }
    flux * mass / out
}

// The element that a face's flux comes from: the one behind the face where the flux is not negative, else the one ahead.
fn donor(flux: i64, face: Face) -> usize
    ensures { result ≡ cond (non_neg flux) (behind face.grid.shape face.index) (ahead face.grid.shape face.index) }
{
    let (behind, ahead) = face.ends();
    if flux >= 0 { behind } else { ahead }
}

// The limited flux of a face.
fn limited(fluxes: &[i64], outflows: &[i64], masses: &[i64], face: Face) -> i64
    requires amounts { Amounts face.grid.shape fluxes.now outflows.now masses.now }
    ensures { Are limit result (limited_face face.grid.shape fluxes.now outflows.now masses.now face.index) }
{
    let flux = fluxes[face.index];
    let d = donor(flux, face);
    cut(flux, outflows[d], masses[d])
}

// The limited fluxes of the faces of a row.
fn row_limit(report: &mut [i32], fluxes: &[i64], outflows: &[i64], masses: &[i64], row: Row)
    requires report_len { length report.old ≡ row.grid.shape.nx }
    requires amounts { Amounts row.grid.shape fluxes.now outflows.now masses.now }
    ensures { report.new ≡ table row.grid.shape.nx (λ i. limited_face row.grid.shape fluxes.now outflows.now masses.now (row.index * row.grid.shape.nx + i)) }
{
    for (column, flux) in report.iter_mut().enumerate() {
        *flux = limited(fluxes, outflows, masses, row.face(column)) as i32; // std has no `From` for it; a cut flux is within the limit
    }
}

// The limited fluxes of all faces, the face report, row by row; surplus is left alone.
pub fn limit(report: &mut [i32], fluxes: &[i64], outflows: &[i64], masses: &[i64], grid: Grid)
    requires shape_in_bounds { faces grid.shape ≤ length report.old }
    requires amounts { Amounts grid.shape fluxes.now outflows.now masses.now }
    ensures { report.new ≡ overwrite 0 (table (faces grid.shape) (limited_face grid.shape fluxes.now outflows.now masses.now)) report.old }
{
    for index in 0..2 * grid.shape.ny {
        let row = Row { grid, index };
        let start = row.start();
        let end = start + grid.shape.nx;
        row_limit(&mut report[start..end], fluxes, outflows, masses, row);
    }
}
