// What the flux correction holds back stays by its face (document 02, 2026-05): by how much the nodes of a face rise and fall, and the values of an
// element with what its faces add. Leaves, as those of the crate's root.
ghost use Rattle.std.specs.Prelude.{◌≡◌, [], ◌∷◌, ◌/◌, ◌%◌, ◌<◌, pos, neg_ℤ, ◌+ℤ◌, length};
ghost use Rattle.whole.specs.Bound.{Within, Are, AllWithin};
ghost use Rattle.whole.specs.Table.{table, at};
ghost use Rattle.rules.specs.Field.{quadratic, faces, limit};
ghost use Rattle.rules.specs.HeldFlux.{node_rise, rises, with_held_flux};
ghost use Rattle.rules.specs.Sizes.{flux_size, rise_size, tentative_size, closing_size};
ghost use Rattle.step_upwind.specs.Upwind.{stage_length, as_stage};

use rules::element::{NODES, SIDE};
use std::array;
use step_grid::Element;

// The sum of the weights of a face's nodes.
const FACE_WEIGHT: i64 = 6;

// By how much the nodes of a face rise in the element behind it, and fall in the one ahead.
fn node_rise(flux: i64, limited: i64) -> i64
    requires within { Within flux_size flux }
    requires within_2 { Within limit limited }
    ensures { Are rise_size result (node_rise quadratic flux limited) }
{
    (flux - limited) / FACE_WEIGHT
}

// The same of all faces, written over their fluxes.
pub fn rises(fluxes: &mut [i64], report: &[i32])
    requires fluxes_len { length fluxes.old ≡ length report.now }
    requires all_within { AllWithin flux_size fluxes.old }
    requires all_within_2 { AllWithin limit report.now }
    ensures { fluxes.new ≡ table (length fluxes.old) (rises quadratic fluxes.old report.now) }
{
    for (f, flux) in fluxes.iter_mut().enumerate() {
        *flux = node_rise(*flux, i64::from(report[f]));
    }
}

// What the faces at the two ends of an element's lines of nodes add at each place of a line.
fn line_rises(first: i64, last: i64) -> [i64; SIDE]
    requires within { Within rise_size first }
    requires within_2 { Within rise_size last }
    ensures { result ≡ neg_ℤ first ∷ pos 0 ∷ last ∷ [] }
{
    [-first, 0, last]
}

// The value of node k with what is added at its places on the line that runs east and on the one that runs north.
fn node_value(values: &[i64; NODES], along: &[i64; SIDE], across: &[i64; SIDE], k: usize) -> i64
    requires k_bound { k < 9 }
    requires all_within { AllWithin tentative_size values.now }
    requires all_within_2 { AllWithin rise_size along.now }
    requires all_within_3 { AllWithin rise_size across.now }
    ensures { Are closing_size result (at values.now k +ℤ (at along.now (k % 3) +ℤ at across.now (k / 3))) }
{
    values[k] + (along[k % SIDE] + across[k / SIDE])
}

// An element's tentative values with what its faces add.
pub fn with_held_flux(psi: &[i64], rises: &[i64], element: Element) -> [i64; NODES]
    requires psi_len { length psi.now ≡ stage_length element.grid.shape }
    requires all_within { AllWithin tentative_size psi.now }
    requires rises_len { length rises.now ≡ faces element.grid.shape }
    requires all_within_2 { AllWithin rise_size rises.now }
    ensures values { result ≡ table 9 (with_held_flux quadratic element.grid.shape (at rises.now) (as_stage psi.now) element.index) }
    ensures bound { AllWithin closing_size result }
{
    let [west, east, south, north] = element.sides();
    let along = line_rises(rises[west], rises[east]);
    let across = line_rises(rises[south], rises[north]);
    let (elements, _) = psi.as_chunks::<NODES>();
    let values = &elements[element.index];
    array::from_fn(|k| node_value(values, &along, &across, k))
}
