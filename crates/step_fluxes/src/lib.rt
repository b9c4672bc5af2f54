// The face amounts G of a step (fluxes), from the products of its three stages.
// Every function here is a leaf: what is lent has its length, and its numbers are as small as a step makes them.
#![tactic(auto)]

ghost use Rattle.std.specs.Prelude.{◌≡◌, ◌*◌, pos, ◌+ℤ◌, ◌*ℤ◌, length};
ghost use Rattle.whole.specs.Bound.{Within, Are, AllWithin};
ghost use Rattle.whole.specs.Table.{table, at};
ghost use Rattle.rules.specs.Field.{faces};
ghost use Rattle.rules.specs.Calls.{wind_at};
ghost use Rattle.rules.specs.Sizes.{flux_size};
ghost use Rattle.step_tendency.specs.Sizes.{product_size};
ghost use Rattle.step_upwind.specs.Upwind.{as_stage};
ghost use Rattle.step_stages.specs.Passes.{from_stage, factor};
ghost use Rattle.step_fluxes.specs.Amount.{amount_size, weighed, stage_amount, rounded};

use rules::element::{SIDE, line_weight};
use step_stages::Pass;
use step_upwind::FaceProducts;

// The products at a face, each by its node's weight.
fn weigh(products: &[i64; SIDE]) -> i64
    requires { AllWithin product_size products.now }
    ensures { Are (6 * product_size) result (weighed (at products.now)) }
{
    (0..SIDE).map(|r| line_weight(r) * products[r]).sum()
}

// The sums of all faces with a stage's products, as often as the stage's tendencies count in the elements' sums. All stages are under one wind: after the
// third a sum is what document 01 divides by 4096.
pub fn add(amounts: &mut [i64], from: FaceProducts, pass: Pass)
    requires amounts_len { length amounts.old ≡ faces from.stage.winds.grid.shape }
    requires all_within { AllWithin amount_size amounts.old }
    ensures { amounts.new ≡ table (faces from.entry.stage.winds.grid.shape) (λ f. at amounts.old f +ℤ pos (factor (from_stage pass)) *ℤ stage_amount from.entry.stage.winds.grid.shape (wind_at from.entry.stage.winds.wind.now) (as_stage from.entry.stage.phi.now) f) }
{
    let times = pass.factor();
    for (f, amount) in amounts.iter_mut().enumerate() {
        *amount += times * weigh(&from.at_face(f));
    }
}

// A sum divided by 4096, to the nearest whole number, the even one at a half. 4095 / 8192 added before rounding down take what is above a half up, and
// leave a half at the number below it; where that number is odd, 4096 / 8192 take the half up, too.
fn rounded(amount: i64) -> i64
    requires { Within amount_size amount }
    ensures { Are flux_size result (rounded amount) }
{
    let odd = (amount >> 12) & 1;
    (2 * amount + 4095 + odd) >> 13
}

// The fluxes of all faces, written over their sums.
pub fn fluxes(amounts: &mut [i64])
    requires { AllWithin amount_size amounts.old }
    ensures { amounts.new ≡ table (length amounts.old) (λ f. rounded (at amounts.old f)) }
{
    for amount in amounts.iter_mut() {
        *amount = rounded(*amount);
    }
}
