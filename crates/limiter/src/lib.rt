// The closing of an element, in place: mean adjustment (document 01: levelling), truncation, mass aware rescaling. It answers the clipped mass.
// Every function here is a leaf that other crates call with numbers which they have bounded. A u64 becomes an i64 or a u32 by `as`: std has no
// `From` for it, and Rattle proves that nothing is lost, so that a `try_from` would add an unwrap that can never fail.
#![tactic(auto)]

ghost use Rattle.std.specs.Prelude.{◌≡◌, ◌++◌, ◌∷◌, [], ◌*◌, ◌-◌, ◌≤◌, ◌<◌, ◌^◌, length};
ghost use Rattle.whole.specs.Table.{at, table};
ghost use Rattle.whole.specs.Bound.{Within, Are, AllWithin};
ghost use Rattle.rules.specs.Field.{quadratic, weighted};
ghost use Rattle.rules.specs.Limiter.{signed_sum, mean_shift, truncated, clipped, closed_unlevelled, closed};
ghost use Rattle.rules.specs.Sizes.{shift_size, closing_size, levelled_size, target_size, clipped_size};
ghost use Rattle.limiter.specs.Shifted.{shifted};
ghost use Rattle.limiter.specs.Values.{value_of, AllUpTo};

use rules::element::{NODES, node_weight, signed_weight};
use std::array;

mod scale; // scale.rt: mass aware rescaling

// The sum of the nodes' weights.
const WEIGHT_SUM: i64 = 36;

// What an element is closed with: nine signed values psi and its target.
#[derive(Clone, Copy)]
pub struct Closing<'a> {
    pub psi: &'a [i64; NODES],
    pub target: u64,
    ghost all_within: { AllWithin closing_size psi.now },
    ghost target_le_target_size: { target ≤ target_size },
}

impl Closing<'_> {
    // The closing: an element's ten numbers, and the clipped mass. The numbers are lent as a slice, which document 01 names as the form: "a part of
    // the mutable field slice that starts at the element's place".
    pub fn close(self, part: &mut [u32]) -> u64
        requires { length part.old ≡ 10 }
        ensures numbers { part.new ≡ (closed quadratic (at self.entry.psi.now) self.entry.target).numbers }
        ensures clipped { result ≡ (closed quadratic (at self.entry.psi.now) self.entry.target).clipped }
        ensures upper_bound { result ≤ clipped_size }
    {
        let sum = self.weighted_sum();
        let shift = self.mean_shift(sum);
        let raised = Raised {
            closing: self,
            shift,
            sum: sum + WEIGHT_SUM * shift,
        };
        raised.close(part)
    }

    // The closing without levelling.
    pub fn close_unlevelled(self, part: &mut [u32]) -> u64
        requires { length part.old ≡ 10 }
        ensures numbers { part.new ≡ (closed_unlevelled quadratic (at self.entry.psi.now) self.entry.target).numbers }
        ensures clipped { result ≡ (closed_unlevelled quadratic (at self.entry.psi.now) self.entry.target).clipped }
        ensures upper_bound { result ≤ clipped_size }
    {
        let raised = Raised {
            closing: self,
            shift: 0,
            sum: self.weighted_sum(),
        };
        raised.close(part)
    }

    // What levelling adds to every value, from their weighted sum.
    fn mean_shift(self, sum: i64) -> i64
        requires { sum ≡ signed_sum quadratic (at self.psi.now) }
        ensures { Are shift_size result (mean_shift quadratic (at self.entry.psi.now) self.entry.target) }
    {
        whole::floor_div((self.target as i64) - sum, WEIGHT_SUM)
    }

    // The weighted sum of the values.
    fn weighted_sum(self) -> i64
        ensures { Are (36 * closing_size) result (signed_sum quadratic (at self.entry.psi.now)) }
    {
        (0..NODES).map(|k| signed_weight(k) * self.psi[k]).sum()
    }
}

// A closing whose values are each raised by a shift: what levelling adds, or 0. `sum` is the weighted sum of the raised values.
#[derive(Clone, Copy)]
struct Raised<'a> {
    closing: Closing<'a>,
    shift: i64,
    sum: i64,
    ghost small: { Within shift_size shift },
    ghost sum_is: { sum ≡ signed_sum quadratic (shifted closing.psi.now shift) },
}

impl Raised<'_> {
    // Value k after levelling and truncation: below 0 there is no u64 of it, and it becomes 0.
    fn truncated(self, k: usize) -> u64
        requires { k < 9 }
        ensures value { result ≡ truncated (shifted self.entry.closing.psi.now self.entry.shift) k }
        ensures upper_bound { result ≤ levelled_size }
    {
        u64::try_from(self.closing.psi[k] + self.shift).unwrap_or(0)
    }

    // All nine, made once: the sum P, the rescaling and the clipped mass go by these.
    fn values(self) -> [u64; NODES]
        ensures value { result ≡ table 9 (truncated (shifted self.entry.closing.psi.now self.entry.shift)) }
        ensures upper_bound { AllUpTo levelled_size result }
    {
        array::from_fn(|k| self.truncated(k))
    }

    // The clipped mass: P less `sum`. Truncation only adds, so that P is never below it.
    fn clipped(self, p: u64) -> u64
        requires { p ≡ weighted quadratic (truncated (shifted self.closing.psi.now self.shift)) }
        ensures value { result ≡ clipped quadratic (shifted self.entry.closing.psi.now self.entry.shift) }
        ensures upper_bound { result ≤ clipped_size }
    {
        ((p as i64) - self.sum).unsigned_abs()
    }

    // Truncation, rescaling and remainder; the clipped mass is answered.
    fn close(self, part: &mut [u32]) -> u64
        requires { length part.old ≡ 10 }
        ensures numbers { part.new ≡ (closed_unlevelled quadratic (shifted self.entry.closing.psi.now self.entry.shift) self.entry.closing.target).numbers }
        ensures clipped { result ≡ (closed_unlevelled quadratic (shifted self.entry.closing.psi.now self.entry.shift) self.entry.closing.target).clipped }
        ensures upper_bound { result ≤ clipped_size }
    {
        let target = self.closing.target;
        let values = self.values();
        let p = weigh(&values);
        put(part, &scale::rescaled(&values, p, target), target);
        self.clipped(p)
    }
}

// The weighted sum of nine values.
fn weigh(values: &[u64; NODES]) -> u64
    requires { weighted quadratic (value_of values.now) < 2 ^ 64 }
    ensures { result ≡ weighted quadratic (value_of values.now) }
{
    (0..NODES).map(|k| node_weight(k) * values[k]).sum()
}

// Nine values, and what they leave of the target, as the element's ten numbers.
fn put(part: &mut [u32], values: &[u64; NODES], target: u64)
    requires part_len { length part.old ≡ 10 }
    requires sum_le { weighted quadratic (value_of values.now) ≤ target }
    requires target_bound { target ≤ target_size }
    ensures { part.new ≡ values.now ++ ((target - weighted quadratic (value_of values.now)) ∷ []) }
{
    for (k, number) in part[..NODES].iter_mut().enumerate() {
        *number = values[k] as u32;
    }
    part[NODES] = (target - weigh(values)) as u32;
}
