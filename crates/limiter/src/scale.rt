// Mass aware rescaling (document 01): the values of an element, with their weighted sum, and a target below it; v becomes floor(v * target / sum).
// A division takes many times what a product takes, so all nine values share one: each is multiplied by the same ratio, and a comparison settles
// what the ratio's rounding left open.
ghost use Rattle.std.specs.Prelude.{◌≡◌, ◌*◌, ◌/◌, ◌≤◌, ◌<◌, ◌^◌};
ghost use Rattle.whole.specs.Table.{table};
ghost use Rattle.rules.specs.Field.{quadratic, weighted};
ghost use Rattle.rules.specs.Limiter.{rescaled};
ghost use Rattle.rules.specs.Sizes.{levelled_size, target_size};
ghost use Rattle.limiter.specs.Values.{value_of, AllUpTo};

use rules::element::NODES;
use std::array;

// The ratio is in units of 2^-35. Every value is below 2^35, and the largest target times 2^35 is within 64 bits; a value is at most the sum, so that
// its product with the ratio is, too.
const RATIO_BITS: u32 = 35;

// From a sum to a target below it: `ratio` is target / sum in units of 2^-35, rounded down.
#[derive(Clone, Copy)]
struct Scale {
    sum: u64,
    target: u64,
    ratio: u64,
    ghost target_lt_sum: { target < sum },
    ghost target_le_target_size: { target ≤ target_size },
    ghost sum_le: { sum ≤ 36 * levelled_size },
    ghost ratio_is: { ratio ≡ target * 2 ^ 35 / sum },
}

impl Scale {
    // floor(v * target / sum). By the ratio it comes out as y, and y is right or one too small: for v below 2^35 the rounding takes less than 1.
    fn rescale(self, v: u64) -> u64
        requires v_le_sum { v ≤ self.sum }
        requires v_bound { v ≤ levelled_size }
        ensures { result ≡ rescaled self.sum self.target v }
    {
        let y = v * self.ratio >> RATIO_BITS;
        if (y + 1) * self.sum <= v * self.target {
            y + 1
        } else {
            y
        }
    }
}

// The values, rescaled where their sum is above the target.
pub(crate) fn rescaled(values: &[u64; NODES], sum: u64, target: u64) -> [u64; NODES]
    requires upper_bound { AllUpTo levelled_size values.now }
    requires sum_is { sum ≡ weighted quadratic (value_of values.now) }
    requires target_bound { target ≤ target_size }
    ensures { result ≡ table 9 (λ k. rescaled sum target (value_of values.now k)) }
{
    if sum <= target {
        return *values;
    }
    let scale = Scale {
        sum,
        target,
        ratio: (target << RATIO_BITS) / sum,
    };
    array::from_fn(|k| scale.rescale(values[k]))
}
