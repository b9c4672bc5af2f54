// One element's ten numbers. Leaves: the part has ten numbers, and masses are within the limit. A step uses the mass, too.
// The ten numbers are lent as a slice, as the closing is lent them; `mass` and `values` read the part that emission and withdrawal then write.
// Emission and withdrawal stay two functions, of two calls: they differ in the target's sign and in the closing, and only `values` is the same.
ghost use Rattle.std.specs.Prelude.{◌≡◌, ◌+◌, ◌≤◌, pos, length, get_or};
ghost use Rattle.whole.specs.Table.{table};
ghost use Rattle.rules.specs.Field.{quadratic, mass, limit};
ghost use Rattle.rules.specs.Calls.{emitted, withdrawn};
ghost use Rattle.field_elements.specs.Weighing.{number_weight, weighed, most_weighed};

use limiter::Closing;
use rules::element::{NODES, node_weight};
use std::array;

// The weight of number v of an element: a node's, and 1 for the remainder.
pub fn number_weight(v: usize) -> u64
    ensures { result ≡ number_weight quadratic v }
{
    if v < NODES { node_weight(v) } else { 1 }
}

// The weighted sum of an element's numbers, or of its values alone.
pub fn weigh(numbers: &[u32]) -> u64
    requires { length numbers.now ≤ 10 }
    ensures value { result ≡ weighed quadratic numbers.now 0 (length numbers.now) }
    ensures upper_bound { result ≤ most_weighed }
{
    numbers
        .iter()
        .enumerate()
        .map(|(v, number)| number_weight(v) * u64::from(*number))
        .sum()
}

// What an element holds.
pub fn mass(part: &[u32]) -> u64
    requires { length part.now ≡ 10 }
    ensures { result ≡ mass quadratic part.now 0 }
{
    weigh(part)
}

// An element's nine values, signed.
fn values(part: &[u32]) -> [i64; NODES]
    requires { length part.now ≡ 10 }
    ensures { result ≡ table 9 (λ k. pos (get_or part.now k 0)) }
{
    array::from_fn(|k| i64::from(part[k]))
}

// Emission of q: closes the element to its mass and q more. The clipped mass is answered.
pub fn emit(part: &mut [u32], q: u64) -> u64
    requires part_len { length part.old ≡ 10 }
    requires q_bound { mass quadratic part.old 0 + q ≤ limit }
    ensures numbers { part.new ≡ (emitted quadratic 0 q part.old).numbers }
    ensures clipped { result ≡ (emitted quadratic 0 q part.old).clipped }
{
    let target = mass(part) + q;
    let psi = values(part);
    Closing { psi: &psi, target }.close(part)
}

// Withdrawal of q: closes the element to its mass less q, without levelling. The clipped mass is answered.
pub fn withdraw(part: &mut [u32], q: u64) -> u64
    requires part_len { length part.old ≡ 10 }
    requires part_bound { mass quadratic part.old 0 ≤ limit }
    requires q_bound { q ≤ mass quadratic part.old 0 }
    ensures numbers { part.new ≡ (withdrawn quadratic 0 q part.old).numbers }
    ensures clipped { result ≡ (withdrawn quadratic 0 q part.old).clipped }
{
    let target = mass(part) - q;
    let psi = values(part);
    Closing { psi: &psi, target }.close_unlevelled(part)
}
