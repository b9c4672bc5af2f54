// What many elements hold together, and the elements that a load fills. Leaves: the buffers are long enough. One n says of a part and of the numbers to
// load how many elements are meant; without it a clause would compare their two lengths.
ghost use Rattle.std.specs.Prelude.{◌≡◌, ◌*◌, ◌≤◌, ◌<◌, length};
ghost use Rattle.whole.specs.Sum.{sum};
ghost use Rattle.whole.specs.Table.{blocks};
ghost use Rattle.rules.specs.Field.{quadratic, weighted, mass};
ghost use Rattle.rules.specs.Calls.{loaded_value, loaded_element};
ghost use Rattle.rules.specs.Sizes.{most_elements};
ghost use Rattle.field_elements.specs.Weighing.{weighed};

use super::element;
use rules::element::{NODES, NUMBERS};

// What n elements of WIDTH numbers each weigh: their values alone, or the remainder, too.
fn weight<const WIDTH: usize>(numbers: &[u32], n: usize) -> u64
    requires width_le_10 { WIDTH ≤ 10 }
    requires width_above { 0 < WIDTH }
    requires n_le_most_elements { n ≤ most_elements }
    requires n_in_bounds { n * WIDTH ≤ length numbers.now }
    ensures { result ≡ sum n (λ e. weighed quadratic numbers.now (e * WIDTH) WIDTH) }
{
    let (elements, _) = numbers.as_chunks::<WIDTH>();
    elements[..n]
        .iter()
        .map(
            |element|
                requires { length element.now ≤ 10 }
                ensures { result ≡ weighed quadratic element.now 0 (length element.now) }
            { element::weigh(element) },
        )
        .sum()
}

// The total of n elements that are loaded with these numbers.
pub fn loaded_total(numbers: &[u32], n: usize) -> u64
    requires n_le_most_elements { n ≤ most_elements }
    requires n_in_bounds { n * 9 ≤ length numbers.now }
    ensures { result ≡ sum n (λ e. weighted quadratic (loaded_value quadratic numbers.now e)) }
{
    weight::<NODES>(numbers, n)
}

// The total of n elements of a part.
pub fn part_total(part: &[u32], n: usize) -> u64
    requires n_le_most_elements { n ≤ most_elements }
    requires n_in_bounds { n * 10 ≤ length part.now }
    ensures { result ≡ sum n (mass quadratic part.now) }
{
    weight::<NUMBERS>(part, n)
}

// One element's nine values, and remainder 0.
fn lay_element(part: &mut [u32], numbers: &[u32; NODES])
    requires { length part.old ≡ 10 }
    ensures { part.new ≡ loaded_element quadratic numbers.now 0 }
{
    part[..NODES].copy_from_slice(numbers);
    part[NODES] = 0;
}

// Loads n elements. What is written is lent by number: of what stands in parts that `chunks_exact_mut` has lent (tried), a proof knows nothing
// afterwards.
pub fn lay(part: &mut [u32], numbers: &[u32], n: usize)
    requires part_len { length part.old ≡ n * 10 }
    requires n_le_most_elements { n ≤ most_elements }
    requires n_in_bounds { n * 9 ≤ length numbers.now }
    ensures { part.new ≡ blocks n (loaded_element quadratic numbers.now) }
{
    let (elements, _) = numbers.as_chunks::<NODES>();
    for (e, element) in elements[..n].iter().enumerate() {
        let start = e * NUMBERS;
        let end = start + NUMBERS;
        lay_element(&mut part[start..end], element);
    }
}
