// Searches of stored numbers: the winds, and a tracer's numbers, "by rows, elements and numbers ends at the first break".
#![tactic(auto)]

ghost use Rattle.std.specs.Prelude.{◌≡◌, ◌≤◌, ◌<◌, ℕ, List, length, get_or};
ghost use Rattle.rules.specs.Answers.{answered};
ghost use Rattle.rules.specs.Field.{quadratic, faces, elements_length, part_length};
ghost use Rattle.rules.specs.Calls.{wind_sound};
ghost use Rattle.field_search.specs.Search.{breaks, searched, compared};

use field_elements::element::number_weight;
use field_layout::{Grid, wind_in_range};
use rules::element::{NODES, NUMBERS};
use rules::{Refusal, Shape};

// A leaf: whether every stored wind is in its range.
pub fn winds_sound(wind: &[i16], grid: Grid) -> bool
    requires { faces grid.shape ≤ length wind.now }
    ensures { result ≡ wind_sound grid.shape wind.now }
{
    wind[..grid.faces()].iter().all(|c| wind_in_range(*c))
}

// The largest remainder of an element, and the largest total of a tracer.
pub const LARGEST_REMAINDER: u64 = 35;

pub const LIMIT: u64 = 100_000_000;

// Whether a search of a tracer ends at number v of an element: x is a remainder above 35, or sum, the total with it, is above the limit.
#[tactic(auto, unfolding(crate::specs::Search::breaks))]
pub fn breaks(v: usize, x: u64, sum: u64) -> bool
    ensures { result ≡ breaks v x sum }
{
    v == NODES && LARGEST_REMAINDER < x || LIMIT < sum
}

// A tracer's numbers, wherever they are read from: a part of the field, or a section of a file.
pub trait Numbers {
    // The numbers, in field order.
    ghost numbers: { Self → List ℕ };

    fn number(&self, k: usize) -> u32
        requires { k < length (numbers self.now) }
        ensures { result ≡ get_or (numbers self.now) k 0 };
}

// A tracer's part of the field.
#[derive(Clone, Copy)]
pub struct Part<'a> {
    pub numbers: &'a [u32],
}

impl Numbers for Part<'_> {
    ghost numbers = { λ p. p.numbers.now };

    fn number(&self, k: usize) -> u32 {
        self.numbers[k]
    }
}

// A leaf: the sum of what a tracer's elements hold; refusal 6 where a remainder is above 35 or the sum above the limit.
pub fn search<N: Numbers>(numbers: &N, grid: Grid) -> Result<u64, Refusal>
    requires { elements_length quadratic grid.shape ≤ length (N.numbers numbers.now) }
    ensures { answered result ≡ searched grid.shape (N.numbers numbers.now) }
{
    let Shape { nx, ny, .. } = grid.shape;
    let mut sum = 0;
    // Document 01 names the form: "nested labelled loops left from the innermost". A `for` that is left by its label has no value, and of a labelled
    // block around the loops it would be the block that is left: hence a flag, beside the sum.
    let mut sound = true;
    let mut start = 0;
    'rows: for j in 0..ny {
        'elements: for i in 0..nx {
            'numbers: for v in 0..NUMBERS {
                let x = u64::from(numbers.number(start + v));
                sum += number_weight(v) * x;
                if breaks(v, x, sum) {
                    sound = false;
                    break 'rows;
                }
            }
            start += NUMBERS;
        }
    }
    if sound {
        Ok(sum)
    } else {
        Err(Refusal::UnsoundTracer)
    }
}

// A leaf: the same, and refusal 6 where the sum is not the stored total.
pub fn compared_sum<N: Numbers>(numbers: &N, grid: Grid) -> Result<u64, Refusal>
    requires { length (N.numbers numbers.now) ≡ part_length quadratic grid.shape }
    ensures { answered result ≡ compared grid.shape (N.numbers numbers.now) }
{
    let sum = search(numbers, grid)?;
    if u64::from(numbers.number(grid.elements_length())) != sum {
        return Err(Refusal::UnsoundTracer);
    }
    Ok(sum)
}

// A leaf: the same of a part of the field.
pub fn part_sum(part: &[u32], grid: Grid) -> Result<u64, Refusal>
    requires { length part.now ≡ part_length quadratic grid.shape }
    ensures { answered result ≡ compared grid.shape part.now }
{
    compared_sum(&Part { numbers: part }, grid)
}
