// The tests on shapes and winds, and the grid of an admitted shape.
#![tactic(auto)]

ghost use Rattle.std.specs.Prelude.{◌≡◌};
ghost use Rattle.rules.specs.Field.{from1to, admitted, on_grid, wind_in_range};

use rules::Shape;

mod grid; // grid.rt: an admitted shape, and where its numbers stand in the buffers

pub use grid::Grid;

// Whether n is from 1 to most.
fn from_1_to(most: usize, n: usize) -> bool
    ensures { result ≡ from1to most n }
{
    (1..=most).contains(&n)
}

// Whether nx and ny are from 1 to 64 and there are 1 to 8 tracers.
#[tactic(auto, unfolding(rules::specs::Field::admitted))]
pub fn admitted(shape: Shape) -> bool
    ensures { result ≡ admitted shape }
{
    from_1_to(64, shape.nx) && from_1_to(64, shape.ny) && from_1_to(8, shape.tracers)
}

// Whether there is an element (i, j).
pub fn on_grid(shape: Shape, i: usize, j: usize) -> bool
    ensures { result ≡ on_grid shape i j }
{
    i < shape.nx && j < shape.ny
}

// Whether a wind number is from -1024 to 1024.
pub fn wind_in_range(c: i16) -> bool
    ensures { result ≡ wind_in_range c }
{
    (-1024..=1024).contains(&c)
}
