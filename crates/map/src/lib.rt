// The reading map: a tracer's page, for the printer.
// The call has no `requires`: what the documents don't admit is refused by its number, and a refused call writes nothing.
#![tactic(auto)]

ghost use Rattle.rules.specs.Field.{quadratic};
ghost use Rattle.rules.specs.Map.{MapGives};
ghost use Rattle.rules.specs.Answers.{answers};

use field_layout::Grid;
use rules::{Refusal, Shape};

// A tracer's page at the front of the buffer, and its bytes. The checks after the page's length are those of the tracer's sum.
pub fn map(page: &mut [u8], field: &[u32], shape: Shape, tracer: usize) -> Result<u64, Refusal>
    ensures { MapGives quadratic shape tracer field.now page.old (answers result) page.new }
{
    let grid = Grid::try_from(shape)?;
    if page.len() < map_lines::page_length(grid) {
        return Err(Refusal::ShortBuffer);
    }
    let sum = field::sum_on(field, grid, tracer)?;
    let end = map_lines::page(page, field, grid, tracer, sum);
    Ok(end as u64) // by `as`: std has no `From` from usize to u64, and a `try_from` would add an unwrap that can never fail
}
