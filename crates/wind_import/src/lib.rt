// The import of wind records (document 02, 2026-01): two walks over the records, the first one checks, the second one writes.
#![tactic(auto)]

ghost use Rattle.std.specs.Prelude.{◌≡◌, length};
ghost use Rattle.whole.specs.Table.{table};
ghost use Rattle.rules.specs.Answers.{accepted, answer, answers};
ghost use Rattle.rules.specs.Calls.{WindGives, from_records};
ghost use Rattle.rules.specs.WindRecords.{east_wind, north_wind, all_record_checks};

use field_layout::Grid;
use rules::{Refusal, Shape};

// Whether the records of n elements pass, with no byte left over. Counted, since only n says which record is the last.
fn check(records: &[u8], n: usize) -> Result<(), Refusal>
    ensures { answers result (answer (all_record_checks records.now n) tt) }
{
    let mut left = records;
    for _ in 0..n {
        let (_, rest) = wind_records::first_winds(left)?;
        left = rest;
    }
    if left.is_empty() {
        Ok(())
    } else {
        Err(Refusal::BrokenRecords)
    }
}

// Writes the winds of the records, one for each east face and its north face; all of them have passed. The second half is written by place:
// of the numbers behind `easts.iter_mut().zip(norths)` a proof knows nothing afterwards.
fn lay(easts: &mut [i16], norths: &mut [i16], records: &[u8])
    requires halves { length norths.old ≡ length easts.old }
    requires passed { accepted (tt {0}) ≡ answer (all_record_checks records.now (length easts.old)) tt }
    ensures east { easts.new ≡ table (length easts.old) (east_wind records.now) }
    ensures north { norths.new ≡ table (length easts.old) (north_wind records.now) }
{
    let mut left = records;
    for (e, east) in easts.iter_mut().enumerate() {
        let Ok((winds, rest)) = wind_records::first_winds(left) else {
            unreachable!(); // every record has passed
        };
        *east = winds.east;
        norths[e] = winds.north;
        left = rest;
    }
}

// Every face gets the wind of its element's record.
pub fn import(wind: &mut [i16], records: &[u8], shape: Shape) -> Result<(), Refusal>
    ensures { WindGives shape (from_records records.now) wind.old (answers result) wind.new }
{
    let grid = Grid::try_from(shape)?;
    if wind.len() < grid.faces() {
        return Err(Refusal::ShortBuffer);
    }
    let n = grid.elements();
    check(records, n)?;
    let (easts, norths) = wind.split_at_mut(n);
    lay(easts, &mut norths[..n], records);
    Ok(())
}
