// The checks of a file that need its shape: 3 to 6. Leaves of `read`.
ghost use Rattle.std.specs.Prelude.{◌≡◌, ◌*◌, ◌≤◌, eqb, length, is_some, IfSome, IfOk};
ghost use Rattle.rules.specs.Answers.{answered, plain};
ghost use Rattle.rules.specs.Field.{quadratic};
ghost use Rattle.rules.specs.Bytes.{number32};
ghost use Rattle.rules.specs.FieldFile.{section_length, offsets_right, file_field, field_sound};
ghost use Rattle.file_sections.specs.Numbers.{parts_of_sections};
ghost use Rattle.file_reading.specs.Reading.{shape_reply, AreTotals};

use file_layout::Layout;
use file_numbers::Stored;
use rules::Refusal;

// The most tracers of a shape.
pub(crate) const TRACERS: usize = 8;

// Whether these bytes begin with this place of the file.
fn is_place(bytes: &[u8], place: usize) -> bool
    requires { 4 ≤ length bytes.now }
    ensures { result ≡ eqb (number32 bytes.now 0) place }
{
    usize::try_from(u32::read(bytes)) == Ok(place)
}

// Whether length and offsets of the file are what the shape gives, by the layout of its mark.
fn offsets_right(file: &[u8], layout: Layout) -> bool
    ensures { result ≡ offsets_right quadratic layout.mark layout.grid.shape file.now }
{
    let n = file.len();
    if n != layout.file_length() {
        return false;
    }
    let table = layout.table_start();
    if !is_place(&file[n - 8..], table) {
        return false;
    }
    file[table..n - 12]
        .chunks_exact(4)
        .enumerate()
        .all(|(i, offset)| is_place(offset, layout.section_start(i)))
}

// The totals of the tracers' sections, in order, where every section is sound. A loop, as a closure that kept them would tell a proof nothing.
fn tracer_totals(sections: &[u8], layout: Layout) -> Option<[u64; TRACERS]>
    requires { length sections.now ≡ layout.grid.shape.tracers * (4 * section_length quadratic layout.mark layout.grid.shape) }
    ensures sound { is_some result ≡ field_sound quadratic layout.grid.shape (parts_of_sections layout.mark layout.grid.shape sections.now) }
    ensures totals { IfSome result (λ t. AreTotals layout.grid.shape (parts_of_sections layout.mark layout.grid.shape sections.now) t) }
{
    let mut totals = [0; TRACERS];
    for (s, section) in sections
        .chunks_exact(4 * layout.section_length())
        .enumerate()
    {
        let Ok(sum) = file_sections::search::tracer_sum(section, layout) else {
            return None;
        };
        totals[s] = sum;
    }
    Some(totals)
}

// The checks 3 to 6, for buffers of these lengths, and the tracers' totals, which the search for 6 finds.
pub(crate) fn check(
    file: &[u8],
    field: usize,
    wind: usize,
    layout: Layout,
) -> Result<[u64; TRACERS], Refusal>
    ensures reply { plain (answered result) ≡ shape_reply layout.mark layout.grid.shape file.now field wind }
    ensures totals { IfOk result (λ t. AreTotals layout.grid.shape (file_field quadratic layout.mark layout.grid.shape file.now) t) }
{
    let grid = layout.grid;
    if !offsets_right(file, layout) {
        return Err(Refusal::BadOffsets);
    }
    if field < grid.field_length() {
        return Err(Refusal::ShortBuffer);
    }
    if wind < grid.faces() {
        return Err(Refusal::ShortBuffer);
    }
    let (winds, tracers) = crate::sections(file, layout);
    if !file_sections::winds_sound(winds) {
        return Err(Refusal::WindOutOfRange);
    }
    let Some(totals) = tracer_totals(tracers, layout) else {
        return Err(Refusal::UnsoundTracer);
    };
    Ok(totals)
}
