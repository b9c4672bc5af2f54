// A tracer's part, read from its section of a file. `as`: a total within the limit fits, and `try_from` would want an `unwrap` that never fails.
ghost use Rattle.std.specs.Prelude.{◌≡◌, ◌*◌, true, length};
ghost use Rattle.rules.specs.Field.{quadratic, part_length, total, sound};
ghost use Rattle.rules.specs.FieldFile.{section_length};
ghost use Rattle.file_sections.specs.Numbers.{part_of_section};

use crate::search;
use file_layout::Layout;
use rules::Mark;

// A leaf: reads a sound section into its tracer's part. Of "PLUM" the total is worked out.
pub fn read_part(section: &[u8], part: &mut [u32], layout: Layout)
    requires section_len { length section.now ≡ 4 * section_length quadratic layout.mark layout.grid.shape }
    requires part_len { length part.old ≡ part_length quadratic layout.grid.shape }
    requires section_sound { sound quadratic layout.grid.shape (part_of_section layout.mark layout.grid.shape section.now) ≡ true }
    ensures { part.new ≡ part_of_section layout.mark layout.grid.shape section.now }
{
    let Ok(sum) = search::tracer_sum(section, layout) else {
        unreachable!(); // the section is sound
    };
    read_summed(section, sum, part, layout);
}

// A leaf: the same, where the search of the section has found its sum: the elements of "PLUM" are not summed again.
pub fn read_summed(section: &[u8], sum: u64, part: &mut [u32], layout: Layout)
    requires section_len { length section.now ≡ 4 * section_length quadratic layout.mark layout.grid.shape }
    requires part_len { length part.old ≡ part_length quadratic layout.grid.shape }
    requires section_sound { sound quadratic layout.grid.shape (part_of_section layout.mark layout.grid.shape section.now) ≡ true }
    requires section_sum { sum ≡ total quadratic layout.grid.shape (part_of_section layout.mark layout.grid.shape section.now) }
    ensures { part.new ≡ part_of_section layout.mark layout.grid.shape section.now }
{
    let n = layout.section_length();
    crate::read_all(section, &mut part[..n]);
    if let Mark::Plum = layout.mark {
        part[n] = sum as u32;
    }
}
