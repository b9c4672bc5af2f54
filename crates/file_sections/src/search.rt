// The search of a tracer's section of a file, on its bytes: a reader writes no number before every tracer has passed.
ghost use Rattle.std.specs.Prelude.{◌≡◌, ◌+◌, ◌*◌, ◌≤◌, length};
ghost use Rattle.rules.specs.Answers.{answered};
ghost use Rattle.rules.specs.Bytes.{number32};
ghost use Rattle.rules.specs.Field.{quadratic, sound};
ghost use Rattle.rules.specs.FieldFile.{section_length};
ghost use Rattle.field_search.specs.Search.{compared};
ghost use Rattle.file_sections.specs.Numbers.{part_of_section};

use field_search::Numbers;
use file_layout::Layout;
use file_numbers::Stored;
use rules::{Mark, Refusal};

// A tracer's section: its numbers one after the other.
#[derive(Clone, Copy)]
pub struct Section<'a> {
    pub bytes: &'a [u8],
}

impl Numbers for Section<'_> {
    ghost use Rattle.std.specs.Prelude.{length, ◌/◌};
    ghost use Rattle.file_sections.specs.Numbers.{numbers_of};

    ghost numbers = { λ s. numbers_of s.bytes.now (length s.bytes.now / 4) };

    fn number(&self, k: usize) -> u32 {
        number(self.bytes, k)
    }
}

// Number k of a section. A function of its own, whose clause says that the number's bytes are there; the trait's clause speaks of numbers.
fn number(section: &[u8], k: usize) -> u32
    requires { 4 * k + 4 ≤ length section.now }
    ensures { result ≡ number32 section.now (4 * k) }
{
    u32::read(&section[4 * k..])
}

// A leaf: the sum of what a tracer's section holds; refusal 6 where the section is unsound: "PLUM" has no total that its sum could differ from.
pub fn tracer_sum(section: &[u8], layout: Layout) -> Result<u64, Refusal>
    requires { length section.now ≡ 4 * section_length quadratic layout.mark layout.grid.shape }
    ensures { answered result ≡ compared layout.grid.shape (part_of_section layout.mark layout.grid.shape section.now) }
{
    let numbers = Section { bytes: section };
    match layout.mark {
        Mark::Plum => field_search::search(&numbers, layout.grid),
        Mark::Plu2 => field_search::compared_sum(&numbers, layout.grid),
    }
}

// A leaf: whether a tracer's section is sound.
pub fn tracer_sound(section: &[u8], layout: Layout) -> bool
    requires { length section.now ≡ 4 * section_length quadratic layout.mark layout.grid.shape }
    ensures { result ≡ sound quadratic layout.grid.shape (part_of_section layout.mark layout.grid.shape section.now) }
{
    tracer_sum(section, layout).is_ok()
}
