// Sections of a field file: numbers one after the other. All functions are leaves of file reading and writing: the section and the
// buffer are long enough.
#![tactic(auto)]

ghost use Rattle.std.specs.Prelude.{◌≡◌, ◌*◌, ◌/◌, ◌≤◌, length, get_or};
ghost use Rattle.whole.specs.Sum.{all};
ghost use Rattle.whole.specs.Table.{table, blocks, overwrite};
ghost use Rattle.rules.specs.Field.{wind_in_range};
ghost use Rattle.rules.specs.Bytes.{number16};

use field_layout::wind_in_range;
use file_numbers::Stored;

pub mod part; // part.rt: a tracer's part, read from its section
pub mod search; // search.rt: the search of a tracer's section

// Reads a number of the section for each entry of `out`. Here and below a number stands by its place: of what stands in
// entries that a zip with `iter_mut`, or `chunks_exact_mut`, has lent, a proof knows nothing afterwards.
pub fn read_all<T: Stored>(section: &[u8], out: &mut [T])
    requires { T.SIZE * length out.old ≤ length section.now }
    ensures { out.new ≡ table (length out.old) (λ i. T.number section.now (T.SIZE * i)) }
{
    for (i, x) in out.iter_mut().enumerate() {
        *x = T::read(&section[i * T::SIZE..]);
    }
}

// Writes the numbers one after the other. No entry past the last is read, so d is any number.
pub fn write_all<T: Stored>(section: &mut [u8], numbers: &[T])
    requires { T.SIZE * length numbers.now ≤ length section.old }
    ensures { (d : T) → section.new ≡ overwrite 0 (blocks (length numbers.now) (λ i. T.bytes (get_or numbers.now i d))) section.old }
{
    for (i, x) in numbers.iter().enumerate() {
        x.write(&mut section[i * T::SIZE..]);
    }
}

// Whether each wind of the wind section is in its range. One chain, as of a field's winds (field_search), but over bytes.
pub fn winds_sound(section: &[u8]) -> bool
    ensures { result ≡ all (length section.now / 2) (λ f. wind_in_range (number16 section.now (2 * f))) }
{
    section
        .chunks_exact(i16::SIZE)
        .all(|bytes| wind_in_range(i16::read(bytes)))
}
