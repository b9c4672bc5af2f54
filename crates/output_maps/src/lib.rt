// What the program of the maps prints for a file, as bytes in a lent buffer.
#![tactic(auto)]

ghost use Rattle.std.specs.Prelude.{◌≡◌, ◌+◌, ◌*◌, ◌≤◌, ◌<◌, length};
ghost use Rattle.io.specs.Counts.{IsPrefixLen};
ghost use Rattle.whole.specs.Table.{blocks, overwrite};
ghost use Rattle.rules.specs.Field.{quadratic, part};
ghost use Rattle.rules.specs.Map.{page_text, page_length};
ghost use Rattle.rules.specs.Program.{map_output};
ghost use Rattle.text.specs.Added.{Added};
ghost use Rattle.output_maps.specs.SoundField.{SoundField};

use field_layout::Grid;
use program_file::{ELEMENTS, SMOKES};
use rules::element::NUMBERS;

// A field every tracer of which is sound: no page of it is refused.
#[derive(Clone, Copy)]
struct FieldPages<'a> {
    field: &'a [u32],
    grid: Grid,
    ghost sound: { SoundField grid.shape field.now },
}

impl FieldPages<'_> {
    // One tracer's page at the front of the buffer, and its bytes.
    fn page(&self, out: &mut [u8], tracer: usize) -> usize
        requires tracer_lt_tracers { tracer < self.now.grid.shape.tracers }
        requires shape_in_bounds { page_length self.now.grid.shape ≤ length out.old }
        ensures { Added (page_length self.now.grid.shape) 0 (page_text quadratic self.now.grid.shape (part quadratic self.now.grid.shape tracer self.now.field.now)) out.old out.new result }
    {
        match map::map(out, self.field, self.grid.shape, tracer) {
            Ok(n) => n as usize, // by `as`: std has no `From` from u64 to usize, and a `try_from` would add an unwrap that can never fail
            Err(_) => unreachable!(), // the map of a sound field is never refused
        }
    }

    // The pages of all tracers, in order. Counted, since each tracer's number is handed on, and with the place where the next page starts: of
    // what stands in parts that `chunks_exact_mut` has lent, a proof knows nothing afterwards.
    fn pages(&self, out: &mut [u8]) -> usize
        requires { self.now.grid.shape.tracers * page_length self.now.grid.shape ≤ length out.old }
        ensures { Added (self.now.grid.shape.tracers * page_length self.now.grid.shape) 0 (blocks self.now.grid.shape.tracers (λ s. page_text quadratic self.now.grid.shape (part quadratic self.now.grid.shape s self.now.field.now))) out.old out.new result }
    {
        let mut end = 0;
        for s in 0..self.grid.shape.tracers {
            end += self.page(&mut out[end..], s);
        }
        end
    }
}

// What the program prints for a file, and its length. A leaf: the output has room for the pages of eight tracers of 2 by 64 elements, the
// longest. `prefix_len` is there for `&out[..n]` at the caller.
pub fn print(file: &[u8], out: &mut [u8]) -> usize
    requires { 39072 ≤ length out.old }
    ensures value { result ≡ length (map_output file.now) }
    ensures prefix_len { IsPrefixLen result out.new }
    ensures out_after { out.new ≡ overwrite 0 (map_output file.now) out.old }
{
    let mut field = [0u32; SMOKES * (ELEMENTS * NUMBERS + 1)];
    let mut wind = [0i16; 2 * ELEMENTS];
    match program_file::read(file, &mut field, &mut wind) {
        Err(r) => program_file::refusal(out, r),
        Ok(shape) => {
            let sound = FieldPages {
                field: &field,
                grid: Grid { shape },
            };
            sound.pages(out)
        }
    }
}
