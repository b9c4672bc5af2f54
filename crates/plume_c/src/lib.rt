// Calls for C: numbers and buffers in, a number out. include/plume.h declares them.
// An answer is 0 where the call is accepted, else the refusal's number; of a call that gives a number it is that number, or the refusal's number
// negated.
// What each gives is what the call of the library gives, told by these numbers. Shape, element and face are lent number by number, since C has no
// type of the library's.
#![tactic(auto)]

ghost use Rattle.rules.specs.Field.{quadratic};
ghost use Rattle.rules.specs.Calls.{load, emission, withdrawal, mass_reading, total_reading, CallGives, StepGives, FreshGives, WindGives, one_face, from_records};
ghost use Rattle.rules.specs.FieldFile.{ReadGives, WriteGives};
ghost use Rattle.rules.specs.Map.{MapGives};
ghost use Rattle.c_numbers.specs.Numbers.{shape_of, face_of, coded, numbered, shaped};

// Zeros in field and wind.
#[unsafe(no_mangle)]
pub extern "C" fn plume_fresh(
    field: &mut [u32],
    wind: &mut [i16],
    nx: usize,
    ny: usize,
    smokes: usize,
) -> u8
    ensures { FreshGives quadratic (shape_of nx ny smokes) field.old wind.old (coded result) field.new wind.new }
{
    let shape = c_numbers::shape(nx, ny, smokes);
    c_numbers::code(field::fresh(field, wind, shape))
}

// A new wind for one face.
#[unsafe(no_mangle)]
pub extern "C" fn plume_wind(
    wind: &mut [i16],
    nx: usize,
    ny: usize,
    smokes: usize,
    way: u8,
    i: usize,
    j: usize,
    c: i16,
) -> u8
    ensures { WindGives (shape_of nx ny smokes) (one_face (face_of way i j c)) wind.old (coded result) wind.new }
{
    let shape = c_numbers::shape(nx, ny, smokes);
    let face = c_numbers::face(way, i, j, c);
    c_numbers::code(field::wind(wind, shape, face))
}

// The winds of all faces from wind records.
#[unsafe(no_mangle)]
pub extern "C" fn plume_import(
    wind: &mut [i16],
    records: &[u8],
    nx: usize,
    ny: usize,
    smokes: usize,
) -> u8
    ensures { WindGives (shape_of nx ny smokes) (from_records records.now) wind.old (coded result) wind.new }
{
    let shape = c_numbers::shape(nx, ny, smokes);
    c_numbers::code(wind_import::import(wind, records, shape))
}

// Nine numbers for each element of a smoke.
#[unsafe(no_mangle)]
pub extern "C" fn plume_load(
    field: &mut [u32],
    numbers: &[u32],
    nx: usize,
    ny: usize,
    smokes: usize,
    smoke: usize,
) -> u8
    ensures { CallGives quadratic (shape_of nx ny smokes) smoke (load numbers.now) field.old (coded result) field.new }
{
    let shape = c_numbers::shape(nx, ny, smokes);
    c_numbers::code(field::load(field, numbers, shape, smoke))
}

// Emission of q into an element: the clipped mass.
#[unsafe(no_mangle)]
pub extern "C" fn plume_emission(
    field: &mut [u32],
    nx: usize,
    ny: usize,
    smokes: usize,
    smoke: usize,
    i: usize,
    j: usize,
    q: u64,
) -> i64
    ensures { CallGives quadratic (shape_of nx ny smokes) smoke (emission i j q) field.old (numbered result) field.new }
{
    let shape = c_numbers::shape(nx, ny, smokes);
    c_numbers::number_or(field::emission(field, shape, smoke, i, j, q))
}

// Withdrawal of q from an element: the clipped mass.
#[unsafe(no_mangle)]
pub extern "C" fn plume_withdrawal(
    field: &mut [u32],
    nx: usize,
    ny: usize,
    smokes: usize,
    smoke: usize,
    i: usize,
    j: usize,
    q: u64,
) -> i64
    ensures { CallGives quadratic (shape_of nx ny smokes) smoke (withdrawal i j q) field.old (numbered result) field.new }
{
    let shape = c_numbers::shape(nx, ny, smokes);
    c_numbers::number_or(field::withdrawal(field, shape, smoke, i, j, q))
}

// A step of one smoke: the clipped mass.
#[unsafe(no_mangle)]
pub extern "C" fn plume_step(
    field: &mut [u32],
    wind: &[i16],
    report: &mut [i32],
    work: &mut [i64],
    nx: usize,
    ny: usize,
    smokes: usize,
    smoke: usize,
) -> i64
    ensures { StepGives quadratic (shape_of nx ny smokes) smoke field.old wind.now report.old work.old (numbered result) field.new report.new work.new }
{
    let shape = c_numbers::shape(nx, ny, smokes);
    c_numbers::number_or(step::step(field, wind, report, work, shape, smoke))
}

// What an element holds.
#[unsafe(no_mangle)]
pub extern "C" fn plume_mass(
    field: &[u32],
    nx: usize,
    ny: usize,
    smokes: usize,
    smoke: usize,
    i: usize,
    j: usize,
) -> i64
    ensures { numbered result (mass_reading quadratic (shape_of nx ny smokes) smoke i j field.now) }
{
    let shape = c_numbers::shape(nx, ny, smokes);
    c_numbers::number_or(field::mass(field, shape, smoke, i, j))
}

// A smoke's total.
#[unsafe(no_mangle)]
pub extern "C" fn plume_total(
    field: &[u32],
    nx: usize,
    ny: usize,
    smokes: usize,
    smoke: usize,
) -> i64
    ensures { numbered result (total_reading quadratic (shape_of nx ny smokes) smoke field.now) }
{
    let shape = c_numbers::shape(nx, ny, smokes);
    c_numbers::number_or(field::total(field, shape, smoke))
}

// A smoke's page for the printer: its bytes.
#[unsafe(no_mangle)]
pub extern "C" fn plume_map(
    page: &mut [u8],
    field: &[u32],
    nx: usize,
    ny: usize,
    smokes: usize,
    smoke: usize,
) -> i64
    ensures { MapGives quadratic (shape_of nx ny smokes) smoke field.now page.old (numbered result) page.new }
{
    let shape = c_numbers::shape(nx, ny, smokes);
    c_numbers::number_or(map::map(page, field, shape, smoke))
}

// Reads a field file: its shape as nx + 256 ny + 65536 K.
#[unsafe(no_mangle)]
pub extern "C" fn plume_read(field: &mut [u32], wind: &mut [i16], file: &[u8]) -> i64
    ensures { ReadGives quadratic file.now field.old wind.old (shaped result) field.new wind.new }
{
    c_numbers::shape_or(file_reading::read(file, field, wind))
}

// Writes a field file: its length in bytes.
#[unsafe(no_mangle)]
pub extern "C" fn plume_write(
    file: &mut [u8],
    field: &[u32],
    wind: &[i16],
    nx: usize,
    ny: usize,
    smokes: usize,
) -> i64
    ensures { WriteGives quadratic (shape_of nx ny smokes) field.now wind.now file.old (numbered result) file.new }
{
    let shape = c_numbers::shape(nx, ny, smokes);
    c_numbers::number_or(file_writing::write(file, field, wind, shape))
}
