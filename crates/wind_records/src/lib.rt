// Wind records of the weather office (document 02, 2026-01): a record from its bytes, and the winds that it gives its element's faces.
#![tactic(auto)]

ghost use Rattle.std.specs.Prelude.{◌≡◌, ◌&&◌, T, drop, is_ok, IfOk, IsOkUnless};
ghost use Rattle.rules.specs.Answers.{answer, answered};
ghost use Rattle.rules.specs.Bytes.{byte_at};
ghost use Rattle.rules.specs.Field.{wind_in_range};
ghost use Rattle.rules.specs.WindRecords.{finite, components, record_length, components_at, whole_at, reading_checks, record_checks};
ghost use Rattle.wind_records.specs.Records.{kind_number, KindOf, front, capped_wind, winds_at};

use rules::{Refusal, WindPair, WindRecord};

mod double; // double.rt: an f64 by its bits, and the wind that it becomes

// The kinds of a record, by the byte in front.
#[derive(Clone, Copy)]
pub enum Kind {
    Calm,
    Both,
    East,
}

impl TryFrom<u8> for Kind {
    type Error = Refusal;

    ghost try_from_gives = { KindOf };

    fn try_from(byte: u8) -> Result<Kind, Refusal> {
        match byte {
            0 => Ok(Kind::Calm),
            1 => Ok(Kind::Both),
            2 => Ok(Kind::East),
            _ => Err(Refusal::BrokenRecords),
        }
    }
}

impl Kind {
    // The bytes of a record of this kind.
    pub fn record_length(self) -> usize
        ensures { result ≡ record_length (kind_number self) }
    {
        match self {
            Kind::Calm => 1,
            Kind::Both => 17,
            Kind::East => 9,
        }
    }
}

// The winds of an element's east and north face.
#[derive(Clone, Copy)]
pub struct Winds {
    pub east: i16,
    pub north: i16,
}

impl Winds {
    fn in_range(self) -> bool
        ensures { result ≡ (wind_in_range self.east && wind_in_range self.north) }
    {
        field_layout::wind_in_range(self.east) && field_layout::wind_in_range(self.north)
    }
}

// The bytes of a record whose kind byte is this one; of no known kind the kind byte alone. It takes a byte and no `Kind`, because the
// definition of the records gives a byte of no kind its length, too. No call needs it; it stays for what it promises.
pub fn record_length(kind: u8) -> usize
    ensures { result ≡ record_length kind }
{
    Kind::try_from(kind).map_or(1, Kind::record_length)
}

// A leaf: the kind of the record at the front and the bytes after it, if it is of a known kind and has all its bytes.
#[tactic(auto, unfolding(rules::specs::WindRecords::whole_at))]
pub fn first_kind(records: &[u8]) -> Result<(Kind, &[u8]), Refusal>
    ensures whole { is_ok result ≡ whole_at records.now 0 }
    ensures kind { IfOk result (λ r. kind_number r.0 ≡ byte_at records.now 0) }
    ensures rest { IfOk result (λ r. r.1.now ≡ drop (record_length (byte_at records.now 0)) records.now) }
    ensures refusal { IsOkUnless result Refusal.BrokenRecords }
{
    let byte = *records.first().ok_or(Refusal::BrokenRecords)?;
    let kind = Kind::try_from(byte)?;
    let rest = records
        .get(kind.record_length()..)
        .ok_or(Refusal::BrokenRecords)?;
    Ok((kind, rest))
}

// A leaf: the record at the front, and the bytes after it.
#[tactic(auto, unfolding(rules::specs::WindRecords::whole_at, rules::specs::WindRecords::reading_checks, rules::specs::WindRecords::components_at, rules::specs::WindRecords::components, rules::specs::Answers::answer))]
pub fn first_record(records: &[u8]) -> Result<(WindRecord, &[u8]), Refusal>
    ensures record { answered (front components result) ≡ answer (reading_checks records.now 0) (components_at records.now 0) }
    ensures rest { IfOk result (λ r. r.1.now ≡ drop (record_length (byte_at records.now 0)) records.now) }
{
    let (kind, rest) = first_kind(records)?;
    let record = match kind {
        Kind::Calm => WindRecord::Calm,
        Kind::Both => {
            let east = file_numbers::number64(records, 1);
            let north = file_numbers::number64(records, 9);
            WindRecord::Both(WindPair {
                east: double::of_bits(east)?,
                north: double::of_bits(north)?,
            })
        }
        Kind::East => WindRecord::East(double::of_bits(file_numbers::number64(records, 1))?),
    };
    Ok((record, rest))
}

// A leaf, and no From, since it asks that the numbers are finite: the winds of a record; a size above 4096 becomes 4096, which is out of range as well.
#[tactic(auto, using(crate::proofs::DoubleLaws::capped_zero), unfolding(rules::specs::WindRecords::components))]
pub fn winds_of(w: WindRecord) -> Winds
    requires t { T (finite (components w).east_bits) }
    requires t_2 { T (finite (components w).north_bits) }
    ensures { (result.east ≡ capped_wind (components w).east_bits) × (result.north ≡ capped_wind (components w).north_bits) }
{
    match w {
        WindRecord::Calm => Winds { east: 0, north: 0 },
        WindRecord::Both(pair) => {
            let east = double::face_wind(pair.east);
            let north = double::face_wind(pair.north);
            Winds { east, north }
        }
        WindRecord::East(x) => {
            let east = double::face_wind(x);
            Winds { east, north: 0 }
        }
    }
}

// A leaf: the winds of the record at the front and the bytes after it, or the refusal that it meets first.
#[tactic(auto, unfolding(rules::specs::WindRecords::record_checks, rules::specs::WindRecords::reading_checks, rules::specs::Answers::answer))]
pub fn first_winds(records: &[u8]) -> Result<(Winds, &[u8]), Refusal>
    ensures winds { answered (front (λ w. w) result) ≡ answer (record_checks records.now 0) (winds_at records.now 0) }
    ensures rest { IfOk result (λ r. r.1.now ≡ drop (record_length (byte_at records.now 0)) records.now) }
{
    let (record, rest) = first_record(records)?;
    let winds = winds_of(record);
    if winds.in_range() {
        Ok((winds, rest))
    } else {
        Err(Refusal::WindOutOfRange)
    }
}
