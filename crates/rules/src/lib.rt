// The types that the calls of documents 01 and 02 take and answer. Their meaning is in specs/.
#![tactic(auto)]

ghost use Rattle.std.specs.Prelude.{◌≡◌};
ghost use Rattle.rules.specs.Answers.{number};

pub mod element; // element.rt: the nodes of an element and their weights

// The shape of a field: nx by ny elements, and how many tracers (document 01: smokes, K).
#[derive(Clone, Copy)]
pub struct Shape {
    pub nx: usize,
    pub ny: usize,
    pub tracers: usize,
}

// Which way a face looks from the element that owns it.
#[derive(Clone, Copy)]
pub enum Way {
    East,
    North,
}

// A wind call's record: the face of element (i, j) that looks `way`, and its new wind in 1/4096 element a step.
#[derive(Clone, Copy)]
pub struct Face {
    pub way: Way,
    pub i: usize,
    pub j: usize,
    pub wind: i16,
}

// The numbers of a wind record that has both, in elements a step (document 02, 2026-01).
#[derive(Clone, Copy)]
pub struct WindPair {
    pub east: f64,
    pub north: f64,
}

// A wind record of the weather office, by its kind.
#[derive(Clone, Copy)]
pub enum WindRecord {
    // kind 0: no wind
    Calm,
    // kind 1: an east and a north component
    Both(WindPair),
    // kind 2: an east component, and no wind north
    East(f64),
}

// The mark that a field file ends with.
#[derive(Clone, Copy)]
pub enum Mark {
    // "PLUM": its smoke sections hold elements alone
    Plum,
    // "PLU2" (document 02, 2026-06): a smoke section ends with the stored total
    Plu2,
}

// Why a call was refused, in the order of the refusals' numbers. Every call answers a Result with it: () of wind, import, fresh and load; a number of
// emission, withdrawal and step (the clipped mass), of a reading and of file writing; the shape of file reading.
#[derive(Clone, Copy)]
pub enum Refusal {
    // 1: the end of the file is not that of a field file
    NoFieldFile,
    // 2: the shape is outside its ranges
    BadShape,
    // 3: offsets or length of the file are not what its shape gives
    BadOffsets,
    // 4: a buffer is too short
    ShortBuffer,
    // 5: a wind number is out of range
    WindOutOfRange,
    // 6: a remainder above 35, a total above the limit, or a stored total that is not the sum or is below what the named element holds
    UnsoundTracer,
    // 7: there is no such tracer
    NoSuchTracer,
    // 8: there is no such element or face
    NoSuchElement,
    // 9: the tracer's total would be above the limit
    TotalAboveLimit,
    // 10: the element holds less than was to be withdrawn
    MassTooSmall,
    // 11: wind records with an unknown kind, a missing byte or bytes left over
    BrokenRecords,
    // 12: a wind record's number is not finite
    NotFinite,
}

// The number that the documents give to a refusal.
impl From<Refusal> for u8 {
    ghost from_gives = { λ r n. n ≡ number r };

    fn from(r: Refusal) -> u8 {
        match r {
            Refusal::NoFieldFile => 1,
            Refusal::BadShape => 2,
            Refusal::BadOffsets => 3,
            Refusal::ShortBuffer => 4,
            Refusal::WindOutOfRange => 5,
            Refusal::UnsoundTracer => 6,
            Refusal::NoSuchTracer => 7,
            Refusal::NoSuchElement => 8,
            Refusal::TotalAboveLimit => 9,
            Refusal::MassTooSmall => 10,
            Refusal::BrokenRecords => 11,
            Refusal::NotFinite => 12,
        }
    }
}
