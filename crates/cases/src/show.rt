// What a line is made of: an answer, numbers, and what a call left in the buffers.
use super::calls::{self, Place};
use rules::{Refusal, Shape};
use std::fmt;

// What a call answered: its result, or the number of its refusal.
#[derive(Drop)]
pub(crate) struct Answer<T>(pub(crate) Result<T, Refusal>);

impl<T: fmt::Display> fmt::Display for Answer<T> {
    fn fmt<W: fmt::Write>(&self, f: &mut fmt::Formatter<W>) -> fmt::Result {
        match &self.0 {
            Ok(result) => write!(f, "{result}"),
            Err(r) => write!(f, "refused {}", u8::from(*r)),
        }
    }
}

// The answer of a call that has no result.
pub(crate) fn outcome(answer: Result<(), Refusal>) -> Answer<&'static str> {
    Answer(answer.map(|()| "accepted"))
}

// The clipped mass that an accepted call answers.
#[derive(Drop)]
pub(crate) struct Clipped(pub(crate) u64);

impl fmt::Display for Clipped {
    fn fmt<W: fmt::Write>(&self, f: &mut fmt::Formatter<W>) -> fmt::Result {
        write!(f, "accepted, clipped {}", self.0)
    }
}

// Each number after a space.
#[derive(Drop)]
pub(crate) struct Numbers<'a, T>(pub(crate) &'a [T]);

impl<T: fmt::Display> fmt::Display for Numbers<'_, T> {
    fn fmt<W: fmt::Write>(&self, f: &mut fmt::Formatter<W>) -> fmt::Result {
        for n in self.0 {
            write!(f, " {n}")?;
        }
        Ok(())
    }
}

// A field buffer after a call: unchanged, or else the readings at a place.
#[derive(Drop)]
pub(crate) struct FieldLeft<'a> {
    pub(crate) before: &'a [u32],
    pub(crate) after: &'a [u32],
    pub(crate) shape: Shape,
    pub(crate) place: Place,
}

impl fmt::Display for FieldLeft<'_> {
    fn fmt<W: fmt::Write>(&self, f: &mut fmt::Formatter<W>) -> fmt::Result {
        if self.before == self.after {
            return f.write_str(", field unchanged");
        }
        let mass = calls::mass_at(self.after, self.shape, self.place);
        let total = field::total(self.after, self.shape, self.place.tracer);
        write!(f, ", mass {}, total {}", Answer(mass), Answer(total))
    }
}

// A wind buffer after a call: unchanged, or else its numbers.
#[derive(Drop)]
pub(crate) struct WindsLeft {
    pub(crate) before: [i16; 5],
    pub(crate) after: [i16; 5],
}

impl fmt::Display for WindsLeft {
    fn fmt<W: fmt::Write>(&self, f: &mut fmt::Formatter<W>) -> fmt::Result {
        if self.before == self.after {
            return f.write_str(", winds unchanged");
        }
        write!(f, ", winds{}", Numbers(&self.after))
    }
}
