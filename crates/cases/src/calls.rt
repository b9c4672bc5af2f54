// One line for a call: it runs on a copy of the buffers that it is given, and tells what it answered and what it left.
use super::show::{self, Answer, Clipped, FieldLeft, WindsLeft};
use rules::{Face, Refusal, Shape, Way};
use std::{fmt, io};

// An element of a tracer.
#[derive(Clone, Copy)]
pub(crate) struct Place {
    pub(crate) tracer: usize,
    pub(crate) i: usize,
    pub(crate) j: usize,
}

pub(crate) fn at(tracer: usize, i: usize, j: usize) -> Place {
    Place { tracer, i, j }
}

pub(crate) fn face(way: Way, i: usize, j: usize, wind: i16) -> Face {
    Face { way, i, j, wind }
}

pub(crate) fn shape(nx: usize, ny: usize, tracers: usize) -> Shape {
    Shape { nx, ny, tracers }
}

// A call that changes one element, and its amount.
#[derive(Clone, Copy)]
pub(crate) enum Change {
    Emission(u64),
    Withdrawal(u64),
}

impl Change {
    pub(crate) fn call(self, field: &mut [u32], shape: Shape, place: Place) -> Answer<Clipped> {
        let Place { tracer, i, j } = place;
        let answer = match self {
            Change::Emission(q) => field::emission(field, shape, tracer, i, j, q),
            Change::Withdrawal(q) => field::withdrawal(field, shape, tracer, i, j, q),
        };
        Answer(answer.map(|mass| Clipped(mass)))
    }
}

impl fmt::Display for Change {
    fn fmt<W: fmt::Write>(&self, f: &mut fmt::Formatter<W>) -> fmt::Result {
        f.write_str(match self {
            Change::Emission(_) => "emission",
            Change::Withdrawal(_) => "withdrawal",
        })
    }
}

// A call on a shape: where its line goes, and what it says is at the edge.
#[derive(Drop)]
pub(crate) struct Case<'a, P> {
    rt: &'a P,
    edge: &'a str,
    shape: Shape,
}

impl<'a, P: Print> Case<'a, P> {
    pub(crate) fn new(rt: &'a P, edge: &'a str, shape: Shape) -> Case<'a, P> {
        Case { rt, edge, shape }
    }

    pub(crate) fn apply(&self, before: [u32; 62], place: Place, change: Change) -> io::Result<()> {
        let Case { rt, edge, shape } = *self;
        let mut after = before;
        let answer = change.call(&mut after, shape, place);
        let left = FieldLeft {
            before: &before,
            after: &after,
            shape,
            place,
        };
        println!(rt; "{change}, {edge}: {answer}{left}")
    }

    // The calls on an element, with 5 as the amount.
    pub(crate) fn on_element(&self, field: [u32; 62], place: Place) -> io::Result<()> {
        self.apply(field, place, Change::Emission(5))?;
        self.apply(field, place, Change::Withdrawal(5))?;
        self.mass(field, place)
    }

    pub(crate) fn wind(&self, before: [i16; 5], face: Face) -> io::Result<()> {
        let Case { rt, edge, shape } = *self;
        let mut after = before;
        let answer = show::outcome(field::wind(&mut after, shape, face));
        let way = match face.way {
            Way::East => "east",
            Way::North => "north",
        };
        let left = WindsLeft { before, after };
        println!(rt; "{way} wind, {edge}: {answer}{left}")
    }

    pub(crate) fn import(&self, before: [i16; 5], records: &[u8]) -> io::Result<()> {
        let Case { rt, edge, shape } = *self;
        let mut after = before;
        let answer = show::outcome(wind_import::import(&mut after, records, shape));
        let left = WindsLeft { before, after };
        println!(rt; "import, {edge}: {answer}{left}")
    }

    pub(crate) fn fresh(&self, before: [u32; 62], winds_before: [i16; 5]) -> io::Result<()> {
        let Case { rt, edge, shape } = *self;
        let mut after = before;
        let mut winds_after = winds_before;
        let answer = show::outcome(field::fresh(&mut after, &mut winds_after, shape));
        let left = FieldLeft {
            before: &before,
            after: &after,
            shape,
            place: at(0, 0, 0),
        };
        let winds = WindsLeft {
            before: winds_before,
            after: winds_after,
        };
        println!(rt; "fresh, {edge}: {answer}{left}{winds}")
    }

    pub(crate) fn load(
        &self,
        before: [u32; 62],
        numbers: [u32; 26],
        tracer: usize,
    ) -> io::Result<()> {
        let Case { rt, edge, shape } = *self;
        let mut after = before;
        let answer = show::outcome(field::load(&mut after, &numbers, shape, tracer));
        let left = FieldLeft {
            before: &before,
            after: &after,
            shape,
            place: at(tracer, 0, 0),
        };
        println!(rt; "load, {edge}: {answer}{left}")
    }

    pub(crate) fn mass(&self, numbers: [u32; 62], place: Place) -> io::Result<()> {
        let Case { rt, edge, shape } = *self;
        let answer = Answer(mass_at(&numbers, shape, place));
        println!(rt; "mass, {edge}: {answer}")
    }

    pub(crate) fn total(&self, numbers: [u32; 62], tracer: usize) -> io::Result<()> {
        let Case { rt, edge, shape } = *self;
        let answer = Answer(field::total(&numbers, shape, tracer));
        println!(rt; "total, {edge}: {answer}")
    }
}

pub(crate) fn mass_at(field: &[u32], shape: Shape, place: Place) -> Result<u64, Refusal> {
    field::mass(field, shape, place.tracer, place.i, place.j)
}
