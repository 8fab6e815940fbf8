//! What a graph does from each of its places but the exit.
ghost use Rattle.std.specs.Prelude.{◌≡◌, ◌∷◌, [], All, Ok, IfOk, IfErr};
ghost use Rattle.std.specs.Option.{option_copied};
ghost use Rattle.c_ast.specs.Place.{is_same_place};
ghost use Rattle.flow_graph.specs.FlowGraph.{GoesOnAt};
ghost use Rattle.path_product.specs.declared.starts.SegmentsFault.TheVariants.{Memory};
ghost use Rattle.path_product.specs.Starts.{places_from, starts_among, starts_of, start_at, width_in, cases_in};
ghost use Rattle.path_product.specs.Fits.{FitStarts};
ghost use Rattle.path_product.specs.Refusals.{fault_at, IsFault};

use c_ast::Place;
use flow_graph::Graph;
use sqlite_items::Items;
use std::alloc::{AllocError, Global};
use std::marker::Model;
use sym_paths::{Case, PathLimit, segments};

/// A place from which segments lead.
#[derive(Debug, Drop)]
pub struct Start {
    pub place: Place,
    /// How many values a run has there.
    pub width: u32,
    /// The cases of the segments from there.
    pub cases: Items<Case>,
}

/// The cases of all places of a graph but the exit: made once, and shared by all products of the
/// graph.
#[derive(Debug, Drop)]
pub struct Segments {
    starts: Items<Start>,
}

impl Model for Segments {
    ghost use Rattle.std.specs.Prelude.{List};
    ghost use Rattle.path_product.specs.declared.starts.Start.{Start};
    ghost use Rattle.path_product.specs.Fits.{FitStarts};

    ghost Value = { List Start };

    ghost view = { λ segments. segments.starts };

    ghost invariant = { λ segments. FitStarts segments.starts };
}

/// Why the cases are not made.
#[derive(Clone, Copy, Debug, PartialEq, Eq)]
pub enum SegmentsFault {
    /// The walk from the place meets this limit, which is not want of memory.
    AtPlace(Place, PathLimit),
    /// Memory ran out.
    Memory,
}

impl From<AllocError> for SegmentsFault {
    ghost from_gives = { λ _ why. why ≡ Memory };

    fn from(_: AllocError) -> SegmentsFault {
        SegmentsFault::Memory
    }
}

fn fault_at(place: Place, limit: PathLimit) -> SegmentsFault
    ensures { result ≡ fault_at place limit }
{
    match limit {
        PathLimit::Memory => SegmentsFault::Memory,
        _ => SegmentsFault::AtPlace(place, limit),
    }
}

/// The place with the cases of the segments from there.
fn start_of(alloc: Global, graph: &Graph, place: Place) -> Result<Start, SegmentsFault>
    requires { GoesOnAt graph.now place }
    ensures made { IfOk result (λ start. starts_among graph.now (place ∷ []) ≡ Ok (start ∷ [])) }
    ensures limit { IfErr result (IsFault (starts_among graph.now (place ∷ []))) }
{
    match segments(alloc, graph, place) {
        Ok(cases) => Ok(Start {
            place,
            width: graph.width_at(place),
            cases: Items::from_vec(cases),
        }),
        Err(limit) => Err(fault_at(place, limit)),
    }
}

/// These places with their cases.
fn starts_among(
    alloc: Global,
    graph: &Graph,
    places: &[Place],
) -> Result<Items<Start>, SegmentsFault>
    requires { All (GoesOnAt graph.now) places.now }
    ensures made { IfOk result (λ starts. starts_among graph.now places.now ≡ Ok starts) }
    ensures limit { IfErr result (IsFault (starts_among graph.now places.now)) }
{
    let mut starts = Items::new(alloc);
    for place in places {
        starts.push(start_of(alloc, graph, *place)?)?;
    }
    Ok(starts)
}

/// The entry, and the marks by rising number.
fn places_from(alloc: Global, graph: &Graph) -> Result<Vec<Place>, AllocError>
    ensures places { IfOk result (λ places. places.items ≡ places_from graph.now) }
    ensures go_on { IfOk result (λ places. All (GoesOnAt graph.now) places.items) }
{
    let mut places = graph.places(alloc)?;
    // The last one is the exit.
    places.pop();
    Ok(places)
}

impl Segments {
    /// The cases of the graph, or the first place, in the order of places, from which the walk
    /// meets a limit.
    pub fn of(alloc: Global, graph: &Graph) -> Result<Segments, SegmentsFault>
        ensures made { IfOk result (λ segments. starts_of graph.now ≡ Ok segments) }
        ensures limit { IfErr result (IsFault (starts_of graph.now)) }
    {
        // What holds of every graph is told there.
        let _ = graph.op(graph.after(Place::Entry));
        let places = places_from(alloc, graph)?;
        let starts = starts_among(alloc, graph, places.as_slice())?;
        Ok(Segments { starts })
    }

    /// The places with their cases.
    pub fn starts(&self) -> &[Start]
        ensures starts { result.now ≡ self.now }
        ensures fit { FitStarts self.now }
    {
        self.starts.as_slice()
    }
}

// ---- what stands there

/// Whether the two places are one.
pub(crate) fn is_same_place(first: Place, second: Place) -> bool
    ensures { result ≡ is_same_place first second }
{
    match (first, second) {
        (Place::Entry, Place::Entry) => true,
        (Place::Mark(first), Place::Mark(second)) => first == second,
        (Place::Exit, Place::Exit) => true,
        _ => false,
    }
}

/// What is known of the place, where it is one of them.
fn start_at(starts: &[Start], place: Place) -> Option<&Start>
    ensures { option_copied result ≡ start_at starts.now place }
{
    starts
        .iter()
        .find(|start| is_same_place(start.place, place))
}

/// How many values a run has at the place; at the exit the result alone.
pub(crate) fn width_in(starts: &[Start], place: Place) -> u32
    ensures { result ≡ width_in starts.now place }
{
    if is_same_place(place, Place::Exit) {
        return 1;
    }
    match start_at(starts, place) {
        None => 0,
        Some(start) => start.width,
    }
}

/// The cases of the segments from the place; none lead from the exit.
pub(crate) fn cases_in(starts: &[Start], place: Place) -> &[Case]
    ensures { result.now ≡ cases_in starts.now place }
{
    match start_at(starts, place) {
        None => &[],
        Some(start) => start.cases.as_slice(),
    }
}
