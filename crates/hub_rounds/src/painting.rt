//! A graph with as few colours as will do, by branch and bound.
//!
//! This is Brélaz's DSATUR (Communications of the ACM 22, 1979), made exact: the next vertex is one whose neighbours have the
//! most colours. It gets each colour in turn that is in use and free for it, and then a new one.

use crate::graph::{Graph, set_of};
use std::alloc::{AllocError, Global};

/// Returns the vertices of each colour, with fewer colours than `count` and as few as were found, but no fewer than `least`.
/// Returns `None` if no such colours were found. They are the fewest, unless so many steps weren't enough. The steps that were
/// not taken are left.
pub(crate) fn fewer_colours(
    alloc: Global,
    graph: &Graph,
    least: usize,
    count: usize,
    steps: &mut usize,
) -> Result<Option<Vec<u32>>, AllocError> {
    let mut found = None;
    for bound in (least..count).rev() {
        match painted_within(alloc, graph, bound, steps)? {
            Some(classes) => found = Some(classes),
            None => return Ok(found),
        }
    }
    Ok(found)
}

/// Returns the vertices of each colour, with so many colours at most, if these were found in so many steps. The steps that were
/// not taken are left.
fn painted_within(
    alloc: Global,
    graph: &Graph,
    bound: usize,
    steps: &mut usize,
) -> Result<Option<Vec<u32>>, AllocError> {
    let mut painting = Painting::new(alloc, graph, bound)?;
    let mut next = painting.next_vertex(graph);
    for _ in 0..*steps {
        *steps = steps.saturating_sub(1);
        match next {
            Next::Try(stroke) => next = painting.try_from(graph, stroke)?,
            Next::Whole => return Ok(Some(painting.into_classes())),
            Next::Nowhere => return Ok(None),
        }
    }
    Ok(None)
}

/// A vertex, and a colour for it.
#[derive(Clone, Copy)]
struct Stroke {
    vertex: usize,
    colour: usize,
}

/// What is to be done next.
#[derive(Clone, Copy)]
enum Next {
    /// To give the vertex this colour, or the next one that it may have.
    Try(Stroke),
    /// Nothing: each vertex has a colour.
    Whole,
    /// Nothing: all was tried.
    Nowhere,
}

/// How urgent a vertex is: by the colours of its neighbours, and then by the number of its neighbours.
#[derive(Clone, Copy, PartialEq, Eq, PartialOrd, Ord)]
struct Urgency {
    colours: usize,
    neighbours: u32,
    vertex: usize,
}

/// A graph, some vertices of which have a colour.
#[derive(Drop)]
struct Painting {
    /// The vertices of each colour. The colours that are in use come first.
    classes: Vec<u32>,
    /// The vertices that have a colour.
    painted: u32,
    /// The same with their colours, in the order in which they got them.
    strokes: Vec<Stroke>,
}

impl Painting {
    /// Makes a painting without colours, which may get so many.
    fn new(alloc: Global, graph: &Graph, colours: usize) -> Result<Painting, AllocError> {
        let mut classes = Vec::new(alloc);
        classes.resize(colours, 0)?;
        let strokes = Vec::with_capacity(alloc, graph.profiles().len())?;
        Ok(Painting {
            classes,
            painted: 0,
            strokes,
        })
    }

    /// Returns the vertices of each colour.
    fn into_classes(self) -> Vec<u32> {
        let Painting { classes, .. } = self;
        classes
    }

    /// Begins with the most urgent vertex that has no colour.
    fn next_vertex(&self, graph: &Graph) -> Next {
        let mut most = None;
        for vertex in 0..graph.profiles().len() {
            let own = Some(self.urgency(graph, vertex));
            if self.painted & set_of(vertex) == 0 && own > most {
                most = own;
            }
        }
        match most {
            Some(Urgency { vertex, .. }) => Next::Try(Stroke { vertex, colour: 0 }),
            None => Next::Whole,
        }
    }

    /// Returns how urgent a vertex is.
    fn urgency(&self, graph: &Graph, vertex: usize) -> Urgency {
        let neighbours = graph.neighbours(vertex);
        let classes = self.classes.iter();
        Urgency {
            colours: classes.filter(|class| **class & neighbours != 0).count(),
            neighbours: neighbours.count_ones(),
            vertex,
        }
    }

    /// Gives the vertex this colour, or the next one that it may have. If there is none, the last stroke is taken back.
    fn try_from(&mut self, graph: &Graph, stroke: Stroke) -> Result<Next, AllocError> {
        let Some(colour) = self.free_colour(graph, stroke) else {
            return Ok(self.take_back());
        };
        let Stroke { vertex, .. } = stroke;
        let own = Stroke { vertex, colour };
        self.strokes.push(own)?;
        self.turn(own);
        Ok(self.next_vertex(graph))
    }

    /// Returns the first colour from that of the stroke on which no neighbour of its vertex has. Of the colours that aren't in
    /// use only the first one is tried, since they are all alike.
    fn free_colour(&self, graph: &Graph, stroke: Stroke) -> Option<usize> {
        let neighbours = graph.neighbours(stroke.vertex);
        for (colour, class) in self.classes.iter().enumerate() {
            if colour >= stroke.colour && *class & neighbours == 0 {
                return Some(colour);
            }
            if *class == 0 {
                return None;
            }
        }
        None
    }

    /// Takes the last stroke back, and goes on with the colour after it.
    fn take_back(&mut self) -> Next {
        let Some(last) = self.strokes.pop() else {
            return Next::Nowhere;
        };
        self.turn(last);
        Next::Try(Stroke {
            vertex: last.vertex,
            colour: last.colour.saturating_add(1),
        })
    }

    /// Gives the vertex its colour, or takes it away.
    fn turn(&mut self, stroke: Stroke) {
        let own = set_of(stroke.vertex);
        self.painted ^= own;
        if let Some(class) = self.classes.get_mut(stroke.colour) {
            *class ^= own;
        }
    }
}
