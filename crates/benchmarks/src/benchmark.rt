//! The benchmarks by name.
use crate::texts::Pattern;

/// What is done so often, or with so much, as a size says.
#[derive(Clone, Copy)]
pub enum Benchmark {
    /// A query at the end of points that stand one after another.
    Line,
    /// A query behind tests of variables that have nothing to do with each other.
    Tests,
    /// A query at a point that so many edges lead to.
    Edges,
    /// A query behind a point with so many facts.
    Facts,
    /// A query at each point of a line, with a budget of as many states.
    Everywhere,
    /// A query at each point of a line, with a budget of 100 states.
    Short,
    /// Shapes of lists, each interned twice.
    Shapes,
    /// Places with one shape, each added twice.
    Places,
    /// Shapes at one place, each added twice.
    Entries,
    /// The type of lists that hold each other.
    Lists,
    /// So many KiB of a text that repeats a pattern, on their way to a program.
    Text(Pattern),
}

/// A benchmark, what it is called, and a size at which it takes no time to speak of.
#[derive(Clone, Copy)]
pub struct Named {
    pub name: &'static str,
    pub benchmark: Benchmark,
    pub small: u32,
}

#[rattlefmt::skip]
pub const BENCHMARKS: [Named; 15] = [
    Named { name: "line", benchmark: Benchmark::Line, small: 100 },
    Named { name: "tests", benchmark: Benchmark::Tests, small: 5 },
    Named { name: "edges", benchmark: Benchmark::Edges, small: 100 },
    Named { name: "facts", benchmark: Benchmark::Facts, small: 100 },
    Named { name: "everywhere", benchmark: Benchmark::Everywhere, small: 200 },
    Named { name: "short", benchmark: Benchmark::Short, small: 200 },
    Named { name: "shapes", benchmark: Benchmark::Shapes, small: 100 },
    Named { name: "places", benchmark: Benchmark::Places, small: 100 },
    Named { name: "entries", benchmark: Benchmark::Entries, small: 100 },
    Named { name: "lists", benchmark: Benchmark::Lists, small: 10 },
    Named { name: "names", benchmark: Benchmark::Text(Pattern::Names), small: 1 },
    Named { name: "tries", benchmark: Benchmark::Text(Pattern::Tries), small: 1 },
    Named { name: "classes", benchmark: Benchmark::Text(Pattern::Classes), small: 1 },
    Named { name: "statements", benchmark: Benchmark::Text(Pattern::Statements), small: 1 },
    Named { name: "functions", benchmark: Benchmark::Text(Pattern::Functions), small: 1 },
];
