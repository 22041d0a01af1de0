//! Where something in a component is that is sought by its number.

ghost use Rattle.std.specs.Prelude.{◌≡◌};
ghost use Rattle.smith_read.specs.Search.{among, is_here, past, sought};

/// Where what is sought is, seen from a place in a component. Items are counted, or other places: what has others
/// inside comes before them.
#[derive(Clone, Copy, Debug)]
pub enum Search {
    /// That many places further on.
    Ahead(usize),
    /// Before that place.
    Over,
}

impl Search {
    /// Moves past a place that has nothing inside, or to the first place inside it. Returns whether it is the one.
    pub fn step(&mut self) -> bool
        ensures here { result ≡ is_here self.old }
        ensures moved { self.new ≡ past 1 self.old }
    {
        self.pass(1).is_some()
    }

    /// Moves past that many places. Which of them is the one, if it is one of them.
    pub fn pass(&mut self, count: usize) -> Option<usize>
        ensures which { result ≡ among count self.old }
        ensures moved { self.new ≡ past count self.old }
    {
        match *self {
            Search::Ahead(place) => {
                if place < count {
                    *self = Search::Over;
                    return Some(place);
                }
                *self = Search::Ahead(place - count);
                None
            }
            Search::Over => None,
        }
    }

    /// A value as it is, or the other if its place is the one. Moves past it.
    pub fn value_or<T: Drop>(&mut self, value: T, other: Option<T>) -> Option<T>
        ensures value { result ≡ sought 1 self.old (λ k. other) value }
        ensures moved { self.new ≡ past 1 self.old }
    {
        if self.step() {
            return other;
        }
        Some(value)
    }
}
