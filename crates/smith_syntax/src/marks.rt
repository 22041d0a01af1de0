//! Marks: what is kept of types for a validator.

ghost use Rattle.std.specs.Prelude.{◌≡◌};
ghost use Rattle.smith_syntax.specs.Marks.{aliased_mark, closed_mark, elsewhere, equal_mark, narrower, is_everywhere};
ghost use Rattle.smith_syntax.specs.Marks.{is_small, is_somewhere};

// The size that a type may have to be used, imported or exported.
const SMALL_SIZE: u32 = 9_999;

/// Where what a type refers to is named.
#[derive(Debug, Clone, Copy, PartialEq, Eq)]
pub enum Reach {
    /// It refers to nothing that has to be named.
    Everywhere,
    /// It refers to what exports in its own scope name.
    Here,
    /// It may refer to what nothing names.
    Nowhere,
}

impl Reach {
    /// The narrower of two.
    pub fn narrower(self, other: Reach) -> Reach
        ensures { result ≡ narrower self other }
    {
        match self {
            Reach::Everywhere => other,
            Reach::Here => match other {
                Reach::Everywhere | Reach::Here => Reach::Here,
                Reach::Nowhere => Reach::Nowhere,
            },
            Reach::Nowhere => Reach::Nowhere,
        }
    }

    /// The same in another scope: what exports in one scope name is not named in another.
    pub fn elsewhere(self) -> Reach
        ensures { result ≡ elsewhere self }
    {
        match self {
            Reach::Everywhere => Reach::Everywhere,
            Reach::Here | Reach::Nowhere => Reach::Nowhere,
        }
    }
}

/// What is kept of a type.
#[derive(Debug, Clone, Copy, PartialEq, Eq)]
pub struct Mark {
    /// Is it nominal: does it have to be named itself, whatever it is made of?
    pub nominal: bool,
    /// Where what it is made of is named.
    pub parts: Reach,
    /// Where what has to be named for a value of that type is named.
    pub used: Reach,
    /// Its effective size.
    pub size: u32,
}

impl Mark {
    /// The mark of a type of which nothing is kept.
    pub const NONE: Mark = Mark {
        nominal: false,
        parts: Reach::Everywhere,
        used: Reach::Everywhere,
        size: 0,
    };

    /// May it be used, imported and exported by its size?
    pub fn is_small(self) -> bool
        ensures { result ≡ is_small self }
    {
        self.size <= SMALL_SIZE
    }

    /// May a function of that type be imported?
    pub fn is_everywhere(self) -> bool
        ensures { result ≡ is_everywhere self }
    {
        match self.parts {
            Reach::Everywhere => true,
            Reach::Here | Reach::Nowhere => false,
        }
    }

    /// May it, or a function of that type, be exported?
    pub fn is_somewhere(self) -> bool
        ensures { result ≡ is_somewhere self }
    {
        match self.parts {
            Reach::Everywhere | Reach::Here => true,
            Reach::Nowhere => false,
        }
    }

    /// The mark of a type of components or of instances, of that size, whose exports reach so far.
    pub fn closed(exported: Reach, size: u32) -> Mark
        ensures { result ≡ closed_mark exported size }
    {
        let reach = exported.elsewhere();
        Mark {
            nominal: false,
            parts: reach,
            used: reach,
            size,
        }
    }

    /// The mark of a type that is equal to it and is named where it is exported.
    pub fn equal(self) -> Mark
        ensures { result ≡ equal_mark self }
    {
        let used = if self.nominal { Reach::Here } else { self.used };
        Mark { used, ..self }
    }

    /// The mark of an outer alias of it, by the count of scopes.
    pub fn aliased(self, count: u32) -> Mark
        ensures { result ≡ aliased_mark count self }
    {
        if count == 0 {
            self
        } else {
            Mark {
                parts: self.parts.elsewhere(),
                used: self.used.elsewhere(),
                ..self
            }
        }
    }
}
