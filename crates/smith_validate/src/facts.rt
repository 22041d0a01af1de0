//! What is known of a type when it is named.

ghost use Rattle.std.specs.Prelude.{◌≡◌};
ghost use Rattle.smith_validate.specs.Marks.{both, greater_of, instance_facts, is_nothing, is_within, named_facts};
ghost use Rattle.smith_validate.specs.Marks.{named_needs, no_needs, nominal_facts, outer_of, outer_outside};
ghost use Rattle.smith_validate.specs.Marks.{plain_facts, unnamed_needs};

/// Where types are named, the outermost of some: nowhere that is known, if one of them is only declared; in the scope
/// with that many around it; or, if there are none, nothing.
#[derive(Clone, Copy, Debug)]
pub(crate) enum Outermost {
    Unnamed,
    Scope(usize),
    Nothing,
}

impl Outermost {
    /// The outermost of both.
    fn with(self, other: Outermost) -> Outermost
        ensures { result ≡ outer_of self other }
    {
        match self {
            Outermost::Unnamed => self,
            Outermost::Nothing => other,
            Outermost::Scope(one) => match other {
                Outermost::Unnamed => other,
                Outermost::Nothing => self,
                Outermost::Scope(two) => Outermost::Scope(one.min(two)),
            },
        }
    }

    /// Whether there are no types.
    pub(crate) fn is_nothing(self) -> bool
        ensures { result ≡ is_nothing self }
    {
        match self {
            Outermost::Nothing => true,
            Outermost::Unnamed | Outermost::Scope(_) => false,
        }
    }

    /// Whether no scope that names one of them has fewer around it.
    pub(crate) fn is_within(self, depth: usize) -> bool
        ensures { result ≡ is_within self depth }
    {
        match self {
            Outermost::Unnamed => false,
            Outermost::Scope(level) => depth <= level,
            Outermost::Nothing => true,
        }
    }

    /// Without the ones that are named in scopes with more around them than that many, if all are named there or none.
    pub(crate) fn outside(self, depth: usize) -> Outermost
        ensures { result ≡ outer_outside self depth }
    {
        match self {
            Outermost::Scope(level) if depth < level => Outermost::Nothing,
            Outermost::Unnamed | Outermost::Scope(_) | Outermost::Nothing => self,
        }
    }
}

// The greater of two numbers, each of which may be missing.
fn greater(one: Option<usize>, two: Option<usize>) -> Option<usize>
    ensures { result ≡ greater_of one two }
{
    match (one, two) {
        (Some(one), Some(two)) => Some(one.max(two)),
        (Some(_), None) => one,
        (None, _) => two,
    }
}

/// Types that have to be named, as records, variants, flags and enums have.
#[derive(Clone, Copy, Debug)]
pub(crate) struct Needs {
    pub(crate) outermost: Outermost,
    /// How many scopes there are around the innermost of the open ones that names one of them, itself or in an
    /// instance type within it.
    pub(crate) innermost: Option<usize>,
}

impl Needs {
    /// No types.
    pub(crate) fn nothing() -> Needs
        ensures { result ≡ no_needs }
    {
        Needs {
            outermost: Outermost::Nothing,
            innermost: None,
        }
    }

    /// A type that is declared and not named.
    pub(crate) fn unnamed() -> Needs
        ensures { result ≡ unnamed_needs }
    {
        Needs {
            outermost: Outermost::Unnamed,
            innermost: None,
        }
    }

    /// A type that is named in the scope with that many around it.
    fn named(depth: usize) -> Needs
        ensures { result ≡ named_needs depth }
    {
        Needs {
            outermost: Outermost::Scope(depth),
            innermost: Some(depth),
        }
    }

    /// Both together.
    pub(crate) fn with(self, other: Needs) -> Needs
        ensures { result ≡ both self other }
    {
        Needs {
            outermost: self.outermost.with(other.outermost),
            innermost: greater(self.innermost, other.innermost),
        }
    }
}

/// A type.
#[derive(Clone, Copy, Debug)]
pub(crate) struct Facts {
    /// What it refers to. For a type of instances, beside what it names itself.
    pub(crate) refers: Needs,
    /// What has to be named when a value is of it.
    pub(crate) needs: Needs,
    /// Whether it is a record, a variant, flags or an enum.
    pub(crate) nominal: bool,
    pub(crate) size: u32,
    /// If it is a type of instances, its number among them.
    pub(crate) instance: Option<usize>,
}

impl Facts {
    /// A type of values or of functions.
    pub(crate) fn new(refers: Needs, size: u32) -> Facts
        ensures { result ≡ plain_facts refers size }
    {
        Facts {
            refers,
            needs: refers,
            nominal: false,
            size,
            instance: None,
        }
    }

    /// A record, a variant, flags or an enum, when it is declared.
    pub(crate) fn nominal(refers: Needs, size: u32) -> Facts
        ensures { result ≡ nominal_facts refers size }
    {
        Facts {
            refers,
            needs: Needs::unnamed(),
            nominal: true,
            size,
            instance: None,
        }
    }

    /// A type of instances. No value is of it.
    pub(crate) fn instance(refers: Needs, size: u32, number: usize) -> Facts
        ensures { result ≡ instance_facts refers size number }
    {
        Facts {
            refers,
            needs: Needs::unnamed(),
            nominal: false,
            size,
            instance: Some(number),
        }
    }

    /// A type that is equal to it, named in the scope with that many around it.
    pub(crate) fn named(self, depth: usize) -> Facts
        ensures { result ≡ named_facts self depth }
    {
        let needs = if self.nominal {
            Needs::named(depth)
        } else {
            self.needs
        };
        Facts { needs, ..self }
    }
}

/// A core type.
#[derive(Clone, Copy, Debug)]
pub(crate) enum CoreFacts {
    /// A function type of that size.
    Func(u32),
    /// A module type of that size.
    Module(u32),
}

impl CoreFacts {
    pub(crate) fn size(self) -> u32 {
        match self {
            CoreFacts::Func(size) | CoreFacts::Module(size) => size,
        }
    }
}
