//! The numbers in C of what bytes break, exceed or are outside of.

ghost use Rattle.std.specs.Prelude.{◌≡◌};
ghost use Rattle.smith_c.specs.Rules.{bound_number, broken_number, outside_number, reason_place, rule_place};

use smith_verdict::{Bound, Broken, Outside, Reason, Rule};

fn rule_place(rule: Rule) -> usize
    ensures { result ≡ rule_place rule }
{
    match rule {
        Rule::NoType => 0,
        Rule::NoFunction => 1,
        Rule::Sort => 2,
        Rule::ValueType => 3,
        Rule::OuterAlias => 4,
        Rule::EqualType => 5,
        Rule::InstanceImport => 6,
        Rule::Members => 7,
        Rule::Parameters => 8,
        Rule::Kebab => 9,
        Rule::NameTwice => 10,
        Rule::TagResults => 11,
        Rule::Memory => 12,
        Rule::Table => 13,
        Rule::NotScalar => 14,
        Rule::NotFlat => 15,
    }
}

fn reason_place(reason: Reason) -> usize
    ensures { result ≡ reason_place reason }
{
    match reason {
        Reason::Ends => 0,
        Reason::Number => 1,
        Reason::Name => 2,
        Reason::Byte => 3,
        Reason::Preamble => 4,
        Reason::Section => 5,
        Reason::Options => 6,
        Reason::LeftOver => 7,
        Reason::Depth => 8,
    }
}

/// The number of what of the standard is broken: 0 to 199.
pub fn broken_number(broken: Broken) -> usize
    ensures { result ≡ broken_number broken }
{
    match broken {
        Broken::Rule(rule) => rule_place(rule),
        Broken::Named => 100,
        Broken::Module => 101,
        Broken::Preamble => 102,
        Broken::Section => 103,
        Broken::Frame => 104,
        Broken::Count => 105,
    }
}

/// The number of a bound: 200 to 299.
pub fn bound_number(bound: Bound) -> usize
    ensures { result ≡ bound_number bound }
{
    match bound {
        Bound::Size => 200,
        Bound::Count => 201,
        Bound::Memories => 202,
        Bound::Tables => 203,
        Bound::Contents => 204,
        Bound::Module => 205,
    }
}

/// The number of why bytes are not judged: 300 to 599.
pub fn outside_number(why: Outside) -> usize
    ensures { result ≡ outside_number why }
{
    match why {
        Outside::Rule(rule) => 300 + rule_place(rule),
        Outside::Unread(reason) => 400 + reason_place(reason),
        Outside::Module => 500,
        Outside::Reference => 501,
    }
}
