//! Bytes that are close to a component that validates, of each sort of answer in turn.

ghost use Rattle.std.specs.Prelude.{◌≡◌, ◌<◌, ◌⊎◌, Some, option_map, IfOk, IfErr, IfSome};
ghost use Rattle.smith_tree.specs.Grammar.{component_text};
ghost use Rattle.smith_read.specs.PartNodes.{shown_tree};
ghost use Rattle.smith_change.specs.Refusals.{IsRefusal};
ghost use Rattle.smith_corpus.specs.NearMisses.{IsChangeAt, IsChangeOf, IsChanged, IsSomeChange};
ghost use Rattle.smith_corpus.specs.NearMisses.{IsSomeMisstep, IsSomeMiswritten};

use rand_core::Rng;
use rand_pcg::Pcg32;
use smith_change::{
    ALTERNATIVES, Alternative, ChangeError, Misstep, Miswriting, changed, changes, next_miswritten,
    place_kind,
};
use smith_read::{ComponentTree, WriteError, read, write};
use smith_verdict::{Answer, Bound, Broken, Outside, answer};
use std::alloc::{AllocError, Global};
use std::fmt;

/// How many changes of a component are looked at.
const TRIES: u32 = 24;

/// Places have at most so many alternatives now.
const MOST_ALTERNATIVES: usize = 7;

/// How a near miss differs from its component.
///
/// As text: in words, such as `value, an index one more`.
#[derive(Clone, Copy, Debug, PartialEq, Eq)]
pub enum Difference {
    /// In one token, or in one list of entries.
    Change(Alternative),
    /// It is no component to any reader.
    Miswriting(Miswriting),
}

impl fmt::Display for Difference {
    fn fmt<W: fmt::Write>(&self, f: &mut fmt::Formatter<W>) -> fmt::Result {
        match self {
            Difference::Change(change) => write!(f, "{change}"),
            Difference::Miswriting(what) => write!(f, "{what}"),
        }
    }
}

/// Bytes that are close to a component.
#[derive(Debug, Drop)]
pub struct NearMiss {
    pub difference: Difference,
    /// The number of the change, as `smith_change` counts them.
    pub number: usize,
    pub bytes: Vec<u8>,
    /// What they are to validators.
    pub answer: Answer,
}

/// What is found of bytes, wherever it is.
#[derive(Clone, Copy, Debug, PartialEq, Eq)]
pub enum Finding {
    Valid,
    Invalid(Broken),
    Bound(Bound),
    Outside(Outside),
}

fn finding_of(answer: &Answer) -> Finding {
    match answer {
        Answer::Valid => Finding::Valid,
        Answer::Invalid { rule, .. } => Finding::Invalid(*rule),
        Answer::Bound { demand, .. } => Finding::Bound(*demand),
        Answer::Outside { why, .. } => Finding::Outside(*why),
    }
}

/// How many near misses were taken, by what was found of them.
#[derive(Debug, Drop)]
pub struct Taken {
    counts: Vec<(Finding, usize)>,
}

impl Taken {
    /// None were.
    pub fn new(alloc: Global) -> Taken {
        let counts = Vec::new(alloc);
        Taken { counts }
    }

    /// How many were of which that was found.
    fn count(&self, finding: Finding) -> usize {
        for (other, count) in &self.counts {
            if *other == finding {
                return *count;
            }
        }
        0
    }

    /// Adds a near miss.
    fn add(&mut self, finding: Finding) -> Result<(), AllocError> {
        for (other, count) in &mut self.counts {
            if *other == finding {
                *count = count.saturating_add(1);
                return Ok(());
            }
        }
        self.counts.push((finding, 1))?;
        Ok(())
    }
}

/// A number below that one, or 0 if there is none. Public only for the crates above.
pub fn number_below(random: &mut Pcg32, most: usize) -> usize
    ensures below { 0 < most → result < most }
    ensures none { most ≡ 0 → result ≡ 0 }
{
    if most == 0 {
        return 0;
    }
    (random.next_u64() % most as u64) as usize
}

// The bytes of a component, if it has an encoding.
fn spelled(alloc: Global, tree: &ComponentTree) -> Result<Option<Vec<u8>>, AllocError>
    ensures { IfOk result (λ r. option_map (λ v. v.items) r ≡ component_text (shown_tree tree.now)) }
{
    match write(alloc, tree) {
        Ok(bytes) => Ok(Some(bytes)),
        Err(WriteError::NoEncoding) => Ok(None),
        Err(WriteError::OutOfMemory) => Err(AllocError),
    }
}

// What the change of that number leads to, if it leads to something.
fn change_of(
    alloc: Global,
    tree: &ComponentTree,
    number: usize,
) -> Result<Option<NearMiss>, AllocError>
    ensures { IfOk result (IsChangeAt (shown_tree tree.now) number) }
{
    let Some(place) = place_kind(alloc, tree, number)? else {
        return Ok(None);
    };
    let Some(other) = changed(alloc, tree, number)? else {
        return Ok(None);
    };
    let Some(bytes) = spelled(alloc, &other)? else {
        return Ok(None);
    };
    let answer = answer(alloc, &bytes)?;
    let alternative = Alternative {
        place,
        number: number % ALTERNATIVES,
    };
    Ok(Some(NearMiss {
        difference: Difference::Change(alternative),
        number,
        bytes,
        answer,
    }))
}

// A number among those of the changes of that many places.
fn random_number(random: &mut Pcg32, places: usize) -> usize {
    let place = number_below(random, places);
    let alternative = number_below(random, MOST_ALTERNATIVES);
    place
        .saturating_mul(ALTERNATIVES)
        .saturating_add(alternative)
}

// The one of which fewer were taken, the first if it is the same.
fn rarer(taken: &Taken, first: Option<NearMiss>, second: NearMiss) -> NearMiss
    ensures { (result ≡ second) ⊎ (first ≡ Some result) }
{
    let Some(first) = first else {
        return second;
    };
    if taken.count(finding_of(&second.answer)) < taken.count(finding_of(&first.answer)) {
        return second;
    }
    first
}

// The rarest of some random changes of the component.
fn rarest(
    alloc: Global,
    random: &mut Pcg32,
    taken: &Taken,
    tree: &ComponentTree,
) -> Result<Option<NearMiss>, AllocError>
    ensures { IfOk result (λ r. IfSome r (IsChangeOf (shown_tree tree.now))) }
{
    let places = changes(alloc, tree)? / ALTERNATIVES;
    let mut best = None;
    for _ in 0..TRIES {
        if let Some(found) = change_of(alloc, tree, random_number(random, places))? {
            best = Some(rarer(taken, best, found));
        }
    }
    Ok(best)
}

// The first change of the component that leads to something.
fn first_change(alloc: Global, tree: &ComponentTree) -> Result<Option<NearMiss>, AllocError>
    ensures { IfOk result (IsSomeChange (shown_tree tree.now)) }
{
    let changes = changes(alloc, tree)?;
    for number in 0..changes {
        if let Some(found) = change_of(alloc, tree, number)? {
            return Ok(Some(found));
        }
    }
    Ok(None)
}

// The rarest of some random changes, or else the first one.
fn some_change(
    alloc: Global,
    random: &mut Pcg32,
    taken: &Taken,
    tree: &ComponentTree,
) -> Result<Option<NearMiss>, AllocError>
    ensures { IfOk result (IsSomeChange (shown_tree tree.now)) }
{
    match rarest(alloc, random, taken, tree)? {
        Some(found) => Ok(Some(found)),
        None => first_change(alloc, tree),
    }
}

/// The component with a change: of some that are drawn, the one of which what is found was taken least. It counts as
/// taken then. If none of them leads to another component, it is the first change that does, and there is none only if
/// no change does.
pub fn near_miss(
    alloc: Global,
    random: &mut Pcg32,
    taken: &mut Taken,
    component: &[u8],
) -> Result<Option<NearMiss>, ChangeError>
    ensures found { IfOk result (IsChanged component.now) }
    ensures refuses { IfErr result (IsRefusal component.now) }
{
    let tree = read(alloc, component)?;
    let found = some_change(alloc, random, taken, &tree)?;
    if let Some(miss) = &found {
        taken.add(finding_of(&miss.answer))?;
    }
    Ok(found)
}

// The first candidate from that number on that is written wrongly, or else the first of all.
#[tactic(auto, using(crate::proofs::Wrong::wrong))]
fn misstep(alloc: Global, bytes: &[u8], from: usize) -> Result<Option<Misstep>, AllocError>
    ensures { IfOk result (IsSomeMisstep bytes.now) }
{
    match next_miswritten(alloc, bytes, from)? {
        Some(found) => Ok(Some(found)),
        None => next_miswritten(alloc, bytes, 0),
    }
}

/// The bytes written wrongly, in a way that is drawn.
///
/// There is none only if the bytes have the frames of a component wherever they are cut off, as a component has not.
pub fn miswritten(
    alloc: Global,
    random: &mut Pcg32,
    bytes: &[u8],
) -> Result<Option<NearMiss>, AllocError>
    ensures { IfOk result (IsSomeMiswritten bytes.now) }
{
    // Beside the cuts, there are hardly more candidates than bytes.
    let from = number_below(random, bytes.len().saturating_mul(2));
    let Some(found) = misstep(alloc, bytes, from)? else {
        return Ok(None);
    };
    let answer = answer(alloc, &found.bytes)?;
    Ok(Some(NearMiss {
        difference: Difference::Miswriting(found.what),
        number: found.number,
        bytes: found.bytes,
        answer,
    }))
}
