//! What the words of a command line ask for.

use crate::commands::command;
use clap::{ArgMatches, Error};
use smith_run::Form;
use std::alloc::{AllocError, Global};
use std::convert::AsStr;

/// What is to be done.
#[derive(Drop)]
pub enum Task<'a> {
    /// Print the default limits as TOML.
    PrintLimits,
    /// Make a component.
    Generate(Options<'a>),
    /// Make a component of each input in a folder.
    GenerateEach(Batch<'a>),
    /// Say what files are.
    Check(Checked<'a>),
    /// Print the component in a file.
    Show {
        input: Option<&'a str>,
        is_json: bool,
    },
    /// Write the component in a file as text.
    Print {
        input: Option<&'a str>,
        output: Option<&'a str>,
        /// Whether it has the offset of each entry.
        with_offsets: bool,
    },
    /// Write the script of the component in a file.
    Script(Options<'a>),
    /// Write a component that is smaller than the one in a file.
    Smaller(Options<'a>, Choice),
    /// Write the component in a file with one token or one list changed.
    Change(Change<'a>),
    /// Write another input than the one in a file.
    Mutate(Mutation<'a>),
    /// Write inputs into a folder.
    Corpus {
        folder: &'a str,
        origin: Origin<'a>,
        limits: Limits<'a>,
    },
    /// Count what is in components.
    Stats(Counted<'a>),
}

/// Where limits are from: the default ones, those of profiles over them, the file's over these, and settings over all.
#[derive(Drop)]
pub struct Limits<'a> {
    /// Each is a name of `smith_limits::PROFILES`.
    pub profiles: Vec<&'a str>,
    /// `-` is standard input.
    pub file: Option<&'a str>,
    /// Each is `KEY=VALUE`, and of two with the same key the later one holds.
    pub settings: Vec<&'a str>,
}

/// How something is made of a file. A file that is absent is standard input or output.
#[derive(Drop)]
pub struct Options<'a> {
    pub input: Option<&'a str>,
    pub output: Option<&'a str>,
    pub limits: Limits<'a>,
    /// Whether the first bytes of the input encode limits that override these.
    pub is_swarm: bool,
    /// Whether each smaller component that is well formed is wanted, whatever the limits.
    pub is_any: bool,
    pub form: Form,
    pub prints_left: bool,
}

/// Inputs of which components are made.
#[derive(Drop)]
pub struct Batch<'a> {
    /// The folder of the inputs.
    pub from: &'a str,
    /// The folder of the components.
    pub folder: &'a str,
    pub limits: Limits<'a>,
    /// Whether the first bytes of each input encode limits that override these.
    pub is_swarm: bool,
}

/// Files that are checked.
#[derive(Drop)]
pub struct Checked<'a> {
    /// Files, of which `-` is standard input, and folders of files; standard input alone if there are none.
    pub paths: Vec<&'a str>,
    /// Whether they are judged as validators judge them.
    pub validates: bool,
    pub is_json: bool,
}

/// Which smaller component is written.
#[derive(Clone, Copy)]
pub enum Choice {
    /// The one with this number, from 0, among the wanted ones.
    Numbered(usize),
    /// The first one that is wanted from this step on. The number of its step is printed.
    From(usize),
}

/// A change of the component in a file. A file that is absent is standard input or output.
#[derive(Clone, Copy)]
pub struct Change<'a> {
    pub input: Option<&'a str>,
    pub output: Option<&'a str>,
    pub which: Which,
}

/// Which change is made. Changes are counted from 0.
#[derive(Clone, Copy)]
pub enum Which {
    /// The one with this number.
    Numbered(usize),
    /// The first one from this number on that leads to something.
    From(usize),
    /// None: those that lead to something are listed.
    All,
}

/// An input that another one is made of. A file that is absent is standard input or output.
#[derive(Drop)]
pub struct Mutation<'a> {
    pub input: Option<&'a str>,
    pub output: Option<&'a str>,
    pub limits: Limits<'a>,
    /// Where it is drawn from; the clock if it is absent.
    pub seed: Option<u64>,
}

/// Random inputs.
#[derive(Clone, Copy)]
pub struct Draw {
    pub count: usize,
    /// How many bytes each has.
    pub len: usize,
    pub seed: u64,
    /// Whether the first bytes of each encode limits of its own.
    pub is_swarm: bool,
    /// Whether they are short, drawn for what is rare in those before; `len` is not used then.
    pub is_flat: bool,
    /// Whether the component of each is written beside it.
    pub with_components: bool,
}

/// Where the inputs of a corpus are from.
#[derive(Clone, Copy)]
pub enum Origin<'a> {
    Random(Draw),
    /// They are near misses of the components of these inputs.
    Broken(Draw),
    /// They are the scripts of the components in this folder.
    Folder(&'a str),
}

/// Components whose contents are counted.
#[derive(Drop)]
pub struct Counted<'a> {
    /// Files, and folders of files.
    pub paths: Vec<&'a str>,
    /// Whether the files are inputs, and the components those that they produce within the limits.
    pub are_inputs: bool,
    pub limits: Limits<'a>,
    pub page: Page,
}

/// How counts are printed.
#[derive(Clone, Copy)]
pub enum Page {
    Lines,
    Json,
    /// The combinations alone.
    Combinations,
}

/// The file of that name; none is standard input or output, which `-` names.
pub fn named<'a>(name: &'a str) -> Option<&'a str> {
    if name == "-" {
        return None;
    }
    Some(name)
}

// The file that an argument names, if it is there.
fn file<'a>(matches: &ArgMatches<'a>, id: &str) -> Option<&'a str> {
    named(matches.get_str(id)?)
}

fn form_of(matches: &ArgMatches<'_>) -> Form {
    if matches.get_flag("hex") {
        return Form::Page;
    }
    Form::Raw
}

// What the arguments of `with_limits` ask for.
fn limits_of<'a>(alloc: Global, matches: &ArgMatches<'a>) -> Result<Limits<'a>, AllocError> {
    let profiles = matches.get_strs("profile").unwrap_or_default();
    let settings = matches.get_strs("limit").unwrap_or_default();
    Ok(Limits {
        profiles: Vec::from_slice(alloc, profiles)?,
        file: matches.get_str("limits"),
        settings: Vec::from_slice(alloc, settings)?,
    })
}

fn options_of<'a>(alloc: Global, matches: &ArgMatches<'a>) -> Result<Options<'a>, AllocError> {
    Ok(Options {
        input: file(matches, "input"),
        output: file(matches, "output"),
        limits: limits_of(alloc, matches)?,
        is_swarm: matches.get_flag("swarm"),
        is_any: matches.get_flag("any"),
        form: form_of(matches),
        prints_left: matches.get_flag("left"),
    })
}

// What `generate` is to do.
fn generate_of<'a>(alloc: Global, matches: &ArgMatches<'a>) -> Result<Task<'a>, AllocError> {
    let Some(from) = matches.get_str("from") else {
        return Ok(Task::Generate(options_of(alloc, matches)?));
    };
    Ok(Task::GenerateEach(Batch {
        from,
        folder: matches.get_str("output").unwrap_or("."),
        limits: limits_of(alloc, matches)?,
        is_swarm: matches.get_flag("swarm"),
    }))
}

fn checked_of<'a>(alloc: Global, matches: &ArgMatches<'a>) -> Result<Checked<'a>, AllocError> {
    let paths = matches.get_strs("input").unwrap_or_default();
    Ok(Checked {
        paths: Vec::from_slice(alloc, paths)?,
        validates: matches.get_flag("validate"),
        is_json: matches.get_flag("json"),
    })
}

fn choice_of(matches: &ArgMatches<'_>) -> Choice {
    match matches.get_one::<usize>("from") {
        Some(step) => Choice::From(step),
        None => Choice::Numbered(matches.get_one::<usize>("number").unwrap_or(0)),
    }
}

fn which_of(matches: &ArgMatches<'_>) -> Which {
    if matches.get_flag("list") {
        return Which::All;
    }
    match choice_of(matches) {
        Choice::Numbered(number) => Which::Numbered(number),
        Choice::From(number) => Which::From(number),
    }
}

fn change_of<'a>(matches: &ArgMatches<'a>) -> Change<'a> {
    Change {
        input: file(matches, "input"),
        output: file(matches, "output"),
        which: which_of(matches),
    }
}

fn mutation_of<'a>(alloc: Global, matches: &ArgMatches<'a>) -> Result<Mutation<'a>, AllocError> {
    Ok(Mutation {
        input: file(matches, "input"),
        output: file(matches, "output"),
        limits: limits_of(alloc, matches)?,
        seed: matches.get_one::<u64>("seed"),
    })
}

// Random inputs, of that many bytes if no argument says how many.
fn draw_of(matches: &ArgMatches<'_>, len: usize) -> Draw {
    Draw {
        count: matches.get_one::<usize>("count").unwrap_or(0),
        len: matches.get_one::<usize>("bytes").unwrap_or(len),
        seed: matches.get_one::<u64>("seed").unwrap_or(0),
        is_swarm: matches.get_flag("swarm"),
        is_flat: matches.get_flag("flat"),
        with_components: matches.get_flag("components"),
    }
}

fn origin_of<'a>(matches: &ArgMatches<'a>) -> Origin<'a> {
    if let Some(folder) = matches.get_str("from") {
        return Origin::Folder(folder);
    }
    if matches.get_flag("broken") {
        return Origin::Broken(draw_of(matches, 512));
    }
    Origin::Random(draw_of(matches, 1024))
}

fn page_of(matches: &ArgMatches<'_>) -> Page {
    if matches.get_flag("json") {
        return Page::Json;
    }
    if matches.get_flag("combinations") {
        return Page::Combinations;
    }
    Page::Lines
}

fn counted_of<'a>(alloc: Global, matches: &ArgMatches<'a>) -> Result<Counted<'a>, AllocError> {
    let paths = matches.get_strs("input").unwrap_or_default();
    Ok(Counted {
        paths: Vec::from_slice(alloc, paths)?,
        are_inputs: matches.get_flag("inputs"),
        limits: limits_of(alloc, matches)?,
        page: page_of(matches),
    })
}

/// What the words ask for. The first is the program's name.
pub fn task_of<'a, S: AsStr>(alloc: Global, words: &'a [S]) -> Result<Task<'a>, Error> {
    let matches = command(alloc)?.try_get_matches_from(words)?;
    let Some((name, found)) = matches.subcommand() else {
        return Ok(Task::PrintLimits);
    };
    Ok(match name {
        "generate" => generate_of(alloc, found)?,
        "check" => Task::Check(checked_of(alloc, found)?),
        "show" => Task::Show {
            input: file(found, "input"),
            is_json: found.get_flag("json"),
        },
        "print" => Task::Print {
            input: file(found, "input"),
            output: file(found, "output"),
            with_offsets: found.get_flag("offsets"),
        },
        "script" => Task::Script(options_of(alloc, found)?),
        "smaller" => Task::Smaller(options_of(alloc, found)?, choice_of(found)),
        "change" => Task::Change(change_of(found)),
        "mutate" => Task::Mutate(mutation_of(alloc, found)?),
        "corpus" => Task::Corpus {
            folder: found.get_str("output").unwrap_or("."),
            origin: origin_of(found),
            limits: limits_of(alloc, found)?,
        },
        "stats" => Task::Stats(counted_of(alloc, found)?),
        _ => Task::PrintLimits,
    })
}
