//! The commands of the command line, their arguments and what their help says.

use clap::builder::ValueParser;
use clap::{Arg, ArgAction, ArgGroup, Command, value_parser};
use smith_limits::PROFILES;
use std::alloc::{AllocError, Global};

const ABOUT: &str = "Turns a fuzzer's bytes into a WebAssembly component.";

const AFTER: &str =
    "`lupinanon COMMAND --help` says what a command accepts and what its status means.";

const AFTER_GENERATE: &str = "Status:
  0  the component is written
  1  no component can be made of the input, or memory runs out: the refusal's name is on standard error
  2  bad arguments, limits that are refused, an input that is too long, or a failed read or write

With --from no file is overwritten, and the status is the greatest that an input has.";

const AFTER_LIMITS: &str = "Status:
  0  they are printed
  2  bad arguments, or a failed write";

const AFTER_CHECK: &str = "Status:
  0  the component is well formed
  1  it is not: the rule that it breaks, and the offset, are on standard error
  2  bad arguments, memory runs out, or a failed read or write
  3  the bytes are not in the grammar: what is wrong, and the offset, are on standard error

Status with --validate:
  0  valid: each validator must accept it that has all features, and no lower bounds than wasmparser
  1  invalid: no validator may accept it
  3  outside, as no component of the grammar: a validator may accept or refuse it
  4  bound, beyond one of wasmparser's own, or outside for another reason: the same

Of several files, a line for each is on standard output, and one with how many there are of each sort:
those that cannot be read are skipped. The status is the worst: 2 if a file has it, else 1, 3 or 4.";

const AFTER_SHOW: &str = "Status:
  0  the component is printed
  1  the bytes are no component, or memory runs out: what is wrong, and the offset, are on standard error
  2  bad arguments, or a failed read or write";

const AFTER_PRINT: &str = "Status:
  0  the text is written
  1  the bytes are no component, a core module in it has no text here, or memory runs out: see standard error
  2  bad arguments, or a failed read or write";

const AFTER_SCRIPT: &str = "Status:
  0  the script is written
  1  the bytes are no component, it has no script within the limits, or memory runs out: see standard error
  2  bad arguments, limits that are refused, or a failed read or write";

const AFTER_SMALLER: &str =
    "The smaller components are, in this order: the ones without one item and all that refers to it, and
the ones with one item made simpler. They are counted from 0. So are the steps to them, some of which
lead to none.

Status:
  0  the component is written
  1  there is no smaller component of that number, or from that step on
  2  bad arguments, limits that are refused, memory runs out, or a failed read or write
  3  the bytes are not in the grammar: what is wrong, and the offset, are on standard error";

const AFTER_CHANGE: &str =
    "In each changed component one token, or one list of entries, is another. The changes are counted from
0: sixteen for each place, in the order of the bytes. Not all of them lead to something. The number of
the change is printed on standard error, and what the changed component is, as `check --validate` says.

Status:
  0  the component is written, or the changes are listed
  1  the change of that number, or each from it on, leads to nothing
  2  bad arguments, memory runs out, or a failed read or write
  3  the bytes are not in the grammar: what is wrong, and the offset, are on standard error";

const AFTER_MUTATE: &str =
    "Each second time the component of the input loses an item, or another one's sections follow its own, and
an input that produces it is written. Otherwise some bytes are changed. Without bytes a random input is written.

Status:
  0  the input is written
  1  memory runs out
  2  bad arguments, limits that are refused, an input that is too long, or a failed read or write";

const AFTER_CORPUS: &str =
    "Inputs are named by their numbers from 0, or after their components. No file is overwritten.

Status:
  0  the inputs are written
  1  no input is found within the limits, or memory runs out
  2  bad arguments, limits that are refused, or a failed read or write, such as of a file that is already there";

const AFTER_STATS: &str =
    "A shape is a sort of thing together with what it is in, such as u32 in records. A combination is a thing
together with what it is in, what it refers to, how that came there, and how long a chain it ends.

Status:
  0  what is in the components is printed
  1  memory runs out
  2  bad arguments, or a failed read or write";

const TO_COMPONENT: &str =
    "Where the component goes; - is standard output [default: -, unless it is a terminal]";

// A command of that name, with what its help says before and after its arguments.
fn plain<'a>(alloc: Global, name: &'a str, about: &'a str, after: &'a str) -> Command<'a> {
    Command::new(alloc, name).about(about).after_help(after)
}

// What a command works on.
fn input<'a>(alloc: Global, name: &'a str, help: &'a str) -> Arg<'a> {
    Arg::new(alloc, "input").value_name(name).help(help)
}

fn component<'a>(alloc: Global) -> Arg<'a> {
    let help = "The component; - is standard input [default: -]";
    input(alloc, "FILE", help)
}

// An option with a value.
fn option<'a>(alloc: Global, name: &'a str, value: &'a str, help: &'a str) -> Arg<'a> {
    Arg::new(alloc, name)
        .long(name)
        .value_name(value)
        .help(help)
}

// An option with a number.
fn number<'a>(alloc: Global, name: &'a str, value: &'a str, help: &'a str) -> Arg<'a> {
    option(alloc, name, value, help).value_parser(value_parser!(usize))
}

// An option without a value.
fn switch<'a>(alloc: Global, name: &'a str, help: &'a str) -> Arg<'a> {
    Arg::new(alloc, name)
        .long(name)
        .action(ArgAction::SetTrue)
        .help(help)
}

// That one of these options has to be there, and no more than one.
fn one_of<'a>(alloc: Global, first: &'a str, second: &'a str) -> Result<ArgGroup<'a>, AllocError> {
    let wanted = ArgGroup::new(alloc, "wanted").arg(first)?.arg(second)?;
    Ok(wanted.required(true))
}

fn output<'a>(alloc: Global, help: &'a str) -> Arg<'a> {
    option(alloc, "output", "OUT", help).short('o')
}

// The command with the arguments that set the limits.
fn with_limits<'a>(alloc: Global, command: Command<'a>) -> Result<Command<'a>, AllocError> {
    let limits =
        "Limits in TOML; - is standard input. The rest are as `lupinanon limits` prints them";
    let limit = "One limit, such as max_types=10, over --limits; can be repeated";
    let limit = option(alloc, "limit", "KEY=VALUE", limit).action(ArgAction::Append);
    let profile = "Limits by the name of a profile, under --limits";
    let profile = option(alloc, "profile", "NAME,..", profile)
        .value_parser(ValueParser::Names(PROFILES))
        .value_delimiter(',')
        .action(ArgAction::Append);
    command
        .arg(profile)?
        .arg(option(alloc, "limits", "FILE", limits))?
        .arg(limit)
}

fn generate_command<'a>(alloc: Global) -> Result<Command<'a>, AllocError> {
    let about = "Make a component of a file's bytes";
    let bytes = "The bytes, at most 1048576 of them; - is standard input [default: -]";
    let swarm = "Take limits from the first bytes of the input, over the given ones";
    let hex = "Write the bytes as hexadecimal digits, and how many bytes are left";
    let left = "Print on standard error how many bytes of the input are left";
    let from =
        "Make a component NAME.wasm of each input NAME in that folder, all in the folder OUT";
    let from = option(alloc, "from", "FOLDER", from)
        .conflicts_with("input")?
        .conflicts_with("hex")?
        .conflicts_with("left")?
        .requires_arg("output")?;
    let files = plain(alloc, "generate", about, AFTER_GENERATE)
        .arg(input(alloc, "INPUT", bytes))?
        .arg(from)?
        .arg(output(alloc, TO_COMPONENT))?;
    with_limits(alloc, files)?
        .arg(switch(alloc, "swarm", swarm))?
        .arg(switch(alloc, "hex", hex))?
        .arg(switch(alloc, "left", left))
}

fn check_command<'a>(alloc: Global) -> Result<Command<'a>, AllocError> {
    let about = "Say whether a file is a well-formed component, and where it is not";
    let files = "Components, and folders of them; - is standard input [default: -]";
    let validate = "Say what it is to validators: valid, invalid, bound or outside";
    let json = "Print an object of JSON for each file, whatever it is";
    plain(alloc, "check", about, AFTER_CHECK)
        .arg(input(alloc, "FILE", files).num_args(1..))?
        .arg(switch(alloc, "validate", validate))?
        .arg(switch(alloc, "json", json))
}

fn show_command<'a>(alloc: Global) -> Result<Command<'a>, AllocError> {
    let about = "Print a component, a line with its offset for each section and each entry";
    let json = "Print an array of JSON, with an object for each line";
    plain(alloc, "show", about, AFTER_SHOW)
        .arg(component(alloc))?
        .arg(switch(alloc, "json", json))
}

fn print_command<'a>(alloc: Global) -> Result<Command<'a>, AllocError> {
    let about = "Write a component as text in the text format, which other tools read";
    let to = "Where the text goes; - is standard output [default: -]";
    let offsets = "Write the offset of each entry of a section as a comment before it";
    plain(alloc, "print", about, AFTER_PRINT)
        .arg(component(alloc))?
        .arg(output(alloc, to))?
        .arg(switch(alloc, "offsets", offsets))
}

fn script_command<'a>(alloc: Global) -> Result<Command<'a>, AllocError> {
    let about = "Write an input that produces a component";
    let to = "Where the input goes; - is standard output [default: -, unless it is a terminal]";
    let hex = "Write the input as hexadecimal digits, and that no byte of it is left";
    let files = plain(alloc, "script", about, AFTER_SCRIPT)
        .arg(component(alloc))?
        .arg(output(alloc, to))?;
    with_limits(alloc, files)?.arg(switch(alloc, "hex", hex))
}

fn smaller_command<'a>(alloc: Global) -> Result<Command<'a>, AllocError> {
    let about = "Write the component with one item less, or with a simpler one";
    let which = "Which of the components that can be generated within the limits, from 0";
    let from =
        "The first one from that step on. The number of its step is printed on standard error";
    let any = "Count each well-formed component, whatever the limits";
    let any = switch(alloc, "any", any)
        .conflicts_with("profile")?
        .conflicts_with("limits")?
        .conflicts_with("limit")?;
    let which = number(alloc, "number", "K", which).short('k');
    let from = number(alloc, "from", "STEP", from);
    let files = plain(alloc, "smaller", about, AFTER_SMALLER)
        .arg(component(alloc))?
        .arg(output(alloc, TO_COMPONENT))?;
    with_limits(alloc, files)?
        .group(one_of(alloc, "number", "from")?)?
        .arg(which)?
        .arg(from)?
        .arg(any)
}

fn change_command<'a>(alloc: Global) -> Result<Command<'a>, AllocError> {
    let about = "Write the component with one token or one list of entries changed";
    let which = "The number of the change, from 0";
    let from = "The first change from that number on that leads to something";
    let list =
        "List the changes that lead to something: the number, what is changed, and what that is";
    let which = number(alloc, "number", "K", which).short('k');
    let list = switch(alloc, "list", list).conflicts_with("output")?;
    plain(alloc, "change", about, AFTER_CHANGE)
        .group(one_of(alloc, "number", "from")?.arg("list")?)?
        .arg(component(alloc))?
        .arg(output(alloc, TO_COMPONENT))?
        .arg(which)?
        .arg(number(alloc, "from", "K", from))?
        .arg(list)
}

fn mutate_command<'a>(alloc: Global) -> Result<Command<'a>, AllocError> {
    let about = "Write another input, for a fuzzer that asks a command for it";
    let bytes = "The bytes, at most 1048576 of them; - is standard input [default: -]";
    let to = "Where it goes, INPUT too; - is standard output [default: -, unless it is a terminal]";
    let seed = "Where it is drawn from: the same for the same seed [default: the time]";
    let seed = option(alloc, "seed", "SEED", seed).value_parser(value_parser!(u64));
    let files = plain(alloc, "mutate", about, AFTER_MUTATE)
        .arg(input(alloc, "INPUT", bytes))?
        .arg(output(alloc, to))?;
    with_limits(alloc, files)?.arg(seed)
}

// The command with how many inputs are drawn, from what, and of how many bytes.
fn with_draw<'a>(alloc: Global, command: Command<'a>) -> Result<Command<'a>, AllocError> {
    let count = "How many random inputs are written";
    let bytes = "How many bytes each has, including its limits [default: 1024]";
    let seed = "Where they are drawn from: the same inputs for the same seed [default: 0]";
    let swarm = "Begin each with the bytes of limits of its own, for `generate --swarm`";
    let flat = "Write short inputs instead, of components with what is rare in those before";
    let flat = switch(alloc, "flat", flat);
    let components = "Write the component of each beside it, with the ending .wasm";
    let count = number(alloc, "count", "COUNT", count).short('n');
    let bytes = option(alloc, "bytes", "N", bytes);
    let seed = option(alloc, "seed", "SEED", seed);
    command
        .group(one_of(alloc, "count", "from")?)?
        .arg(count)?
        .arg(bytes.value_parser(value_parser!(usize).range(..=1_048_576)))?
        .arg(seed.value_parser(value_parser!(u64)))?
        .arg(switch(alloc, "swarm", swarm))?
        .arg(flat.conflicts_with("bytes")?.conflicts_with("swarm")?)?
        .arg(switch(alloc, "components", components))
}

fn corpus_command<'a>(alloc: Global) -> Result<Command<'a>, AllocError> {
    let about = "Write inputs that are read to their ends into a folder";
    let from = "Write the scripts of the components in that folder, and no random inputs";
    let to = "The folder where they go, which is made if it is missing";
    let from = option(alloc, "from", "FOLDER", from)
        .conflicts_with("bytes")?
        .conflicts_with("seed")?
        .conflicts_with("swarm")?
        .conflicts_with("flat")?
        .conflicts_with("components")?;
    let broken =
        "Write near misses of components that validate, and what each of them is. --bytes is 512 then";
    let broken = switch(alloc, "broken", broken)
        .conflicts_with("from")?
        .conflicts_with("flat")?
        .conflicts_with("components")?;
    let files = with_draw(alloc, plain(alloc, "corpus", about, AFTER_CORPUS))?
        .arg(from)?
        .arg(broken)?
        .arg(output(alloc, to).required(true))?;
    with_limits(alloc, files)
}

fn stats_command<'a>(alloc: Global) -> Result<Command<'a>, AllocError> {
    let about = "Count what is in components, by sort and by place";
    let paths =
        "Components, and folders of them: of their files *.wasm, or of all if none is named so";
    let inputs = "Count the components of inputs: each file, and in folders all but *.wasm";
    let json = "Print it as JSON";
    let listed =
        "List the combinations, each with how many components have it, and which is the first";
    let within = ArgGroup::new(alloc, "within")
        .arg("profile")?
        .arg("limits")?
        .arg("limit")?
        .multiple(true)
        .requires_arg("inputs")?;
    let files = plain(alloc, "stats", about, AFTER_STATS)
        .arg(input(alloc, "PATH", paths).required(true).num_args(1..))?
        .arg(switch(alloc, "inputs", inputs))?
        .arg(switch(alloc, "json", json))?
        .arg(switch(alloc, "combinations", listed).conflicts_with("json")?)?;
    with_limits(alloc, files)?.group(within)
}

/// The program's command.
pub fn command<'a>(alloc: Global) -> Result<Command<'a>, AllocError> {
    let limits = "Print the default limits as TOML";
    plain(alloc, "lupinanon", ABOUT, AFTER)
        .bin_name("lupinanon")?
        .version("0.1.0")
        .subcommand_required(true)
        .subcommand(generate_command(alloc)?)?
        .subcommand(plain(alloc, "limits", limits, AFTER_LIMITS))?
        .subcommand(check_command(alloc)?)?
        .subcommand(show_command(alloc)?)?
        .subcommand(print_command(alloc)?)?
        .subcommand(script_command(alloc)?)?
        .subcommand(smaller_command(alloc)?)?
        .subcommand(change_command(alloc)?)?
        .subcommand(mutate_command(alloc)?)?
        .subcommand(corpus_command(alloc)?)?
        .subcommand(stats_command(alloc)?)
}
