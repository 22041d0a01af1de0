//! Names as a script spells them: by a text that can be read and becomes the name.

ghost use Rattle.std.specs.Prelude.{decimal, ◌≡◌, ◌+◌, ◌<◌, ◌≤◌, ℕ, List, Bool, false, length};
ghost use Rattle.smith_input.specs.NameScript.{is_short, is_within, last_word_is_a, script_new_text, stem_of};
ghost use Rattle.smith_input.specs.Script.{script_name, script_text};
ghost use Rattle.smith_script_types.specs.Says.{Says};
ghost use Rattle.smith_tree.specs.TypeScript.{script_label};

use crate::choices::{say_characters, say_choice, say_text_within};
use crate::cuts::front;
use smith_format::Config;
use smith_input::Error;

// Which texts can be read.
trait Readable {
    ghost can_read: { Self → List ℕ → Bool };

    fn reads(&self, text: &[u8]) -> bool
        ensures { result ≡ can_read self.now text.now };

    // How many bytes are read at most. A text that is more than one byte longer is not read.
    fn longest(&self) -> usize
        ensures { (text : List ℕ) → result + 1 < length text → can_read self.now text ≡ false };
}

// Is `a` the last word?
fn ends_in_a(text: &[u8]) -> bool
    ensures { result ≡ last_word_is_a text.now }
{
    text.len() == 1 && text[0] == b'a' || text.ends_with(&[b'-', b'a'])
}

// Texts that become names in kebab case, of which at most so many bytes are read.
#[derive(Drop)]
struct Label {
    max: usize,
}

impl Readable for Label {
    ghost can_read = { λ label text. is_within label.max text };

    fn reads(&self, text: &[u8]) -> bool {
        if ends_in_a(text) {
            return text.len() <= self.max.saturating_add(1);
        }
        text.len() <= self.max
    }

    fn longest(&self) -> usize {
        self.max
    }
}

// Texts that become other names, of which at most so many bytes are read.
#[derive(Drop)]
struct Text {
    max: usize,
}

impl Readable for Text {
    ghost can_read = { λ words text. is_short words.max text };

    fn reads(&self, text: &[u8]) -> bool {
        text.len() <= self.max
    }

    fn longest(&self) -> usize {
        self.max
    }
}

// How many decimal digits a number has.
#[tactic(auto, using(smith_input::proofs::Digits::one_digit, smith_input::proofs::Digits::more_digits))]
fn decimal_len(n: usize) -> usize
    ensures count { result ≡ length (decimal n) }
    ensures some { 0 < result }
    ensures few { result ≤ 20 }
{
    if n < 10 {
        return 1;
    }
    decimal_len(n / 10) + 1
}

// The longest text that can be read and becomes the name, when that many names are there. What is too long is cut in
// one step, so that a long name costs no more than a short one.
fn stem_of<'b, R: Readable>(rule: &R, count: usize, name: &'b [u8]) -> &'b [u8]
    ensures { result.now ≡ stem_of (R.can_read rule.now) count name.now }
{
    let digits = decimal_len(count);
    let longest = rule.longest();
    let excess = name.len().saturating_sub(longest).saturating_sub(1);
    let cuts = excess / digits;
    let mut text = &name[..name.len() - cuts * digits];
    for _turn in cuts..name.len() {
        if rule.reads(text) {
            return text;
        }
        text = &text[..text.len().saturating_sub(digits)];
    }
    text
}

// A name in kebab case, of which that many bytes are chosen.
fn say_kebab(out: &mut Vec<u8>, max: usize, name: &[u8]) -> Result<(), Error>
    requires { max ≤ 100 }
    ensures { Says result out.old out.new (script_name max name.now) }
{
    say_choice(out, max + 1, name.len())?;
    say_characters(out, name)
}

/// A name in kebab case, when that many names are there.
pub fn say_name(out: &mut Vec<u8>, config: &Config, count: usize, name: &str) -> Result<(), Error>
    requires { config.now.max_name_length ≤ 100 }
    ensures { Says result out.old out.new (script_label config.now count name.now) }
{
    let max = config.max_name_length;
    let text = stem_of(&Label { max }, count, name.as_bytes());
    say_kebab(out, max, front(text, max))
}

/// The name of a core module from which something is imported.
pub fn say_core_name(out: &mut Vec<u8>, config: &Config, name: &str) -> Result<(), Error>
    requires { config.now.max_name_length ≤ 100 }
    ensures { Says result out.old out.new (script_text config.now.max_name_length name.now) }
{
    say_text_within(out, config.max_name_length, name.as_bytes())
}

/// A name of what a core module imports or exports, when that many names are there.
pub fn say_new_core_name(
    out: &mut Vec<u8>,
    config: &Config,
    count: usize,
    name: &str,
) -> Result<(), Error>
    requires { config.now.max_name_length ≤ 100 }
    ensures { Says result out.old out.new (script_new_text config.now.max_name_length count name.now) }
{
    let max = config.max_name_length;
    say_text_within(out, max, stem_of(&Text { max }, count, name.as_bytes()))
}
