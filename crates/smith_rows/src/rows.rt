//! A table, line by line.
//!
//! `limits` sets the limits of what follows, by their names; the others have their defaults. A row begins with a task
//! and the row's name, has its bytes on lines that begin with a space, and ends before an empty line. `with` sets one
//! more limit for a row, whether or not it fits the others. What follows a `#` is a comment. Each line is printed as
//! it is, and what is found goes to lines that begin with `=` at the end of the row.

use crate::answers::{TASKS, Task, answer};
use crate::bytes::push_line;
use smith_component::Config;
use smith_limits::limits_of_text;
use std::alloc::{AllocError, Global};

/// The row that is being read, and what is printed so far.
#[derive(Drop)]
struct Rows {
    alloc: Global,
    limits: Config,
    row_limits: Config,
    task: Option<Task>,
    bytes: Vec<u8>,
    printed: String,
}

fn task_of(word: &str) -> Option<Task> {
    let (_, task) = TASKS.iter().find(|(name, _)| *name == word)?;
    Some(*task)
}

// Sets the limit that a word such as `max_types=10` names. Returns whether there is one.
fn set_limit(limits: &mut Config, word: &str) -> bool {
    let (name, number) = word.split_once('=').unwrap_or((word, ""));
    let Ok(number) = number.parse::<usize>() else {
        return false;
    };
    match name {
        "min_types" => limits.min_types = number,
        "min_imports" => limits.min_imports = number,
        "min_funcs" => limits.min_funcs = number,
        "max_types" => limits.max_types = number,
        "max_imports" => limits.max_imports = number,
        "max_funcs" => limits.max_funcs = number,
        "max_exports" => limits.max_exports = number,
        "max_globals" => limits.max_globals = number,
        "max_tables" => limits.max_tables = number,
        "max_tags" => limits.max_tags = number,
        "max_memories" => limits.max_memories = number,
        "max_modules" => limits.max_modules = number,
        "max_components" => limits.max_components = number,
        "max_instances" => limits.max_instances = number,
        "max_nesting_depth" => limits.max_nesting_depth = number,
        "max_name_length" => limits.max_name_length = number,
        "loop_bits" => limits.loop_bits = number,
        _ => return false,
    }
    true
}

impl Rows {
    // Prints the answers to the row that ends here, if there is one.
    fn end(&mut self) -> Result<(), AllocError> {
        if let Some(task) = self.task {
            let answers = answer(self.alloc, &self.row_limits, task, &self.bytes)?;
            self.printed.push_str(&answers)?;
        }
        self.task = None;
        self.bytes.clear();
        Ok(())
    }

    // Takes a line without its comment. Returns what is wrong with it.
    fn take(&mut self, line: &str) -> Result<Option<&'static str>, AllocError> {
        if line.starts_with(' ') {
            let is_bytes = push_line(self.alloc, &mut self.bytes, line)?;
            return Ok((!is_bytes).then_some("= no bytes\n"));
        }
        let (word, rest) = line.split_once(' ').unwrap_or((line, ""));
        let is_known = match word {
            "" => true,
            "with" => set_limit(&mut self.row_limits, rest),
            "limits" => {
                let text = rest.replace(self.alloc, ' ', "\n")?;
                let limits = limits_of_text(self.alloc, &text).ok();
                self.limits = limits.unwrap_or(self.limits);
                limits.is_some()
            }
            _ => {
                self.task = task_of(word);
                self.row_limits = self.limits;
                self.task.is_some()
            }
        };
        Ok((!is_known).then_some("= neither limits nor a task\n"))
    }

    fn line(&mut self, line: &str) -> Result<(), AllocError> {
        if line.is_empty() {
            self.end()?;
        }
        self.printed.push_str(line)?;
        self.printed.push('\n')?;
        let (line, _comment) = line.split_once('#').unwrap_or((line, ""));
        if let Some(fault) = self.take(line)? {
            self.printed.push_str(fault)?;
        }
        Ok(())
    }
}

/// The table, with the answers to its rows.
pub fn answered(alloc: Global, table: &str) -> Result<String, AllocError> {
    let mut rows = Rows {
        alloc,
        limits: Config::default(),
        row_limits: Config::default(),
        task: None,
        bytes: Vec::new(alloc),
        printed: String::new(alloc),
    };
    for line in table.lines() {
        rows.line(line)?;
    }
    rows.end()?;
    Ok(rows.printed)
}
