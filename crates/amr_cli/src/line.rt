//! The words of a command line.
ghost use Rattle.std.specs.Prelude.{◌≡◌, ◌++◌, ◌∷◌, [], OnOk, OnErr, map, string_bytes};

use amr_causes::NoMemory;
use std::alloc::Global;
use std::marker::Model;

/// The words that a program was called with, those after its name, seen as a list of texts.
#[derive(Drop)]
pub struct Line {
    alloc: Global,
    words: Vec<String>,
}

impl Model for Line {
    ghost use Rattle.std.specs.Prelude.{List, ℕ, map, string_bytes};

    ghost Value = { List (List ℕ) };

    ghost view = { λ l. map string_bytes l.words.items };
}

impl Line {
    /// No words yet.
    pub fn make(alloc: Global) -> Line
        ensures { result ≡ [] }
    {
        Line {
            alloc,
            words: Vec::new(alloc),
        }
    }

    /// Adds a word at the end. If allocation fails, the line is as before.
    pub fn push(&mut self, word: &str) -> Result<(), NoMemory>
        ensures added { OnOk result (self.new ≡ self.old ++ word.now ∷ []) }
        ensures same { OnErr result (self.new ≡ self.old) }
    {
        let word = String::from_str(self.alloc, word)?;
        self.words.push(word)?;
        Ok(())
    }

    pub(crate) fn words(&self) -> &[String]
        ensures { map string_bytes result.now ≡ self.now }
    {
        self.words.as_slice()
    }
}
