//! The line that answers a case, while it is put together.
use std::alloc::{AllocError, Global};
use std::test::Fail;

/// A line under way. It remembers that memory was refused, so that who adds to it need not ask: then a part is lacking, and
/// [`Telling::into_text`] says so.
pub struct Telling {
    text: String,
    refused: bool,
}

// Written out, so that letting one go is proved once.
impl Drop for Telling {
    fn drop(self) {
        let Telling { text, refused: _ } = self;
        drop(text);
    }
}

impl Telling {
    /// A line without a word.
    pub fn new(alloc: Global) -> Telling {
        Telling {
            text: String::new(alloc),
            refused: false,
        }
    }

    /// Where its memory comes from.
    pub fn alloc(&self) -> Global {
        *self.text.allocator()
    }

    /// Adds these words.
    pub fn say(&mut self, words: &str) {
        if self.text.push_str(words).is_err() {
            self.refuse();
        }
    }

    /// Adds this letter.
    pub fn letter(&mut self, letter: char) {
        if self.text.push(letter).is_err() {
            self.refuse();
        }
    }

    /// Adds what `format!` gave.
    pub fn tell(&mut self, words: Result<String, AllocError>) {
        match words {
            Ok(words) => self.say(words.as_str()),
            Err(_) => self.refuse(),
        }
    }

    /// Memory was refused to what is told.
    pub fn refuse(&mut self) {
        self.refused = true;
    }

    /// Whether nothing was added.
    pub fn is_empty(&self) -> bool {
        self.text.is_empty()
    }

    /// The line, or that memory was refused.
    pub fn into_text(self) -> Result<String, Fail> {
        let Telling { text, refused } = self;
        if refused {
            return Err("memory was refused")?;
        }
        Ok(text)
    }
}
