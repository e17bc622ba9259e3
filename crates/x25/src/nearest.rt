//! Which of several words may be meant by another one.
use std::alloc::Global;
use strsim::levenshtein;

/// The most edits that lead from a word to one that may be meant, and so of a short word.
const MOST_EDITS: usize = 2;

const MOST_OF_SHORT: usize = 1;

/// The most octets of a short word.
const SHORT: usize = 3;

/// The most octets of a word that is compared.
const MOST_WORD: usize = 16;

/// What was found so far: the word that begins with the one that was written, or is fewest edits away.
#[derive(Clone, Copy)]
pub(crate) struct Nearest<'a> {
    alloc: Global,
    word: &'a str,
    least: usize,
    found: Option<&'static str>,
}

impl<'a> Nearest<'a> {
    pub(crate) fn new(alloc: Global, word: &'a str) -> Nearest<'a> {
        Nearest {
            alloc,
            word,
            least: if word.len() > SHORT {
                MOST_EDITS
            } else {
                MOST_OF_SHORT
            },
            found: None,
        }
    }

    /// How many edits lead to a word; to one that begins so none.
    fn edits(self, other: &str) -> Option<usize> {
        if self.word.len() > MOST_WORD {
            return None;
        }
        if self.word.len() > SHORT && other.starts_with(self.word) {
            return Some(0);
        }
        levenshtein(self.alloc, self.word, other).ok()
    }

    /// With one more word that may be meant.
    pub(crate) fn or(self, other: &'static str) -> Nearest<'a> {
        match self.edits(other) {
            Some(edits) if edits < self.least || edits == self.least && self.found.is_none() => {
                Nearest {
                    least: edits,
                    found: Some(other),
                    ..self
                }
            }
            _ => self,
        }
    }

    /// The word that may be meant.
    pub(crate) fn found(self) -> Option<&'static str> {
        self.found
    }
}
