//! Lists of words, as contracts are named by.
ghost use Rattle.std.specs.Prelude.{◌≡◌, not, [], ◌∷◌, ◌++◌, IfOk, IsTrue};
ghost use Rattle.std.specs.List.{list_all};
ghost use Rattle.ob_object.specs.Words.{is_word, is_white, IsWordPushed};
ghost use Rattle.ob_object.specs.KeptWords.{kept_words};

use ob_values::Text;
use std::alloc::{AllocError, Global};
use std::marker::Model;
use std::sync::ArcSlice;
use thiserror::Error;

/// A list of words, none empty and none with white space, seen as the list of their texts. Copies of a copy
/// share its words.
pub struct Words {
    alloc: Global,
    kept: Kept,
}

// The words as they are put one behind the other, or shared by copies.
#[derive(Drop)]
enum Kept {
    Own(Vec<Text>),
    Shared(ArcSlice<Text>),
}

impl Model for Words {
    ghost use Rattle.std.specs.Prelude.{List, ℕ, IsTrue};
    ghost use Rattle.std.specs.List.{list_all};
    ghost use Rattle.ob_object.specs.Words.{is_word};
    ghost use Rattle.ob_object.specs.KeptWords.{kept_words};

    ghost Value = { List (List ℕ) };

    ghost view = { λ w. kept_words w.kept };

    ghost invariant = { λ w. IsTrue (list_all is_word (kept_words w.kept)) };
}

impl Drop for Words {
    // By one call, so that to drop a list is one call to whoever may have to.
    fn drop(self) {
        let Words { alloc: _, kept } = self;
        drop(kept);
    }
}

/// Why a word was not taken.
#[derive(Drop, Debug, Error)]
pub enum WordFault {
    /// The text is empty or has white space.
    #[error("NotWord")]
    NotWord { word: Text },
    /// There was no memory for one word more.
    #[error("Memory")]
    Memory { word: Text },
}

// Space, tab, line feed or carriage return.
fn is_white(byte: u8) -> bool
    ensures { result ≡ is_white byte }
{
    matches!(byte, b' ' | b'\t' | b'\n' | b'\r')
}

// Whether no byte is white space.
fn has_no_white(bytes: &[u8]) -> bool
    ensures { result ≡ list_all (λ c. not (is_white c)) bytes.now }
{
    for byte in bytes {
        if is_white(*byte) {
            return false;
        }
    }
    true
}

// Whether a text is a word.
fn is_word(text: &str) -> bool
    ensures { result ≡ is_word text.now }
{
    let bytes = text.as_bytes();
    !bytes.is_empty() && has_no_white(bytes)
}

// Copies of texts, which share their characters.
fn copied(alloc: Global, texts: &[Text]) -> Result<Vec<Text>, AllocError>
    ensures { IfOk result (λ copies. copies.items ≡ texts.now) }
{
    let mut copies = Vec::new(alloc);
    for text in texts {
        copies.push(text.copy()?)?;
    }
    Ok(copies)
}

impl Kept {
    fn as_slice(&self) -> &[Text]
        ensures { result.now ≡ kept_words self.now }
    {
        match self {
            Kept::Own(words) => words.as_slice(),
            Kept::Shared(words) => words.as_slice(),
        }
    }
}

impl Words {
    /// No words.
    pub fn new(alloc: Global) -> Words
        ensures { result ≡ [] }
    {
        Words {
            alloc,
            kept: Kept::Own(Vec::new(alloc)),
        }
    }

    // Where it takes its memory from.
    pub(crate) fn allocator(&self) -> Global {
        self.alloc
    }

    /// The words, in order.
    pub fn as_slice(&self) -> &[Text]
        ensures value { result.now ≡ self.now }
        ensures words { IsTrue (list_all is_word self.now) }
    {
        self.kept.as_slice()
    }

    /// Puts a word last. NotWord gives back a text that is empty or has white space, and Memory a word
    /// that finds no memory; the list is then as it was.
    pub fn push(&mut self, word: Text) -> Result<(), WordFault>
        ensures { IsWordPushed self.old self.new word result }
    {
        if !is_word(word.as_str()) {
            return Err(WordFault::NotWord { word });
        }
        match &mut self.kept {
            Kept::Own(words) => match words.push(word) {
                Ok(()) => Ok(()),
                Err(refused) => Err(WordFault::Memory {
                    word: refused.value,
                }),
            },
            Kept::Shared(words) => {
                let Ok(mut own) = copied(self.alloc, words.as_slice()) else {
                    return Err(WordFault::Memory { word });
                };
                match own.push(word) {
                    Ok(()) => {
                        self.kept = Kept::Own(own);
                        Ok(())
                    }
                    Err(refused) => Err(WordFault::Memory {
                        word: refused.value,
                    }),
                }
            }
        }
    }

    /// A copy of the list. Copies of a copy share its words, and take no room for them.
    pub fn copy(&self) -> Result<Words, AllocError>
        ensures { IfOk result (λ copy. copy ≡ self.now) }
    {
        let kept = match &self.kept {
            Kept::Own(words) if words.is_empty() => Kept::Own(Vec::new(self.alloc)),
            Kept::Own(words) => {
                let copies = copied(self.alloc, words.as_slice())?;
                Kept::Shared(ArcSlice::from_vec(copies)?)
            }
            Kept::Shared(words) => Kept::Shared(words.clone()?),
        };
        Ok(Words {
            alloc: self.alloc,
            kept,
        })
    }
}
