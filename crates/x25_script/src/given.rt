//! The cause and the diagnostic that may follow a clear, a reset or a restart.
ghost use Rattle.std.specs.Prelude.{◌≡◌, [], Some, codes};
ghost use Rattle.x25_script.specs.ScriptLine.{is_any};
ghost use Rattle.x25_script.specs.Reading.{given_in, given_of, labelled_in, nothing_given, one_given, with_given_in};
ghost use Rattle.x25_script.specs.Reading.{GivesWithGiven};

use crate::fields::{behind, small_number, split_blank};

/// A cause and a diagnostic, each where the line has it.
#[derive(Clone, Copy, Debug)]
pub struct Given {
    pub cause: Option<u8>,
    pub diagnostic: Option<u8>,
}

impl Given {
    /// Neither.
    pub(crate) fn nothing() -> Given
        ensures { result ≡ nothing_given }
    {
        Given {
            cause: None,
            diagnostic: None,
        }
    }

    pub(crate) fn is_any(self) -> bool
        ensures { result ≡ is_any self }
    {
        self.cause.is_some() || self.diagnostic.is_some()
    }
}

/// The number of 8 bits behind a label.
fn labelled(label: &[u8], text: &[u8]) -> Option<u8>
    ensures { result ≡ labelled_in label.now text.now }
{
    match behind(text, label) {
        Some(number) => small_number(number),
        None => None,
    }
}

// A cause, or else a diagnostic.
fn read_one(text: &[u8]) -> Option<Given>
    ensures { result ≡ one_given (labelled_in (codes "cause=") text.now) (labelled_in (codes "diag=") text.now) }
{
    if let Some(cause) = labelled(b"cause=", text) {
        return Some(Given {
            cause: Some(cause),
            diagnostic: None,
        });
    }
    let diagnostic = labelled(b"diag=", text)?;
    Some(Given {
        cause: None,
        diagnostic: Some(diagnostic),
    })
}

// First the one and then the other.
fn read_both(first: &[u8], second: &[u8]) -> Option<Given>
    ensures { result ≡ given_of [] (Some (first.now, second.now)) }
{
    let cause = labelled(b"cause=", first)?;
    let diagnostic = labelled(b"diag=", second)?;
    Some(Given {
        cause: Some(cause),
        diagnostic: Some(diagnostic),
    })
}

/// What is given, one of both at least.
pub(crate) fn read_given(text: &[u8]) -> Option<Given>
    ensures { result ≡ given_in text.now }
{
    match split_blank(text) {
        Some((first, second)) => read_both(first, second),
        None => read_one(text),
    }
}

/// The last field that has to stand, and what is given where a blank follows it.
pub(crate) fn with_given(text: &[u8]) -> Option<(&[u8], Given)>
    ensures { GivesWithGiven result (with_given_in text.now) }
{
    match split_blank(text) {
        Some((field, rest)) => {
            let given = read_given(rest)?;
            Some((field, given))
        }
        None => Some((text, Given::nothing())),
    }
}
