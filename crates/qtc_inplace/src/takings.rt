//! What calls take of members and their values.
ghost use Rattle.std.specs.Prelude.{◌≡◌, ℕ, List, Option, Some, IfOk, is_some};
ghost use Rattle.std.specs.Option.{option_map};

use qtc_base::{Bytes, NoMemory};

/// What a call takes of a member, by its kept text.
pub(crate) trait Taking<X>: Send {
    ghost taken: { List ℕ → Option (List ℕ) → Option X };

    /// What is taken of a member with this kept text, or of one that is dropped.
    fn take(member: &Bytes, text: Option<Bytes>) -> Result<Option<X>, NoMemory>
        ensures { IfOk result (λ it. it ≡ taken member.now text) };
}

/// Takes the kept texts.
pub(crate) struct Texts;

impl Taking<Bytes> for Texts {
    ghost taken = { λ member text. text };

    fn take(_member: &Bytes, text: Option<Bytes>) -> Result<Option<Bytes>, NoMemory> {
        Ok(text)
    }
}

/// Takes a copy of each member that stays.
pub(crate) struct Copies;

impl Taking<Bytes> for Copies {
    ghost taken = { λ member text. option_map (λ kept. member) text };

    fn take(member: &Bytes, text: Option<Bytes>) -> Result<Option<Bytes>, NoMemory> {
        match text {
            Some(_) => Ok(Some(member.duplicate()?)),
            None => Ok(None),
        }
    }
}

/// Takes whether the member stays.
pub(crate) struct Verdicts;

impl Taking<bool> for Verdicts {
    ghost taken = { λ member text. Some (is_some text) };

    fn take(_member: &Bytes, text: Option<Bytes>) -> Result<Option<bool>, NoMemory> {
        Ok(Some(text.is_some()))
    }
}
