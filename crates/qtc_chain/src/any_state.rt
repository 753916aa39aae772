use std::marker::Model;

/// What an arrival is answered where any one is waited for.
#[derive(Debug, Drop, PartialEq, Eq)]
pub enum AnyArrive<T> {
    /// None had arrived.
    First,
    /// Another had: the value comes back.
    Late(T),
}

/// What the first of several futures came to, for one thread. Over no futures nothing arrives, and it counts as finished at
/// once. (After QtFuture's `whenAny`; own.)
#[derive(Drop)]
pub struct AnyState<T> {
    first: Option<(u32, T)>,
}

impl<T> Model for AnyState<T> {
    ghost use Rattle.std.specs.Prelude.{ℕ, ◌<◌, Option, IfSome};
    ghost use Rattle.qtc_chain.specs.Limits.{most_futures};

    ghost Value = { Option (ℕ × T) };

    ghost view = { λ s. s.first };

    ghost invariant = { λ s. IfSome s.first (λ first. first.0 < most_futures) };
}

impl<T> AnyState<T> {
    ghost use Rattle.std.specs.Prelude.{◌≡◌, ◌<◌, None};
    ghost use Rattle.qtc_chain.specs.Limits.{most_futures};
    ghost use Rattle.qtc_chain.specs.Arrivals.{IsFirst, closed_any};

    /// None has arrived.
    pub fn new() -> AnyState<T>
        ensures { result ≡ None }
    {
        AnyState { first: None }
    }

    /// Takes the value of the future with this index, which is below 65,536.
    pub fn arrive(&mut self, index: u32, value: T) -> AnyArrive<T>
        requires { index < most_futures }
        ensures { IsFirst index value self.old self.new result }
    {
        if self.first.is_some() {
            return AnyArrive::Late(value);
        }
        let before = self.first.replace((index, value));
        let None = before else { unreachable!() };
        AnyArrive::First
    }

    /// The index and the value of the first that arrived; -1 and none where none has.
    pub fn close(self) -> (i32, Option<T>)
        ensures { result ≡ closed_any self }
    {
        match self.first {
            Some((index, value)) => (index as i32, Some(value)),
            None => (-1, None),
        }
    }
}
