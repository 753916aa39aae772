use std::marker::Model;

/// What an attaching is answered.
#[derive(Debug, Drop, PartialEq, Eq)]
pub enum Attach<K> {
    /// The step waits for the call of `finished`, which hands it out.
    Waiting,
    /// `finished` was called before: the step comes back, for who attached it to run.
    RunNow(K),
    /// A step was attached before: this one comes back, and is not run.
    Refused(K),
}

/// The continuation of one future, for one thread: at most one step, which comes out once to be run, by `finished` or, where
/// that was called before, by `attach`. (After QFuture's `then`; that a second step is refused is own.)
#[derive(Drop)]
pub struct ContState<K> {
    waiting: Option<K>,
    attached: bool,
    finished: bool,
}

impl<K> Model for ContState<K> {
    ghost use Rattle.std.specs.Prelude.{◌≡◌, ◌&&◌, not, is_some};
    ghost use Rattle.qtc_chain.specs.Continuing.{Cont};

    ghost Value = { Cont K };

    ghost view = { λ s. record { waiting = s.waiting; attached = s.attached; finished = s.finished } };

    ghost invariant = { λ s. is_some s.waiting ≡ (s.attached && not s.finished) };
}

impl<K> ContState<K> {
    ghost use Rattle.std.specs.Prelude.{◌≡◌};
    ghost use Rattle.qtc_chain.specs.Continuing.{IsAttached, IsFinished, new_cont};

    /// Nothing is attached, and the future hasn't finished.
    pub fn new() -> ContState<K>
        ensures { result ≡ new_cont }
    {
        ContState {
            waiting: None,
            attached: false,
            finished: false,
        }
    }

    /// Attaches a step, to be run once the future has finished.
    pub fn attach(&mut self, step: K) -> Attach<K>
        ensures { IsAttached step self.old self.new result }
    {
        if self.attached {
            return Attach::Refused(step);
        }
        self.attached = true;
        if self.finished {
            return Attach::RunNow(step);
        }
        let before = self.waiting.replace(step);
        let None = before else { unreachable!() };
        Attach::Waiting
    }

    /// Tells that the future has finished, and hands out the step that waits, for the caller to run.
    pub fn finished(&mut self) -> Option<K>
        ensures { IsFinished self.old self.new result }
    {
        self.finished = true;
        self.waiting.take()
    }
}
