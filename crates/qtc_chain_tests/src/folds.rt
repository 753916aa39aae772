// A chain whose steps each give just one outcome, so that contracts know what it comes to.
ghost use Rattle.std.specs.Prelude.{◌≡◌, [], ◌∷◌, IfOk, fold};
ghost use Rattle.qtc_future.specs.declared.replies.Outcome.TheVariants.{Values};

use qtc_base::{List, NoMemory};
use qtc_chain::{Continuation, chains_are_folds, run_chain};
use qtc_future::Outcome;
use std::alloc::Global;
use std::test::Fail;

// Gives its number as the one value, whatever came before.
#[derive(Drop)]
struct Only {
    alloc: Global,
    number: u32,
}

impl Continuation<u32> for Only {
    ghost use Rattle.std.specs.Prelude.{◌≡◌, [], ◌∷◌};
    ghost use Rattle.qtc_future.specs.declared.replies.Outcome.TheVariants.{Values};

    ghost gives = { λ step _ given. given ≡ Values (step.number ∷ []) };

    fn run(self, _outcome: Outcome<u32>) -> Result<Outcome<u32>, NoMemory>
        ensures { IfOk result (λ given. given ≡ Values (self.number ∷ [])) }
    {
        let mut values = List::new(self.alloc);
        match values.push(self.number) {
            Ok(()) => Ok(Outcome::Values(values)),
            Err(_) => Err(NoMemory),
        }
    }
}

// What the chain comes to is the left fold of its steps.
fn settled(outcome: Outcome<u32>, steps: List<Only>) -> Result<Outcome<u32>, NoMemory>
    ensures { IfOk result (λ given. given ≡ fold (λ _ step. Values (step.number ∷ [])) outcome steps) }
{
    chains_are_folds::<u32, Only>();
    run_chain(outcome, steps)
}

#[test]
fn the_last_of_a_chain_of_steps_that_ask_for_nothing_counts(rt: HostRuntime) -> Result<(), Fail> {
    let alloc = rt.alloc();
    let mut steps = Vec::new(alloc);
    for number in [7u32, 8, 9] {
        steps.push(Only { alloc, number })?;
    }
    let given = settled(Outcome::Canceled, List::from_vec(steps))?;
    match given {
        Outcome::Values(values) => assert_eq!(rt; values.as_slice(), [9].as_slice()),
        Outcome::Failed(_) | Outcome::Canceled => assert!(rt; false, "the chain gave no values"),
    }
    Ok(())
}
