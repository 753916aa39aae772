ghost use Rattle.std.specs.Prelude.{◌≡◌, ℕ, List as PlainList, [], ◌∷◌, ◌++◌};
ghost use Rattle.qtc_job.specs.Answers.{IsLeastSoFar};
ghost use Rattle.qtc_job.specs.Codes.{job_codes};
ghost use Rattle.qtc_job.specs.Lines.{Line, says};
ghost use Rattle.qtc_job.specs.Marks.{IsMarks};

use crate::codes::{NO_INPUT, NOT_ONE_FUNCTION, ORDER_WITHOUT_FOLD};
use qtc_job_file::Keyword;

/// Which of its directives a job has, as far as the codes of its job line ask.
#[derive(Clone, Copy)]
pub struct Marks {
    pub input: bool,
    pub map: bool,
    pub filter: bool,
    pub reduce: bool,
    pub order: bool,
}

impl Marks {
    /// Those of a job without lines.
    pub fn new() -> Marks
        ensures { IsMarks [] result }
    {
        Marks {
            input: false,
            map: false,
            filter: false,
            reduce: false,
            order: false,
        }
    }

    /// Those with one line more that begins with the word.
    pub fn with_line(self, keyword: Keyword) -> Marks
        ensures { (own : PlainList Line) (args : PlainList (PlainList ℕ)) → IsMarks own self
            → IsMarks (own ++ says keyword args ∷ []) result }
    {
        match keyword {
            Keyword::Input => Marks {
                input: true,
                ..self
            },
            Keyword::Map => Marks { map: true, ..self },
            Keyword::Filter => Marks {
                filter: true,
                ..self
            },
            Keyword::Reduce => Marks {
                reduce: true,
                ..self
            },
            Keyword::Order => Marks {
                order: true,
                ..self
            },
            _ => self,
        }
    }

    /// The least code of the job line of a job whose lines have these.
    pub fn code(self) -> Option<u32>
        ensures { (own : PlainList Line) → IsMarks own self → IsLeastSoFar (job_codes own) result }
    {
        if !self.input {
            return Some(NO_INPUT);
        }
        if self.map == self.filter {
            return Some(NOT_ONE_FUNCTION);
        }
        if self.order && !self.reduce {
            return Some(ORDER_WITHOUT_FOLD);
        }
        None
    }
}
