ghost use Rattle.std.specs.Prelude.{◌≡◌};
ghost use Rattle.std.specs.List.{find};
ghost use Rattle.std.specs.Str.{bytes_eq};
ghost use Rattle.qtc_job_file.specs.Keywords.{keyword_of, spelling as spelling_of};

/// The words of the job language.
#[derive(Clone, Copy)]
pub enum Keyword {
    Workers,
    Job,
    Input,
    Map,
    Filter,
    Reduce,
    Order,
    Blocks,
    Priority,
    CancelAfter,
    SuspendAfter,
    Watch,
    Then,
    OnFailed,
    OnCanceled,
    Lines,
    Files,
    Pieces,
    All,
    Any,
    Same,
    Length,
    Digest,
    Field,
    Number,
    Not,
    Contains,
    Wildcard,
    Longer,
    Count,
    Bytes,
    Sum,
    Join,
    Chain,
    Greatest,
    Tally,
    Ordered,
    Unordered,
    First,
    Sorted,
    Concat,
}

const EVERY: [Keyword; 41] = [
    Keyword::Workers,
    Keyword::Job,
    Keyword::Input,
    Keyword::Map,
    Keyword::Filter,
    Keyword::Reduce,
    Keyword::Order,
    Keyword::Blocks,
    Keyword::Priority,
    Keyword::CancelAfter,
    Keyword::SuspendAfter,
    Keyword::Watch,
    Keyword::Then,
    Keyword::OnFailed,
    Keyword::OnCanceled,
    Keyword::Lines,
    Keyword::Files,
    Keyword::Pieces,
    Keyword::All,
    Keyword::Any,
    Keyword::Same,
    Keyword::Length,
    Keyword::Digest,
    Keyword::Field,
    Keyword::Number,
    Keyword::Not,
    Keyword::Contains,
    Keyword::Wildcard,
    Keyword::Longer,
    Keyword::Count,
    Keyword::Bytes,
    Keyword::Sum,
    Keyword::Join,
    Keyword::Chain,
    Keyword::Greatest,
    Keyword::Tally,
    Keyword::Ordered,
    Keyword::Unordered,
    Keyword::First,
    Keyword::Sorted,
    Keyword::Concat,
];

impl Keyword {
    /// How the word is spelled.
    pub fn spelling(self) -> &'static [u8]
        ensures { result.now ≡ spelling_of self }
    {
        match self {
            Keyword::Workers => b"workers",
            Keyword::Job => b"job",
            Keyword::Input => b"input",
            Keyword::Map => b"map",
            Keyword::Filter => b"filter",
            Keyword::Reduce => b"reduce",
            Keyword::Order => b"order",
            Keyword::Blocks => b"blocks",
            Keyword::Priority => b"priority",
            Keyword::CancelAfter => b"cancel-after",
            Keyword::SuspendAfter => b"suspend-after",
            Keyword::Watch => b"watch",
            Keyword::Then => b"then",
            Keyword::OnFailed => b"on-failed",
            Keyword::OnCanceled => b"on-canceled",
            Keyword::Lines => b"lines",
            Keyword::Files => b"files",
            Keyword::Pieces => b"pieces",
            Keyword::All => b"all",
            Keyword::Any => b"any",
            Keyword::Same => b"same",
            Keyword::Length => b"length",
            Keyword::Digest => b"digest",
            Keyword::Field => b"field",
            Keyword::Number => b"number",
            Keyword::Not => b"not",
            Keyword::Contains => b"contains",
            Keyword::Wildcard => b"wildcard",
            Keyword::Longer => b"longer",
            Keyword::Count => b"count",
            Keyword::Bytes => b"bytes",
            Keyword::Sum => b"sum",
            Keyword::Join => b"join",
            Keyword::Chain => b"chain",
            Keyword::Greatest => b"greatest",
            Keyword::Tally => b"tally",
            Keyword::Ordered => b"ordered",
            Keyword::Unordered => b"unordered",
            Keyword::First => b"first",
            Keyword::Sorted => b"sorted",
            Keyword::Concat => b"concat",
        }
    }

    /// The word that is spelled so.
    pub fn of(word: &[u8]) -> Option<Keyword>
        ensures { result ≡ keyword_of word.now }
    {
        one_of(&EVERY, word)
    }
}

/// That of the words which is spelled so.
fn one_of(keywords: &[Keyword], word: &[u8]) -> Option<Keyword>
    ensures { result ≡ find (λ keyword. bytes_eq (spelling_of keyword) word.now) keywords.now }
{
    keywords
        .iter()
        .copied()
        .find(|keyword| keyword.spelling() == word)
}
