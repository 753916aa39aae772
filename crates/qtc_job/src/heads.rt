//! What a line of a job file is, by its first word.
ghost use Rattle.std.specs.Prelude.{◌≡◌};
ghost use Rattle.qtc_base.specs.Words.{words_left};
ghost use Rattle.qtc_job.specs.Heads.{head_line, IsHead, IsOfJob};
ghost use Rattle.qtc_job.specs.Lines.{line_of_words};

use qtc_base::Words;
use qtc_job_file::Keyword;

/// What a line that isn't too long is, by its first word.
#[derive(Clone, Copy)]
pub enum Head {
    /// A line without words, or a comment.
    Silent,
    /// No directive.
    Unknown,
    Workers,
    Job,
    /// A directive that stands in a job.
    Says(Keyword),
}

fn head_of(keyword: Keyword) -> Head
    ensures named { IsHead keyword result }
    ensures one { IsOfJob result }
{
    match keyword {
        Keyword::Workers => Head::Workers,
        Keyword::Job => Head::Job,
        Keyword::Input
        | Keyword::Map
        | Keyword::Filter
        | Keyword::Reduce
        | Keyword::Order
        | Keyword::Blocks
        | Keyword::Priority
        | Keyword::CancelAfter
        | Keyword::SuspendAfter
        | Keyword::Watch
        | Keyword::Then
        | Keyword::OnFailed
        | Keyword::OnCanceled => Head::Says(keyword),
        _ => Head::Unknown,
    }
}

/// What a line is, by its first word, which is taken off.
pub fn read_head(words: &mut Words) -> Head
    ensures line { line_of_words (words_left words.old) ≡ head_line result (words_left words.new) }
    ensures one { IsOfJob result }
{
    match words.next() {
        None => Head::Silent,
        Some(word) => {
            if word.first() == Some(&b'#') {
                return Head::Silent;
            }
            match Keyword::of(word) {
                Some(keyword) => head_of(keyword),
                None => Head::Unknown,
            }
        }
    }
}
