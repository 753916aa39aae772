//! What the definitions of this crate say in their subjects' own words.
ghost use Rattle.qtc_job.specs.Laws.{CanonicalTextsAreReadBack, EachTextIsReadOrRefused, FilesThatAreReadAreLawful, LinesAreReadOnce};

/// Lines either are read as a file, or have a bad pair of least line and then least code.
pub fn each_text_is_read_or_refused()
    ensures { EachTextIsReadOrRefused }
{}

/// No lines are read as two files.
pub fn lines_are_read_once()
    ensures { LinesAreReadOnce }
{}

/// Each file that a text is read as keeps the ranges, and can be printed in short lines.
pub fn files_that_are_read_are_lawful()
    ensures { FilesThatAreReadAreLawful }
{}

/// The canonical text of each lawful file is read as that file, whatever its length.
pub fn canonical_texts_are_read_back()
    ensures { CanonicalTextsAreReadBack }
{}
