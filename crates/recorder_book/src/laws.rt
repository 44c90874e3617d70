//! What the book of a run has to do with its marks, as contracts of functions that do nothing.

ghost use Rattle.recorder_book.specs.Book.{BooksStaySmall, PlainMarksKeepTheBook, StopsAreShort};
ghost use Rattle.recorder_book.specs.Sizes.{FullRecordsHaveTheirSize};

/// A book stands for a run with a mark that is no event as for the run without it.
pub fn plain_marks_keep_the_book()
    ensures { PlainMarksKeepTheBook }
{}

/// The record of a mark with its full values has the bytes that are counted for the mark.
pub fn full_records_have_their_size()
    ensures { FullRecordsHaveTheirSize }
{}

/// After the steps of a run its book has no more events and bytes than a run may have, and each Stop that comes then
/// adds little.
pub fn books_stay_small()
    ensures { BooksStaySmall }
{}

/// The record of each Stop that comes after them has 11 bytes.
pub fn stops_are_short()
    ensures { StopsAreShort }
{}
