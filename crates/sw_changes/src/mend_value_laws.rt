//! Laws of `mend`'s answers. The functions do nothing: each is the proof of what its clause says.
ghost use Rattle.sw_changes.specs.MendValueLaws.{MendHasOneAnswer, MendHasStatusOfText, MendTextsAreLines, MendsArePlain};

use crate::mend_laws::mendings_are_determined;

/// The value of what frees a network has a text that reads back.
pub fn mends_are_plain()
    ensures { MendsArePlain }
{}

/// `mend` has one answer for each file and path, with pairs asked for or not: its status, and but for faults its text.
pub fn mend_has_one_answer()
    ensures { MendHasOneAnswer }
{
    mendings_are_determined();
}

/// Its status is that of the text answer to the same file.
pub fn mend_has_status_of_text()
    ensures { MendHasStatusOfText }
{
    mendings_are_determined();
}

/// The texts of changes are the lines of the text answer, but for the LF.
pub fn mend_texts_are_lines()
    ensures { MendTextsAreLines }
{}
