//! What holds of the values and the answers. The functions do nothing: each is the proof of what its clause says.
ghost use Rattle.sw_json.specs.Laws.{MemoryReadsBack};
ghost use Rattle.sw_json.specs.Plain.{AnswersArePlain, AuditsArePlain, EntriesArePlain, FaultsArePlain, FileFaultsArePlain, InputsArePlain, KindsArePlain, ListsArePlain, PlacesArePlain, PlainAtMore, VerdictsArePlain};

/// A value of so many levels at most has no more than more.
pub fn plain_at_more()
    ensures { PlainAtMore }
{}

/// A list of values has a text that reads back, where each value has.
pub fn lists_are_plain()
    ensures { ListsArePlain }
{}

/// So has the value of a verdict.
pub fn verdicts_are_plain()
    ensures { VerdictsArePlain }
{}

/// So has that of a fault.
pub fn faults_are_plain()
    ensures { FaultsArePlain }
{}

/// So has that of a place of a flow.
pub fn places_are_plain()
    ensures { PlacesArePlain }
{}

/// So has that of a kind alone.
pub fn kinds_are_plain()
    ensures { KindsArePlain }
{}

/// So has that of a file, where its verdict's has.
pub fn entries_are_plain()
    ensures { EntriesArePlain }
{}

/// So has that of many files, where each file's has.
pub fn audits_are_plain()
    ensures { AuditsArePlain }
{}

/// So has that of an input.
pub fn inputs_are_plain()
    ensures { InputsArePlain }
{}

/// So has that of a file's fault, where the fault's has.
pub fn file_faults_are_plain()
    ensures { FileFaultsArePlain }
{}

/// So has that of an answer, where its inputs' and its result's have.
pub fn answers_are_plain()
    ensures { AnswersArePlain }
{}

/// What is written for want of memory is the text of a value, and reads back as it.
pub fn memory_reads_back()
    ensures { MemoryReadsBack }
{}
