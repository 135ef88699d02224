//! Laws of lines, each the contract of a function that does nothing.

ghost use Rattle.grid_told.specs.Laws.{HistoriesFit, LinesAreApart, LinesAreSplit, MembersAreKept, NumbersStayWhole, ObjectsAreReadBack, OutcomesAreTold, TextsTellTrees, TreesAreReadBack};

/// No line has a byte below 32 before its newline, so that an output which is split at byte 10 gives its lines.
#[tactic(auto, using(crate::proofs::Apart::lines_are_apart, crate::proofs::Apart::lines_are_split))]
pub fn lines_are_apart()
    ensures bytes { LinesAreApart }
    ensures split { LinesAreSplit }
{}

/// The text of a tree of whole numbers is read as the value with the same members: none is lost, none comes in, and no
/// number becomes a float.
#[tactic(auto, using(crate::proofs::TreeTexts::tree_read, crate::proofs::Kept::members_are_kept, crate::proofs::Kept::wholes_kept))]
pub fn trees_are_read_back()
    ensures values { TreesAreReadBack }
    ensures members { MembersAreKept }
    ensures numbers { NumbersStayWhole }
{}

/// The text of a tree of whole numbers tells the tree.
#[tactic(auto, using(crate::proofs::TreeTexts::tree_told))]
pub fn texts_tell_trees()
    ensures { TextsTellTrees }
{}

/// Of each object of an outcome the reading of jobs reads the text as the value with the same members; it has no float,
/// and nests at most 6 deep.
#[tactic(auto, using(crate::proofs::ReadBack::objects_are_read_back))]
pub fn objects_are_read_back()
    ensures { ObjectsAreReadBack }
{}

/// In every outcome of a history a view has the level that its request names, components were asked for, and each step
/// is by one of the workers.
pub fn histories_fit()
    ensures { HistoriesFit }
{}

/// Two fitting outcomes of equal lines have equal orders, equal requests, working variants and replies at each place,
/// equal counts of workers and listeners, equal live names and views, and each listener heard the same.
pub fn outcomes_are_told()
    ensures { OutcomesAreTold }
{}
