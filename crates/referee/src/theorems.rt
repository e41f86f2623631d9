//! What is proved of every record. Each function does nothing: its contract is the theorem.

ghost use Rattle.referee.specs.Statements.{RecordAnswered, RecordUnique, RecordStands, RecordCut, NoStoneRestores, FewPasses, TwoPointKo};

/// Every record on a board that can stand has an answer and a last board.
pub fn record_answered()
    ensures { RecordAnswered }
{}

/// No record has a second answer or a second last board.
pub fn record_unique()
    ensures { RecordUnique }
{}

/// Whatever is played, the board that is left can stand.
pub fn record_stands()
    ensures { RecordStands }
{}

/// A record that is refused at a move is accepted when it is cut before that move, with the same board, passes and taken stones.
pub fn record_cut()
    ensures { RecordCut }
{}

/// In an accepted record no stone brings back the board before the stone just played.
pub fn no_stone_restores()
    ensures { NoStoneRestores }
{}

/// However many passes a record holds, none, one or two stand at the end of what is allowed.
pub fn few_passes()
    ensures { FewPasses }
{}

/// The smallest ko, on two points: Black plays, White takes the stone, and Black may not take back.
pub fn two_point_ko()
    ensures { TwoPointKo }
{}
