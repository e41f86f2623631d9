//! Small boards as the rules judge them. Each function does nothing: its contract is the statement.

ghost use Rattle.std.specs.Prelude.{[], ◌∷◌, codes};
ghost use Rattle.judge.specs.Boards.{Judged, ThreeBoards};

/// Of `.X.X.` black keeps both stones, of `.X..X.` none, of `.X. / X.X / .X.` all four; white has none in any.
pub fn three_boards()
    ensures { ThreeBoards (1 ∷ 3 ∷ []) [] (1 ∷ 3 ∷ 5 ∷ 7 ∷ []) }
{
    two_stones();
    far_stones();
    diamond();
}

fn two_stones()
    ensures { Judged 5 1 (codes ".X.X.") (1 ∷ 3 ∷ []) }
{}

fn far_stones()
    ensures { Judged 6 1 (codes ".X..X.") [] }
{}

fn diamond()
    ensures { Judged 3 3 (codes ".X.X.X.X.") (1 ∷ 3 ∷ 5 ∷ 7 ∷ []) }
{}
