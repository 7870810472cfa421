//! What is so of all views, as what functions without a body ensure.

ghost use Rattle.gx_board.specs.Laws.{ViewsAreHis};

/// Each account and each use of a limit in a view names an account that is the viewer's, and each denial and each command
/// concerns one that is his, or none. Each user in it is he himself, or trades for an account that is his.
pub fn views_are_his()
    ensures { ViewsAreHis }
{}
