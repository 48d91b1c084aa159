//! Laws of the definitions: each is the contract of a function that does nothing.

ghost use Rattle.serve_loop.specs.Laws.{OutputsMayGo};

/// All outputs may go out, and no send fail.
pub fn outputs_may_go()
    ensures { OutputsMayGo }
{}
