ghost use Rattle.std.specs.Prelude.{◌≡◌};
ghost use Rattle.pad_edge.specs.Link.{is_failed};

use pad_edge::LinkRefused;

/// Whether a call failed outside: it did not only want memory.
pub(crate) fn has_failed<T>(answer: &Result<T, LinkRefused>) -> bool
    ensures { result ≡ is_failed answer.now }
{
    matches!(answer, Err(LinkRefused::Failed))
}
