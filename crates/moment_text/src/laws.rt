ghost use Rattle.moment_text.specs.Laws.{LiteralsAreShaped, LiteralsAreShort, LiteralsTellMomentsApart, FrontsAreLongest, ShapesEnd, ShapedTextsHaveForms, FormsTellLengths};

use moment_core::calendar_laws;

/// The laws of moment literals: their shape and length, and how far one goes at the front of a
/// text. It does nothing.
pub fn literal_laws()
    ensures shaped { LiteralsAreShaped }
    ensures short { LiteralsAreShort }
    ensures apart { LiteralsTellMomentsApart }
    ensures longest { FrontsAreLongest }
    ensures end { ShapesEnd }
    ensures form { ShapedTextsHaveForms }
    ensures length { FormsTellLengths }
{
    calendar_laws();
}
