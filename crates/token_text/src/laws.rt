ghost use Rattle.token_text.specs.Laws.{TextsTellTokensApart};

/// No two tokens that fit have one text. It does nothing.
pub fn token_laws()
    ensures apart { TextsTellTokensApart }
{}
