// Laws, with nothing to run.

ghost use Rattle.std.specs.Prelude.{◌≡◌, ℕ, List};
ghost use Rattle.cyc_lexer.specs.Lexing.{Token, AreTokens};
ghost use Rattle.cyc_format.specs.Layout.{spellings, kinds};

/// A law: tokens of two texts that are spelled alike are of the same kinds. So a text and its layout have the same tokens but for where they stand.
pub fn kinds_are_spelled()
    ensures { (text out : List ℕ) (tokens others : List Token) → AreTokens text tokens → AreTokens out others → spellings tokens ≡ spellings others
        → kinds tokens ≡ kinds others }
{}
