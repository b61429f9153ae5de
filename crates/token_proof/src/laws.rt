// What holds of all programs that are spelled.

ghost use Rattle.token_proof.specs.Laws.{TokensPay, SpelledHasOperands};

/// A law, with nothing to run: the tokens that spell a program are at least as many as the bound on its
/// code counts, for its functions, their parameters, and the declarations, statements and nodes of
/// expressions in their bodies.
pub fn tokens_pay()
    ensures { TokensPay }
{}

/// A law, with nothing to run: in a program that tokens spell, each chain of operators, `&&` and `||` has
/// an operand behind its first one, and each form with suffixes has a suffix.
pub fn spelled_has_operands()
    ensures { SpelledHasOperands }
{}
