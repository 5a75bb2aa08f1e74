//! Laws of tokens, as public functions with empty bodies.

ghost use Rattle.determinize_linear.specs.Laws.{EachTokensAreOne};

/// An input has at most one list of tokens.
#[tactic(auto, using(crate::proofs::tokens::TokensAreOne::each_tokens_are_one))]
pub fn tokens_law()
    ensures { EachTokensAreOne }
{}
