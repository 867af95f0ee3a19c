//! The expansion of a token list.
ghost use Rattle.std.specs.Prelude.{◌≡◌, IfOk, IfErr, MatchResult, is_some};
ghost use Rattle.model_lexer.specs.Tokens as t;
ghost use Rattle.clocked.specs.Expanded.{Expands, IsRefused};
ghost use Rattle.clocked.specs.Turns.{ended};
ghost use Rattle.clocked.specs.Views.{tokens_in, expansion_in, state_in};

use super::expansion::Expansion;
use super::signs::sign_of;
use super::states::State;
use super::turns::turn;
use model_lexer::Token;
use model_tree::ParseStop;
use model_tree::logic_values_api::Items;
use std::alloc::Global;

/// Whether the tokens may end here.
fn is_outside(state: State<'_>) -> bool
    ensures { result ≡ is_some (ended (state_in state.entry)) }
{
    match state {
        State::Outside => true,
        _ => false,
    }
}

/// The tokens of the language without clocked threads that these tokens, of a text with them, become. Syntax exactly where
/// they become none, with the line of the first token that does not go on with what is before it; where more tokens are
/// missing, with that of the last.
pub fn expand<'a>(alloc: Global, tokens: &[Token<'a>]) -> Result<Expansion<'a>, ParseStop>
    ensures expanded { IfOk result (λ found. Expands (tokens_in tokens.now) (expansion_in found)) }
    ensures refused { IfErr result (IsRefused (tokens_in tokens.now)) }
    ensures only { (out : t.Tokens) → Expands (tokens_in tokens.now) out → MatchResult result (λ found. expansion_in found ≡ out) (λ e. e ≡ ParseStop.NoMemory) }
{
    let mut out = Items::new(alloc);
    let mut state = State::Language;
    let mut line = 1;
    for token in tokens {
        match turn(state, sign_of(token.kind), *token, &mut out) {
            Ok(next) => {
                state = next;
                line = token.line;
            }
            Err(stop) => return Err(stop),
        }
    }
    if is_outside(state) {
        Ok(out)
    } else {
        Err(ParseStop::Syntax { line })
    }
}
