//! The text, cut into tokens.
ghost use Rattle.std.specs.Prelude.{◌≤◌, length, IfOk, IsOkUnless};
ghost use Rattle.do_lex.specs.Limits.{most_script_bytes};
ghost use Rattle.do_parse.specs.Cuts.{IsLexed};

use crate::stop::Stop;
use do_lex::{LexFault, Token, Tokens};
use std::alloc::Global;

/// The tokens of a text, and what is behind the last of them: the end, or a fault.
#[derive(Drop)]
pub(crate) struct Lexed<'a> {
    pub(crate) tokens: Vec<Token<'a>>,
    pub(crate) fault: Option<LexFault>,
}

/// Cuts a text into tokens.
pub(crate) fn cut<'a>(alloc: Global, text: &'a [u8]) -> Result<Lexed<'a>, Stop>
    requires { length text.now ≤ most_script_bytes }
    ensures lexed { IfOk result (λ lexed. IsLexed text.now lexed.tokens.items lexed.fault) }
    ensures memory { IsOkUnless result Stop.NoMemory }
{
    let mut tokens = Vec::new(alloc);
    let mut reader = Tokens::new(text);
    'reading: loop {
        match reader.next() {
            Ok(Some(token)) => {
                tokens.push(token)?;
            }
            Ok(None) => {
                return Ok(Lexed {
                    tokens,
                    fault: None,
                });
            }
            Err(fault) => {
                return Ok(Lexed {
                    tokens,
                    fault: Some(fault),
                });
            }
        }
    }
}
