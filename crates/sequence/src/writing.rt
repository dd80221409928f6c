// Tokens written into lent bytes. The place stands beside the bytes, in each crate that writes: two functions alone write more than two things one after the other, and in each
// other one a writer that moves on would be made and taken apart.
ghost use Rattle.std.specs.Prelude.{◌≡◌};
ghost use Rattle.cbor.specs.Writing.{Writes};
ghost use Rattle.sequence.specs.Token.{token_bytes, spell};
ghost use Rattle.sequence.specs.Writing.{SizeOf, token_of, tokens_of};

use cbor::Major;
use cbor::reading::bytes_end;
use cbor::writing::{head_size, write_bytes, write_head};

#[derive(Clone, Copy, Debug, PartialEq, Eq)]
pub enum Token<'a> {
    Number(u64),
    Bytes(&'a [u8]),
}

// How many bytes a token has; None if that passes what can be counted.
fn token_size(token: Token<'_>) -> Option<usize>
    ensures { SizeOf (token_bytes (token_of token.entry)) result }
{
    match token {
        Token::Number(value) => Some(head_size(value)),
        Token::Bytes(content) => head_size(content.len() as u64).checked_add(content.len()),
    }
}

// How many bytes some tokens have; None if that passes what can be counted.
pub fn tokens_size(tokens: &[Token<'_>]) -> Option<usize>
    ensures { SizeOf (spell (tokens_of tokens.now)) result }
{
    let mut size = 0usize;
    for token in tokens {
        size = size.checked_add(token_size(*token)?)?;
    }
    Some(size)
}

// A token at a place, or None and nothing changed where there is no room for it.
pub fn write_token(out: &mut [u8], at: usize, token: Token<'_>) -> Option<usize>
    ensures { Writes out.old at (token_bytes (token_of token.entry)) out.new result }
{
    match token {
        Token::Number(value) => write_head(out, at, Major::Unsigned, value),
        Token::Bytes(content) => {
            let size = token_size(token)?;
            bytes_end(out, at, size as u64)?;
            let next = write_head(out, at, Major::Bytes, content.len() as u64)?;
            write_bytes(out, next, content)
        }
    }
}

// Tokens one after the other from a place on, or None and nothing changed where there is no room for all of them.
pub fn write_tokens(out: &mut [u8], at: usize, tokens: &[Token<'_>]) -> Option<usize>
    ensures { Writes out.old at (spell (tokens_of tokens.now)) out.new result }
{
    let size = tokens_size(tokens)?;
    bytes_end(out, at, size as u64)?;
    let mut next = at;
    for token in tokens {
        next = write_token(out, next, *token)?;
    }
    Some(next)
}
