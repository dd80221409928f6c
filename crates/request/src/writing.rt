// Requests written into lent bytes.
ghost use Rattle.std.specs.Prelude.{◌≡◌};
ghost use Rattle.cbor.specs.Writing.{Writes};
ghost use Rattle.sequence.specs.Token.{spell};
ghost use Rattle.sequence.specs.Writing.{SizeOf};
ghost use Rattle.request.specs.Asked.{Asked, step_tokens, write};
ghost use Rattle.request.specs.Reading.{Means, step_of};
ghost use Rattle.request.specs.Writing.{find_bytes, request_bytes};

use crate::reading::{Kind, Path, Request, Step, StepKind};
use cbor::reading::bytes_end;
use cbor::writing::write_bytes;
use sequence::writing::{Token, tokens_size, write_token, write_tokens};

// A step at a place, or None and nothing changed where there is no room for it: a path is written step by step.
pub fn write_step(out: &mut [u8], at: usize, step: Step<'_>) -> Option<usize>
    ensures { Writes out.old at (spell (step_tokens (step_of step.entry))) out.new result }
{
    match step {
        Step::Index(index) => write_tokens(
            out,
            at,
            &[Token::Number(StepKind::Index as u64), Token::Number(index)],
        ),
        Step::Key(key) => write_tokens(
            out,
            at,
            &[Token::Number(StepKind::Key as u64), Token::Bytes(key)],
        ),
        Step::Content => write_tokens(out, at, &[Token::Number(StepKind::Content as u64)]),
    }
}

fn find_size(path: Path<'_>, item: &[u8]) -> Option<usize>
    ensures { SizeOf (find_bytes path.entry item.now) result }
{
    tokens_size(&[
        Token::Number(Kind::Find as u64),
        Token::Number(path.count),
        Token::Bytes(item),
    ])?
    .checked_add(path.steps.len())
}

fn write_find(out: &mut [u8], at: usize, path: Path<'_>, item: &[u8]) -> Option<usize>
    ensures { Writes out.old at (find_bytes path.entry item.now) out.new result }
{
    let size = find_size(path, item)?;
    bytes_end(out, at, size as u64)?;
    let count = write_token(out, at, Token::Number(Kind::Find as u64))?;
    let steps = write_token(out, count, Token::Number(path.count))?;
    let rest = write_bytes(out, steps, path.steps)?;
    write_token(out, rest, Token::Bytes(item))
}

// A request at a place, or None and nothing changed where there is no room for it.
pub fn write_request(out: &mut [u8], at: usize, request: Request<'_>) -> Option<usize>
    ensures bytes { Writes out.old at (request_bytes request.entry) out.new result }
    ensures meaning { (a : Asked) → Means request.entry a → request_bytes request.entry ≡ write a }
{
    match request {
        Request::Check(item) => write_tokens(
            out,
            at,
            &[Token::Number(Kind::Check as u64), Token::Bytes(item)],
        ),
        Request::Find(path, item) => write_find(out, at, path, item),
        Request::Fit(rules, which, item) => write_tokens(
            out,
            at,
            &[
                Token::Number(Kind::Fit as u64),
                Token::Bytes(rules),
                Token::Number(which),
                Token::Bytes(item),
            ],
        ),
    }
}
