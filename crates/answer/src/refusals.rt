// The refusals of requests, in their order: each check hands on its request, or its refusal is returned.
ghost use Rattle.std.specs.Prelude.{◌≡◌, false};
ghost use Rattle.request.specs.Asked.{Asked};
ghost use Rattle.request.specs.Reading.{Means};
ghost use Rattle.answer.specs.Refusals.{offers, IsTooLarge, FirstRefusal};
ghost use Rattle.schema.specs.Verdict.{HasTooMany};
ghost use Rattle.answer.specs.Checks.{Passes, Decides};

use crate::LENT;
use crate::rules::read_into;
use request::answers::Refusal;
use request::reading::Request;
use schema::reading::NoRules;

// Which kinds of request are answered. A set of kinds in an array would be no plainer: here each kind has its name, and none can be left out.
#[derive(Clone, Copy, Debug, PartialEq, Eq)]
pub struct Offered {
    pub check: bool,
    pub find: bool,
    pub fit: bool,
}

pub const MOST_STEPS: u64 = 32;

pub use cbor::TOO_MANY_BYTES;

fn if_offered(request: Request<'_>, offered: Offered) -> Option<Request<'_>>
    ensures { Passes (λ a. offers offered a ≡ false) request.entry result }
{
    let is_offered = match request {
        Request::Check(_) => offered.check,
        Request::Find(_, _) => offered.find,
        Request::Fit(_, _, _) => offered.fit,
    };
    is_offered.then_some(request)
}

fn too_many_parts(rules: &[u8], lent: &mut [u64; LENT]) -> bool
    ensures { Decides result (HasTooMany rules.now) }
{
    matches!(read_into(rules, lent), Err(NoRules::TooLarge))
}

fn if_within_limits<'a>(request: Request<'a>, lent: &mut [u64; LENT]) -> Option<Request<'a>>
    ensures { Passes IsTooLarge request.entry result }
{
    let too_large = match request {
        Request::Check(item) => item.len() >= TOO_MANY_BYTES,
        Request::Find(path, item) => path.count > MOST_STEPS || item.len() >= TOO_MANY_BYTES,
        Request::Fit(rules, _, item) => too_many_parts(rules, lent) || item.len() >= TOO_MANY_BYTES,
    };
    (!too_large).then_some(request)
}

// The first refusal that applies to a request, where these kinds are offered.
pub(crate) fn first_refusal(
    request: Request<'_>,
    offered: Offered,
    lent: &mut [u64; LENT],
) -> Option<Refusal>
    ensures { (a : Asked) → Means request.entry a → FirstRefusal offered a result }
{
    let Some(request) = if_offered(request, offered) else {
        return Some(Refusal::NotOffered);
    };
    let Some(_) = if_within_limits(request, lent) else {
        return Some(Refusal::TooLarge);
    };
    None
}
