//! The limits of requests, in the form that the laws require.
ghost use Rattle.std.specs.List.{All};
ghost use Rattle.transactions.specs.Requests.{IsRequest};

use requests::request::Requests;

/// Each request is within its limits.
pub(crate) fn requests_within(requests: &Requests)
    ensures { All IsRequest requests.now }
{
    requests.are_within();
}
