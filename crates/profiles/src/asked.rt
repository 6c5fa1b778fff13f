//! Which requests of a batch are to declare what they touch.
ghost use Rattle.std.specs.Prelude.{◌≡◌};
ghost use Rattle.profiles.specs.Told.{is_delivery};

use requests::request::Request;

/// All requests of a batch, or only the deliveries.
#[derive(Clone, Copy)]
pub(crate) enum Asked {
    All,
    Deliveries,
}

impl Asked {
    pub fn has(self, request: &Request) -> bool {
        match self {
            Asked::All => true,
            Asked::Deliveries => is_delivery(request),
        }
    }
}

pub(crate) fn is_delivery(request: &Request) -> bool
    ensures { result ≡ is_delivery request.now }
{
    matches!(request, Request::Delivery(_))
}
