//! Statuses of gateways.
ghost use Rattle.std.specs.Prelude.{◌≡◌};
ghost use Rattle.node_rules.specs.Arrivals.{is_gateway_fault as is_gateways};

/// Whether a status says that the fetch of the peer itself failed: 502, 503 or 504 (RFC 9110,
/// sections 15.6.3 to 15.6.5).
pub fn is_gateway_fault(status: u16) -> bool
    ensures { result ≡ is_gateways status }
{
    [502, 503, 504].contains(&status)
}
