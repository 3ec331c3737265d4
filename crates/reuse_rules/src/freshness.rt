ghost use Rattle.std.specs.Prelude.{◌≡◌};
ghost use Rattle.reuse_rules.specs.Freshness.{is_fresh as is_younger};

/// Whether a copy is fresh (RFC 9111, section 4.2): whether its age is less than its lifetime. The
/// age now is the `age` that came with the response plus the seconds from `asked`, the moment of
/// the request, to `now`.
///
/// All are in seconds. A `now` before `asked` counts as `asked`. An age over `u64::MAX` counts as
/// `u64::MAX`, which is not fresh with any lifetime. It does not allocate.
pub fn is_fresh(age: u64, asked: u64, now: u64, lifetime: u64) -> bool
    ensures { result ≡ is_younger age asked now lifetime }
{
    age.saturating_add(now.saturating_sub(asked)) < lifetime
}
