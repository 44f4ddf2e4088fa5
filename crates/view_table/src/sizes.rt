//! How many of a view's members may be corrupt, and how many make a quorum (docs/PROTOCOL.md, «Views»). That two
//! quorums of one view share more members than may be corrupt is the law `quorums_meet` of `safety_laws`.
ghost use Rattle.std.specs.Prelude.{◌≡◌, ◌≤◌, ◌<◌};
ghost use Rattle.group_defs.specs.Views as views;

/// How many of n members may be corrupt: f = floor((n - 1) / 3), 0 to 5.
pub fn faulty(n: usize) -> usize
    requires { (1 ≤ n) × (n ≤ 16) }
    ensures value { result ≡ views.faulty n }
    ensures below { result < n }
{
    (n - 1) / 3
}

/// How many of n members make a quorum: Q = n - f = ceil((2n + 1) / 3), 1 to 11.
pub fn quorum(n: usize) -> usize
    requires { (1 ≤ n) × (n ≤ 16) }
    ensures value { result ≡ views.quorum n }
    ensures within { (1 ≤ result) × (result ≤ n) }
{
    n - faulty(n)
}
