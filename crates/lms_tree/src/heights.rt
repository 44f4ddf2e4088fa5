// The heights of RFC 8554, section 5.1:
//
// | Typecode | 5 | 6 | 7 | 8 | 9 |
// |---|---|---|---|---|---|
// | h | 5 | 10 | 15 | 20 | 25 |
ghost use Rattle.std.specs.Prelude.{◌≡◌, ◌≤◌, ◌↔◌, Some, IfSome, IsNone};
ghost use Rattle.signature_defs.specs.Lms.{lms_height_of};
ghost use Rattle.lms_tree.specs.Tree.{IsTooTall};

/// The height of a tree's typecode, 5, 10, 15, 20 or 25; None exactly where it is not 5 to 9 (RFC 8554, section 5.1).
pub fn lms_height_of(typecode: u32) -> Option<usize>
    ensures value { result ≡ lms_height_of typecode }
    ensures bound { IfSome result (λ h. h ≤ 25) }
{
    match typecode {
        5 => Some(5),
        6 => Some(10),
        7 => Some(15),
        8 => Some(20),
        9 => Some(25),
        _ => None,
    }
}

// The height of a typecode whose tree is built.
pub(crate) fn built_height_of(typecode: u32) -> Option<usize>
    ensures value { IfSome result (λ h. lms_height_of typecode ≡ Some h) }
    ensures bound { IfSome result (λ h. h ≤ 15) }
    ensures none { IsNone result ↔ IsTooTall typecode }
{
    match typecode {
        5 => Some(5),
        6 => Some(10),
        7 => Some(15),
        _ => None,
    }
}
