//! Masks of rights within others.
ghost use Rattle.std.specs.Prelude.{◌≡◌};
ghost use Rattle.scheme_records.specs.Said.{within, all_within};

use model::Sight;

/// Whether every right of one mask is in another.
pub fn is_within(mask: u16, whole: u16) -> bool
    ensures { result ≡ within mask whole }
{
    whole | mask == whole
}

/// Whether every right of four masks is in four others.
pub fn are_within(masks: Sight, wholes: Sight) -> bool
    ensures { result ≡ all_within masks wholes }
{
    is_within(masks.xx, wholes.xx)
        && is_within(masks.xy, wholes.xy)
        && is_within(masks.yx, wholes.yx)
        && is_within(masks.yy, wholes.yy)
}
