ghost use Rattle.std.specs.Prelude.{◌≡◌, ◌<◌, ◌≢◌};
ghost use Rattle.vx_isa.specs.Warps.{cut, has_lane, leader};

/// Whether a lane is in a set.
#[inline]
pub fn has_lane(mask: u32, lane: u32) -> bool
    requires { lane < 32 }
    ensures { result ≡ has_lane mask lane }
{
    (mask >> lane) % 2 == 1
}

/// The least lane of a set.
pub fn leader(mask: u32) -> u32
    requires { mask ≢ 0 }
    ensures value { result ≡ leader mask }
    ensures lane { result < 32 }
{
    mask.trailing_zeros()
}

/// A set cut to the lanes below a number.
pub fn cut(lanes: u32, mask: u32) -> u32
    ensures { result ≡ cut lanes mask }
{
    if lanes < 32 {
        mask % (1 << lanes)
    } else {
        mask
    }
}
