// XformSrc as six floats.
ghost use Rattle.std.specs.Prelude.{◌≡◌, ◌≤◌};
ghost use Rattle.emr.specs.Transform.{float32, transform_of, is_identity};

use crate::Transform;

const IDENTITY: Transform = Transform {
    m11: 1.0,
    m12: 0.0,
    m21: 0.0,
    m22: 1.0,
    dx: 0.0,
    dy: 0.0,
};

// A NaN's pattern is no float's bits to `from_bits`, so a NaN is made by a division.
fn float(s: &[u8], at: usize) -> f32
    ensures { result ≡ float32 s.now at }
{
    let x = words::read::<4>(s, at);
    if 0x7F800000 < x % 0x80000000 {
        0.0 / 0.0
    } else {
        f32::from_bits(x)
    }
}

pub fn read(s: &[u8], at: usize) -> Transform
    requires { at ≤ 128 }
    ensures { result ≡ transform_of s.now at }
{
    let m11 = float(s, at);
    let m12 = float(s, at + 4);
    let m21 = float(s, at + 8);
    let m22 = float(s, at + 12);
    let dx = float(s, at + 16);
    let dy = float(s, at + 20);
    Transform {
        m11,
        m12,
        m21,
        m22,
        dx,
        dy,
    }
}

pub fn is_identity(x: Transform) -> bool
    ensures { result ≡ is_identity x }
{
    x == IDENTITY
}
