// Status 12. Whether a source is present is a bool beside its extent, which the fields have without a source too, as in the definition
// `bad_signs`. A place and an extent are four numbers, as the record and `region::clipped_target` have them.
ghost use Rattle.std.specs.Prelude.{◌≡◌};
ghost use Rattle.judge.specs.Geometry.{bad_side, far as far_of, sticks_out, bad_target, bad_signs, bad_source, bad_corner};

fn bad_side(most: u32, x: u32) -> bool
    ensures { result ≡ bad_side most x }
{
    let m = words::magnitude(x);
    (m < 1) | (most < m)
}

fn far(x: u32) -> bool
    ensures { result ≡ far_of x }
{
    1000000 < words::magnitude(x)
}

fn sticks_out(x: u32, cx: u32, n: u32) -> bool
    ensures { result ≡ sticks_out x cx n }
{
    let m = words::magnitude(cx);
    let before = (x < m) | (n < x);
    let behind = (n as u64) < x as u64 + m as u64;
    words::is_negative(x)
        | if words::is_negative(cx) {
            before
        } else {
            behind
        }
}

pub fn bad_target(x: u32, y: u32, cx: u32, cy: u32) -> bool
    ensures { result ≡ bad_target x y cx cy }
{
    bad_side(4096, cx) | bad_side(4096, cy) | far(x) | far(y)
}

pub fn bad_signs(signed: bool, present: bool, cx: u32, cy: u32, sx: u32, sy: u32) -> bool
    ensures { result ≡ bad_signs signed present cx cy sx sy }
{
    let target = words::is_negative(cx) | words::is_negative(cy);
    let source = words::is_negative(sx) | words::is_negative(sy);
    !signed & (target | present & source)
}

pub fn bad_source(x: u32, y: u32, cx: u32, cy: u32, width: u32, rows: u32) -> bool
    ensures { result ≡ bad_source x y cx cy width rows }
{
    bad_side(16384, cx)
        | bad_side(16384, cy)
        | far(x)
        | far(y)
        | sticks_out(x, cx, width)
        | sticks_out(y, cy, rows)
}

pub fn bad_corner(x: u32, y: u32) -> bool
    ensures { result ≡ bad_corner x y }
{
    far(x) | far(y)
}
