// The masks in force, and the colour and alpha that they make of a stored number.
ghost use Rattle.std.specs.Prelude.{◌≡◌, ◌≤◌};
ghost use Rattle.pixel.specs.Masks.{mask_width};
ghost use Rattle.pixel.specs.Widen.{Widens};
ghost use Rattle.sample.specs.Colour.{Channel, Sampled, channel8 as channel8_of, byte_masks, rgb_masks, masks_in, alpha_of, masked as masked_of};

use dib::{Header, Masks};

// The masks of a byte for each channel: those of BI_RGB's 24 and 32 bits.
pub fn byte_masks(alpha: u32) -> Masks
    ensures { result ≡ byte_masks alpha }
{
    Masks {
        red: 0xFF0000,
        green: 0xFF00,
        blue: 0xFF,
        alpha,
    }
}

// The masks of BI_RGB.
fn rgb_masks(bits: u32, format1: bool) -> Masks
    ensures { result ≡ rgb_masks bits format1 }
{
    let alpha = if format1 && bits == 32 { 0xFF000000 } else { 0 };
    if bits == 16 {
        Masks {
            red: 0x7C00,
            green: 0x03E0,
            blue: 0x001F,
            alpha,
        }
    } else {
        byte_masks(alpha)
    }
}

// The masks in force: under BI_BITFIELDS the header's own.
pub fn masks(h: Header, format1: bool) -> Masks
    ensures { result ≡ masks_in h format1 }
{
    if h.compression == 3 {
        return h.masks;
    }
    rgb_masks(h.bits, format1)
}

// The channel of a mask, widened.
fn channel8(t: &[u8; 510], mask: u32, n: u32) -> u8
    requires channel { Channel mask }
    requires widens { Widens t.now }
    ensures { result ≡ channel8_of mask n }
{
    let w = pixel::masks::width(mask);
    let v = pixel::masks::channel(w, pixel::masks::shift(mask), n);
    pixel::widen::widen(t, w as usize, v as usize)
}

#[tactic(auto, unfolding(crate::specs::Colour::alpha_of))]
fn alpha(t: &[u8; 510], mask: u32, n: u32) -> u8
    requires narrow { mask_width mask ≤ 8 }
    requires widens { Widens t.now }
    ensures { result ≡ alpha_of mask n }
{
    if mask == 0 {
        return 255;
    }
    channel8(t, mask, n)
}

// The pixel that masks make of a stored number.
#[tactic(auto, unfolding(crate::specs::Colour::masked))]
pub fn masked(t: &[u8; 510], m: Masks, n: u32) -> u32
    requires sampled { Sampled m }
    requires widens { Widens t.now }
    ensures { result ≡ masked_of m n }
{
    let a = alpha(t, m.alpha, n);
    let r = channel8(t, m.red, n);
    let g = channel8(t, m.green, n);
    let b = channel8(t, m.blue, n);
    pixel::blend::join(a, r, g, b)
}
