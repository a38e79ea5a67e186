// The whole check of a record: accepted as one value, or refused with its status. Every header is read once, the type is asked for once.
#![tactic(auto)]

ghost use Rattle.std.specs.Prelude.{◌≡◌};
ghost use Rattle.words.specs.Refusal.{answer_of, numbered};
ghost use Rattle.judge.specs.Record.{header_in, picture_with, picture_in, record_with};
ghost use Rattle.judge.specs.Check.{picture_status, outside_picture, far_mask, bad_geometry, call_status, later_status, status_of, check_of, status_in};

use dib::Header;
use emr::{Fields, PictureFields, Row};
use region::Rectangle;
use words::refusal::{Refusal, lowest};

mod geometry;
mod operation;

// What is done to a pixel, decoded from the operation field: a blend by its constant alpha, a foreground and a background raster operation, or one.
#[derive(Clone, Copy)]
pub enum Action {
    Blend0(u8),
    Blend1(u8),
    Masked(u8, u8),
    Raster(u8),
}

// A picture of a record: its corner in two's complement, its header, and where its parts stand: by offset and length, as a reading hands them
// to C, and in no slice. No PictureFields in it, since their usage was judged and is not kept.
#[derive(Clone, Copy)]
pub struct Picture {
    pub x: u32,
    pub y: u32,
    pub header: Header,
    pub bmi: u32,
    pub bmi_len: u32,
    pub bits: u32,
    pub bits_len: u32,
}

// A record as one value. Signed numbers are in two's complement. The corners are there as written, of an absent picture too, of which
// document 01 says "its usage and rectangle fields are then not looked at"; a present picture has its own as well. A mask's is 0 where the
// type has no mask.
#[derive(Clone, Copy)]
pub struct Record {
    pub kind: u32,
    pub bounds: Rectangle,
    pub x: u32,
    pub y: u32,
    pub cx: u32,
    pub cy: u32,
    pub x_src: u32,
    pub y_src: u32,
    pub cx_src: u32,
    pub cy_src: u32,
    pub action: Action,
    pub source: Option<Picture>,
    pub mask: Option<Picture>,
    pub x_mask: u32,
    pub y_mask: u32,
}

// A picture with its header.
fn with_header(s: &[u8], p: PictureFields) -> Picture
    ensures { result ≡ picture_with p (header_in s.now p) }
{
    let header = dib::read(words::within(s, p.bmi as usize, p.bmi_len as usize));
    Picture {
        x: p.x,
        y: p.y,
        header,
        bmi: p.bmi,
        bmi_len: p.bmi_len,
        bits: p.bits,
        bits_len: p.bits_len,
    }
}

// The record of these fields; its headers are read, and its operation is decoded.
fn record_of(s: &[u8], kind: u32, row: Row, f: Fields) -> Record
    ensures { result ≡ record_with s.now kind row f }
{
    let form = row.form;
    let action = operation::decoded(form, f.operation);
    let bounds = f.bounds;
    let source = f.source.map(|p| with_header(s, p));
    let mask = f.mask.map(|p| with_header(s, p));
    Record {
        kind,
        bounds,
        x: f.x,
        y: f.y,
        cx: f.cx,
        cy: f.cy,
        x_src: f.x_src,
        y_src: f.y_src,
        cx_src: f.cx_src,
        cy_src: f.cy_src,
        action,
        source,
        mask,
        x_mask: f.x_mask,
        y_mask: f.y_mask,
    }
}

// 8, 9 and 10 of a picture that is present.
#[tactic(auto, unfolding(crate::specs::Check::picture_status))]
fn picture_status(picture: Option<Picture>) -> Result<(), Refusal>
    ensures { answer_of result ≡ picture_status picture }
{
    let Some(p) = picture else {
        return Ok(());
    };
    dib::status(p.bmi_len as usize, p.header, p.bits_len)
}

// 12, of a source.
fn outside_picture(source: Option<Picture>, cx: u32, cy: u32) -> bool
    ensures { result ≡ outside_picture source cx cy }
{
    source.is_some_and(|p| {
        let h = p.header;
        geometry::bad_source(p.x, p.y, cx, cy, h.width, words::magnitude(h.height))
    })
}

// 12, of a mask.
fn far_mask(mask: Option<Picture>) -> bool
    ensures { result ≡ far_mask mask }
{
    mask.is_some_and(|p| geometry::bad_corner(p.x, p.y))
}

// 12.
#[tactic(auto, unfolding(crate::specs::Check::bad_geometry))]
fn bad_geometry(signed: bool, r: Record) -> bool
    ensures { result ≡ bad_geometry signed r }
{
    geometry::bad_target(r.x, r.y, r.cx, r.cy)
        | geometry::bad_signs(signed, r.source.is_some(), r.cx, r.cy, r.cx_src, r.cy_src)
        | outside_picture(r.source, r.cx_src, r.cy_src)
        | far_mask(r.mask)
}

// 11, 12 and 13, in this order.
#[tactic(auto, unfolding(crate::specs::Check::call_status))]
fn call_status(row: Row, operation: u32, r: Record) -> Result<(), Refusal>
    ensures { answer_of result ≡ call_status row operation r }
{
    if operation::bad_operation(row.form, operation, r.action, r.source) {
        return Err(Refusal::BadOperation);
    }
    if bad_geometry(row.signed, r) {
        return Err(Refusal::BadGeometry);
    }
    if operation::bad_mask(row.at.mask != 0, r.mask) {
        return Err(Refusal::BadMask);
    }
    Ok(())
}

// 8 to 13, in this order.
#[tactic(auto, unfolding(crate::specs::Check::later_status, crate::specs::Check::dibs_status))]
fn later_status(row: Row, operation: u32, r: Record) -> Result<(), Refusal>
    ensures { answer_of result ≡ later_status row operation r }
{
    lowest(picture_status(r.source), picture_status(r.mask))?;
    call_status(row, operation, r)
}

// The first of 3 to 6, 21 and 7 to 13 that applies, or the record as one value.
#[tactic(auto, unfolding(crate::specs::Check::check_of, crate::specs::Check::status_of, crate::specs::Record::record_of))]
pub fn check(s: &[u8]) -> Result<Record, Refusal>
    ensures { numbered result ≡ check_of s.now }
{
    let kind = words::read::<4>(s, 0);
    let row = emr::types::of(kind);
    emr::status::frame(s, row.at)?;
    let f = emr::fixed::read(s, row.at);
    emr::status::parts(s, row.at, f)?;
    let r = record_of(s, kind, row, f);
    later_status(row, f.operation, r)?;
    Ok(r)
}

// The record's status as a number, as `status_of` gives it: the first of 3 to 6, 21 and 7 to 13 that applies, or 0. The program `vectors`
// prints it.
pub fn status(s: &[u8]) -> u32
    ensures { (result ≡ status_in (check_of s.now)) × (result ≡ status_of s.now) }
{
    words::refusal::status(&check(s))
}
