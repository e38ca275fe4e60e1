ghost use Rattle.problem.specs.Forms.{fix_in, mirror_in, named_order, named_space, order_in, size_in, space_in, switch};
ghost use Rattle.std.specs.Prelude.{◌≡◌};

use choices::AnyOrder;
use planes::MirrorKind;
use words::{Words, value_of};

// What a line `box W H P DX DY` says.
#[derive(Clone, Copy)]
pub(crate) struct Size {
    pub width: u32,
    pub height: u32,
    pub period: u32,
    pub dx: i32,
    pub dy: i32,
}

// What a line `fix X Y T V` says.
#[derive(Clone, Copy)]
pub(crate) struct Fixing {
    pub x: u32,
    pub y: u32,
    pub t: u32,
    pub on: bool,
}

// Which plane a line `space S` names.
#[derive(Clone, Copy)]
pub(crate) enum Named {
    Plain,
    Torus,
    Cylinder,
}

#[tactic(auto, unfolding(crate::specs::Forms::size_in))]
pub(crate) fn size_in(line: &[u8]) -> Option<Size>
    ensures { result ≡ size_in line.now }
{
    let mut words = Words::after(line, b"box")?;
    let (width, height, period) = (words.number()?, words.number()?, words.number()?);
    let (dx, dy) = (words.signed()?, words.signed()?);
    words.is_done().then_some(Size {
        width,
        height,
        period,
        dx,
        dy,
    })
}

fn named_space(name: &[u8]) -> Option<Named>
    ensures { result ≡ named_space name.now }
{
    if name == b"plain".as_slice() {
        Some(Named::Plain)
    } else if name == b"torus".as_slice() {
        Some(Named::Torus)
    } else if name == b"cylinder".as_slice() {
        Some(Named::Cylinder)
    } else {
        None
    }
}

#[tactic(auto, unfolding(crate::specs::Forms::space_in))]
pub(crate) fn space_in(line: &[u8]) -> Option<Named>
    ensures { result ≡ space_in line.now }
{
    named_space(value_of(line, b"space")?)
}

fn named_order(name: &[u8]) -> Option<AnyOrder>
    ensures { result ≡ named_order name.now }
{
    if name == b"rows".as_slice() {
        Some(AnyOrder::Rows)
    } else if name == b"columns".as_slice() {
        Some(AnyOrder::Columns)
    } else if name == b"generations".as_slice() {
        Some(AnyOrder::Generations)
    } else {
        None
    }
}

#[tactic(auto, unfolding(crate::specs::Forms::order_in))]
pub(crate) fn order_in(line: &[u8]) -> Option<AnyOrder>
    ensures { result ≡ order_in line.now }
{
    named_order(value_of(line, b"order")?)
}

#[tactic(auto, unfolding(crate::specs::Forms::mirror_in))]
pub(crate) fn mirror_in(line: &[u8]) -> Option<MirrorKind>
    ensures { result ≡ mirror_in line.now }
{
    let mut words = Words::after(line, b"mirror")?;
    let number = words.number()?;
    if number > 6 || !words.is_done() {
        return None;
    }
    // at most 6, so no bit is lost
    Some(MirrorKind::from(number as u8))
}

// Whether a cell is to be on.
fn switch(n: u32) -> Option<bool>
    ensures { result ≡ switch n }
{
    match n {
        0 => Some(false),
        1 => Some(true),
        _ => None,
    }
}

#[tactic(auto, unfolding(crate::specs::Forms::fix_in))]
pub(crate) fn fix_in(line: &[u8]) -> Option<Fixing>
    ensures { result ≡ fix_in line.now }
{
    let mut words = Words::after(line, b"fix")?;
    let (x, y, t) = (words.number()?, words.number()?, words.number()?);
    let on = switch(words.number()?)?;
    words.is_done().then_some(Fixing { x, y, t, on })
}
