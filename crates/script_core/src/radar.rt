//! The lines of radar: the cells of a block, and blocks of intensity 0.
ghost use Rattle.std.specs.Prelude.{◌≡◌, IfOk, MatchOption, None, Some, option_copied, option_map};
ghost use Rattle.script_core.specs.Fields.{fields_left, head_in, radar_head, radar_line};
ghost use Rattle.script_core.specs.Fields.{blank_line};
ghost use Rattle.script_core.specs.LineView.{line_view};

use crate::fields::{
    next_field, read_block_number, read_cells, read_moment, read_number, read_numbers, read_south,
};
use crate::script_line::{Line, LineFault};
use fisb_time::Moment;
use radar_core::BlockKey;
use std::alloc::Global;

/// The greatest number of a product, and of the scale of a block.
const LAST_PRODUCT: u64 = 2_047;

const LAST_SCALE: u64 = 3;

/// What the lines of radar begin with.
#[derive(Clone, Copy)]
pub(crate) struct RadarHead {
    moment: Moment,
    version: Moment,
    product: u16,
    scale: u8,
    south: bool,
}

/// `radar MOMENT VERSION PRODUCT SCALE HEMI NUMBER CELLS`
pub(crate) fn read_radar(rest: Option<&[u8]>) -> Option<Line>
    ensures { option_map line_view result
        ≡ radar_line (fields_left (option_copied rest.entry)) }
{
    let Some((head, rest)) = read_head(rest) else {
        return None;
    };
    let Some((number, rest)) = next_field(rest) else {
        return None;
    };
    let Some((digits, rest)) = next_field(rest) else {
        return None;
    };
    let None = next_field(rest) else {
        return None;
    };
    let Some(number) = read_block_number(number) else {
        return None;
    };
    let Some(cells) = read_cells(digits) else {
        return None;
    };
    Some(Line::Radar {
        moment: head.moment,
        version: head.version,
        key: BlockKey {
            product: head.product,
            scale: head.scale,
            south: head.south,
            number,
        },
        cells,
    })
}

/// `blank MOMENT VERSION PRODUCT SCALE HEMI NUMBERS`
pub(crate) fn read_blank(alloc: Global, rest: Option<&[u8]>) -> Result<Line, LineFault>
    ensures line { IfOk result (λ read.
        blank_line (fields_left (option_copied rest.entry)) ≡ Some (line_view read)) }
    ensures syntax { result ≡ Err LineFault.Syntax →
        blank_line (fields_left (option_copied rest.entry)) ≡ None }
{
    let Some((head, rest)) = read_head(rest) else {
        return Err(LineFault::Syntax);
    };
    let Some((numbers, rest)) = next_field(rest) else {
        return Err(LineFault::Syntax);
    };
    let None = next_field(rest) else {
        return Err(LineFault::Syntax);
    };
    match read_numbers(alloc, numbers) {
        Ok(numbers) => Ok(Line::Blank {
            moment: head.moment,
            version: head.version,
            product: head.product,
            scale: head.scale,
            south: head.south,
            numbers,
        }),
        Err(fault) => Err(fault),
    }
}

/// MOMENT VERSION PRODUCT SCALE HEMI, and what is left after them.
fn read_head(rest: Option<&[u8]>) -> Option<(RadarHead, Option<&[u8]>)>
    ensures { MatchOption result
        (radar_head (fields_left (option_copied rest.entry)) ≡ None)
        (λ front. radar_head (fields_left (option_copied rest.entry))
        ≡ Some (front.0, fields_left (option_copied front.1))) }
{
    let Some((moment, rest)) = next_field(rest) else {
        return None;
    };
    let Some((version, rest)) = next_field(rest) else {
        return None;
    };
    let Some((product, rest)) = next_field(rest) else {
        return None;
    };
    let Some((scale, rest)) = next_field(rest) else {
        return None;
    };
    let Some((hemisphere, rest)) = next_field(rest) else {
        return None;
    };
    match head_of(moment, version, product, scale, hemisphere) {
        Some(head) => Some((head, rest)),
        None => None,
    }
}

/// What these five fields say.
fn head_of(
    moment: &[u8],
    version: &[u8],
    product: &[u8],
    scale: &[u8],
    hemisphere: &[u8],
) -> Option<RadarHead>
    ensures { result ≡ head_in moment.now version.now product.now scale.now hemisphere.now }
{
    let Some(moment) = read_moment(moment) else {
        return None;
    };
    let Some(version) = read_moment(version) else {
        return None;
    };
    let Some(product) = read_number(product, 0, LAST_PRODUCT) else {
        return None;
    };
    let Some(scale) = read_number(scale, 0, LAST_SCALE) else {
        return None;
    };
    let Some(south) = read_south(hemisphere) else {
        return None;
    };
    Some(RadarHead {
        moment,
        version,
        product: product as u16,
        scale: scale as u8,
        south,
    })
}
