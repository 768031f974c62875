//! What is sent of radar blocks.
ghost use Rattle.std.specs.Prelude.{◌≡◌, ◌<◌, ◌≤◌, ◌+◌, ◌^◌, ◌∷◌, [], length, flat_map, IfOk};
ghost use Rattle.std.specs.List.{All};
ghost use Rattle.life_table.specs.LifeTable.{radar};
ghost use Rattle.radar_core.specs.Keys.{FitsKey, first_high};
ghost use Rattle.radar_core.specs.Runs.{run_record};
ghost use Rattle.radar_core.specs.Blanks.{IsGroup, blank_record};
ghost use Rattle.radar_core.specs.Laws.{IsOneRecord};
ghost use Rattle.ground_core.specs.Update.{block_key, radar_weather, group_weather};
ghost use Rattle.ground_core.specs.Putting.{IsItemOf, AreItemsFrom, IsUncut, AreWhole, values_of};

use crate::area::Area;
use crate::item::SentItem;
use crate::item_keys::{BlockNumbers, ItemKeys};
use crate::validity::Validity;
use fisb_wire::Bytes;
use radar_core::{BlockKey, Cells, Groups, write_blank, write_runs};
use segment_core::part_count;
use std::alloc::{AllocError, Global};
use std::rc::Rc;

/// A radar record as an item: it is sent whole.
fn whole_item(
    serial: u64,
    product: u16,
    validity: &Validity,
    keys: ItemKeys,
    payload: Bytes,
) -> SentItem
    requires product { product < 2048 }
    requires short { length payload ≤ 131 }
    ensures serial { result.serial ≡ serial }
    ensures product { result.product ≡ product }
    ensures version { result.version ≡ validity.now.version }
    ensures form { result.form ≡ validity.now.form }
    ensures until { result.until ≡ validity.now.version + validity.now.life }
    ensures keys { result.keys ≡ keys }
    ensures payload { result.payload ≡ payload }
    ensures whole { result.file ≡ 0 }
{
    let count = part_count(validity.form, payload.len());
    SentItem {
        serial,
        keys,
        version: validity.version,
        until: validity.version.seconds() + validity.life,
        product,
        form: validity.form,
        file: 0,
        count,
        payload,
    }
}

/// The run record of a block.
fn run_payload(alloc: Global, key: &BlockKey, cells: &Cells) -> Result<Bytes, AllocError>
    requires { FitsKey key.now }
    ensures record { IfOk result (λ bytes. bytes ≡ run_record key.now cells.now) }
    ensures short { IfOk result (λ bytes. length bytes ≤ 131) }
{
    let mut room = [0; 131];
    let size = write_runs(key, cells, &mut room);
    let (record, _) = room.split_at(size);
    Ok(Bytes::of(Vec::from_slice(alloc, record)?))
}

/// The empty record of a group of blocks.
fn blank_payload(alloc: Global, base: &BlockKey, further: &[u32]) -> Result<Bytes, AllocError>
    requires scale { base.now.scale ≤ 2 }
    requires number { base.now.number < first_high }
    requires group { IsGroup base.now.number further.now }
    ensures record { IfOk result (λ bytes. bytes ≡ blank_record base.now further.now) }
    ensures short { IfOk result (λ bytes. length bytes ≤ 131) }
{
    let mut room = [0; 18];
    let size = write_blank(base, further, &mut room);
    let (record, _) = room.split_at(size);
    Ok(Bytes::of(Vec::from_slice(alloc, record)?))
}

/// The item of a block with its cells.
pub(crate) fn block_item(
    alloc: Global,
    serial: u64,
    validity: &Validity,
    key: &BlockKey,
    cells: &Cells,
) -> Result<SentItem, AllocError>
    requires key { FitsKey key.now }
    requires product { key.now.product < 2048 }
    ensures whole { IfOk result IsUncut }
    ensures item { IfOk result (λ item. IsItemOf (radar_weather key.now.product validity.now.version
        (radar key.now.product validity.now.life validity.now.form)
        ((key.now, cells.now) ∷ []) (run_record key.now cells.now)) serial 0 item) }
{
    let area = Area {
        product: key.product,
        scale: key.scale,
        south: key.south,
    };
    let numbers = [key.number];
    let blocks = BlockNumbers::new(alloc, area, &numbers)?;
    let payload = run_payload(alloc, key, cells)?;
    Ok(whole_item(
        serial,
        key.product,
        validity,
        ItemKeys::OfBlocks(blocks),
        payload,
    ))
}

/// The item of a group of empty blocks.
fn group_item(
    alloc: Global,
    serial: u64,
    validity: &Validity,
    area: Area,
    group: &[u32],
) -> Result<SentItem, AllocError>
    requires scale { area.scale ≤ 2 }
    requires product { area.product < 2048 }
    requires group { IsOneRecord group.now }
    ensures whole { IfOk result IsUncut }
    ensures item { IfOk result (λ item. AreItemsFrom serial
        (group_weather validity.now.version
        (radar area.product validity.now.life validity.now.form)
        (block_key area.product area.scale area.south) group.now) (item ∷ [])) }
{
    let [base, further @ ..] = group else {
        return Err(AllocError);
    };
    let blocks = BlockNumbers::new(alloc, area, group)?;
    let payload = blank_payload(alloc, &area.key_of(*base), further)?;
    Ok(whole_item(
        serial,
        area.product,
        validity,
        ItemKeys::OfBlocks(blocks),
        payload,
    ))
}

/// The items of groups of empty blocks, with serials from one on.
pub(crate) fn group_items(
    alloc: Global,
    first: u64,
    validity: &Validity,
    area: Area,
    groups: &Groups,
) -> Result<Vec<Rc<SentItem>>, AllocError>
    requires scale { area.scale ≤ 2 }
    requires product { area.product < 2048 }
    requires groups { All IsOneRecord groups.now }
    requires serials { first + length groups.now < 2 ^ 64 }
    ensures whole { IfOk result (λ items. AreWhole (values_of items.items)) }
    ensures items { IfOk result (λ items. AreItemsFrom first
        (flat_map (group_weather validity.now.version
        (radar area.product validity.now.life validity.now.form)
        (block_key area.product area.scale area.south)) groups.now) (values_of items.items)) }
{
    let mut items = Vec::new(alloc);
    for place in 0..groups.len() {
        let item = group_item(
            alloc,
            first + place as u64,
            validity,
            area,
            groups.at(place),
        )?;
        items.push(Rc::new(alloc, item)?)?;
    }
    Ok(items)
}
