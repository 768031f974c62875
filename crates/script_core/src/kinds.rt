//! The lines whose fields are numbers.
ghost use Rattle.std.specs.Prelude.{◌≡◌, ℕ, IfSome, option_copied, option_map};
ghost use Rattle.script_core.specs.Fields.{fields_left, station_line, turn_line, show_line};
ghost use Rattle.script_core.specs.LineView.{line_view, HasRanges};

use crate::fields::{next_field, read_moment, read_number};
use crate::script_line::Line;
use uplink_frame::StationId;

/// The greatest latitude, longitude and site of a station, in the units of an uplink header.
const LAST_LATITUDE: u64 = 8_388_607;

const LAST_LONGITUDE: u64 = 16_777_215;

const LAST_SITE: u64 = 15;

/// The last slot of a second.
const LAST_SLOT: u64 = 31;

/// `station LAT LON SITE`
pub(crate) fn read_station(rest: Option<&[u8]>) -> Option<Line>
    ensures { option_map line_view result
        ≡ station_line (fields_left (option_copied rest.entry)) }
{
    let Some((lat, rest)) = next_field(rest) else {
        return None;
    };
    let Some((lon, rest)) = next_field(rest) else {
        return None;
    };
    let Some((site, rest)) = next_field(rest) else {
        return None;
    };
    let None = next_field(rest) else {
        return None;
    };
    let Some(lat) = read_number(lat, 0, LAST_LATITUDE) else {
        return None;
    };
    let Some(lon) = read_number(lon, 0, LAST_LONGITUDE) else {
        return None;
    };
    let Some(site) = read_number(site, 0, LAST_SITE) else {
        return None;
    };
    Some(Line::Station(StationId {
        lat: lat as u32,
        lon: lon as u32,
        position_valid: true,
        site: site as u8,
    }))
}

/// `turn MOMENT SLOT`
pub(crate) fn read_turn(rest: Option<&[u8]>) -> Option<Line>
    ensures { option_map line_view result
        ≡ turn_line (fields_left (option_copied rest.entry)) }
{
    let Some((moment, rest)) = next_field(rest) else {
        return None;
    };
    let Some((slot, rest)) = next_field(rest) else {
        return None;
    };
    let None = next_field(rest) else {
        return None;
    };
    let Some(moment) = read_moment(moment) else {
        return None;
    };
    let Some(slot) = read_number(slot, 0, LAST_SLOT) else {
        return None;
    };
    Some(Line::Turn {
        moment,
        slot: slot as u8,
    })
}

/// `show MOMENT`
pub(crate) fn read_show(rest: Option<&[u8]>) -> Option<Line>
    ensures { option_map line_view result
        ≡ show_line (fields_left (option_copied rest.entry)) }
{
    let Some((moment, rest)) = next_field(rest) else {
        return None;
    };
    let None = next_field(rest) else {
        return None;
    };
    let Some(moment) = read_moment(moment) else {
        return None;
    };
    Some(Line::Show { moment })
}
