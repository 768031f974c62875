use fisb_time::Moment;
use ground_core::AirFrame;
use radar_core::BlockKey;
use script_core::laws::ranges_of_lines;
use script_core::{Line, LineFault, print_lost, print_noapp, print_sent, read_line};
use std::alloc::{AllocError, Global};
use std::process::Abort;
use std::test::Fail;
use uplink_frame::StationId;

const HEAD: &str = "1700000000 1699999980 64 0 n";

#[test]
fn nothing_and_stations_are_read(rt: HostRuntime) -> Result<(), Fail> {
    ranges_of_lines();
    assert!(rt; matches!(read_line(rt.alloc(), b"")?, Line::Nothing));
    let station = read_line(rt.alloc(), b"station 8388607 16777215 15")?;
    assert!(rt;
        matches!(
            station,
            Line::Station(StationId {
                lat: 8_388_607,
                lon: 16_777_215,
                position_valid: true,
                site: 15
            })
        )
    );
    let first = read_line(rt.alloc(), b"station 0 0 0")?;
    assert!(rt;
        matches!(
            first,
            Line::Station(StationId {
                lat: 0,
                lon: 0,
                position_valid: true,
                site: 0
            })
        )
    );
    Ok(())
}

#[test]
fn moments_and_numbers_are_read(rt: HostRuntime) -> Result<(), Fail> {
    match read_line(rt.alloc(), b"turn 1700000001 31")? {
        Line::Turn { moment, slot } => {
            assert_eq!(rt; moment.seconds(), 1_700_000_001);
            assert_eq!(rt; slot, 31);
        }
        _ => assert!(rt; false, "turn"),
    }
    match read_line(rt.alloc(), b"hear 1700000002 4294967295")? {
        Line::Hear {
            moment,
            frame,
            wrong,
        } => {
            assert_eq!(rt; moment.seconds(), 1_700_000_002);
            assert_eq!(rt; frame, 4_294_967_295);
            assert_eq!(rt; wrong.len(), 0);
        }
        _ => assert!(rt; false, "hear"),
    }
    for (line, seconds) in [
        ("show 946684800", 946_684_800),
        ("show 4102444799", 4_102_444_799),
    ] {
        match read_line(rt.alloc(), line.as_bytes())? {
            Line::Show { moment } => assert_eq!(rt; moment.seconds(), seconds),
            _ => assert!(rt; false, "{line}"),
        }
    }
    Ok(())
}

#[test]
fn report_is_the_text_that_is_shown(rt: HostRuntime) -> Result<(), Fail> {
    for (line, shown) in [
        (
            "text 1700000000 1699999980 METAR KSEA 101853Z",
            "METAR KSEA 101853Z",
        ),
        ("text 1700000000 1699999980 ", ""),
        ("text 1700000000 1699999980  two  spaces ", " two  spaces "),
        ("text 1700000000 1699999980 A\\nB\\z", "A\nB\u{1A}"),
        ("text 1700000000 1699999980 A\u{1A}B|é", "A\u{1A}B|é"),
    ] {
        match read_line(rt.alloc(), line.as_bytes())? {
            Line::Text {
                moment,
                version,
                report,
            } => {
                assert_eq!(rt; moment.seconds(), 1_700_000_000);
                assert_eq!(rt; version.seconds(), 1_699_999_980);
                assert_eq!(rt; report.as_str(), shown);
            }
            _ => assert!(rt; false, "{line}"),
        }
    }
    Ok(())
}

#[test]
fn wrong_reports_are_refused(rt: HostRuntime) {
    for line in [
        "text",
        "text 1700000000",
        "text 1700000000 1699999980",
        "text 1700000000 946684799 A",
        "text 1700000000 01699999980 A",
        "text 1700000000  1699999980 A",
        "text 1700000000 1699999980 A\\q",
        "text 1700000000 1699999980 A\\",
        "text 1700000000 1699999980 \\\\n",
    ] {
        check_refused(&rt, rt.alloc(), line);
    }
    let not_utf8 = read_line(rt.alloc(), b"text 1700000000 1699999980 A\xFFB");
    assert!(rt; matches!(not_utf8, Err(LineFault::Syntax)));
}

#[test]
fn wrong_forms_are_refused(rt: HostRuntime) {
    for line in [
        // words
        "---",
        "wind 1700000000",
        "SHOW 1700000000",
        "shows 1700000000",
        " show 1700000000",
        " ",
        "show",
        "station",
        // ranges
        "show 946684799",
        "show 4102444800",
        "turn 1700000001 32",
        "hear 1700000001 4294967296",
        "hear 1700000001 99999999999999999999999",
        "station 8388608 0 0",
        "station 0 16777216 0",
        "station 0 0 16",
        // numbers
        "turn 01700000001 0",
        "turn 1700000001 00",
        "turn +1700000001 0",
        "turn 1700000001 +1",
        "turn 1700000001 -0",
        "turn 1700000001 a",
        "turn 1700000001 0x1",
        // spaces and numbers of fields
        "turn 1700000001 ",
        "turn 1700000001",
        "turn  1700000001 0",
        "turn 1700000001  0",
        "turn 1700000001 0 ",
        "turn 1700000001 0 0",
        "show 1700000001 ",
        "hear 1700000001",
        "hear 1700000001 0 ",
        "station 0 0",
        "station 0 0 0 0",
        // places
        "hear 1700000002 0 5=00 5=01",
        "hear 1700000002 0 6=00 5=01",
        "hear 1700000002 0 552=00",
        "hear 1700000002 0 05=00",
        "hear 1700000002 0 5=0",
        "hear 1700000002 0 5=000",
        "hear 1700000002 0 5=0g",
        "hear 1700000002 0 5=00=",
        "hear 1700000002 0 =00",
        "hear 1700000002 0 5",
        "hear 1700000002 0 5=00 ",
        "hear 1700000002 0  5=00",
    ] {
        check_refused(&rt, rt.alloc(), line);
    }
}

#[test]
fn wrong_bytes_are_read_with_their_places(rt: HostRuntime) -> Result<(), Fail> {
    match read_line(rt.alloc(), b"hear 1700000002 0 0=5A 48=ff 551=0b")? {
        Line::Hear { wrong, .. } => {
            assert_eq!(rt; wrong.len(), 3);
            assert_eq!(rt; wrong.at(0), (0, 0x5A));
            assert_eq!(rt; wrong.at(1), (48, 0xFF));
            assert_eq!(rt;
                wrong.all(),
                [(0, 0x5A), (48, 0xFF), (551, 0x0B)].as_slice()
            );
        }
        _ => assert!(rt; false, "hear"),
    }
    Ok(())
}

#[test]
fn radar_line_gives_its_block(rt: HostRuntime) -> Result<(), Fail> {
    let cells = copies_of(rt.alloc(), "01234567", 16)?;
    let cells = cells.as_str();
    let line = format!(in rt.alloc(); "radar 1700000000 1699999980 2047 3 s 1048575 {cells}")?;
    match read_line(rt.alloc(), line.as_str().as_bytes())? {
        Line::Radar {
            moment,
            version,
            key,
            cells,
        } => {
            assert_eq!(rt; moment.seconds(), 1_700_000_000);
            assert_eq!(rt; version.seconds(), 1_699_999_980);
            assert_eq!(rt;
                key,
                BlockKey {
                    product: 2_047,
                    scale: 3,
                    south: true,
                    number: 1_048_575
                }
            );
            assert_eq!(rt; [cells.at(0), cells.at(9), cells.at(127)], [0, 1, 7]);
        }
        _ => assert!(rt; false, "radar"),
    }
    Ok(())
}

#[test]
fn blank_line_gives_its_numbers(rt: HostRuntime) -> Result<(), Fail> {
    match read_line(
        rt.alloc(),
        b"blank 1700000000 1699999980 64 0 n 1048575,0,7,7",
    )? {
        Line::Blank {
            moment,
            version,
            product,
            scale,
            south,
            numbers,
        } => {
            assert_eq!(rt; moment.seconds(), 1_700_000_000);
            assert_eq!(rt; version.seconds(), 1_699_999_980);
            assert!(rt; product == 64 && scale == 0 && !south);
            assert_eq!(rt; numbers.all(), [1_048_575, 0, 7, 7].as_slice());
        }
        _ => assert!(rt; false, "blank"),
    }
    let many = copies_of(rt.alloc(), "0,", 1_024)?;
    let many = many.as_str();
    let long = format!(in rt.alloc(); "blank {HEAD} {many}0")?;
    match read_line(rt.alloc(), long.as_str().as_bytes())? {
        Line::Blank { numbers, .. } => assert_eq!(rt; numbers.len(), 1_025),
        _ => assert!(rt; false, "long blank"),
    }
    Ok(())
}

#[test]
fn wrong_radar_lines_are_refused(rt: HostRuntime) -> Result<(), Fail> {
    let cells = copies_of(rt.alloc(), "07", 64)?;
    let cells = cells.as_str();
    for head in [
        "1700000000 1699999980 2048 0 n",
        "1700000000 1699999980 64 4 n",
        "1700000000 1699999980 64 0 N",
        "1700000000 1699999980 64 0 ns",
        "1700000000 1699999980 64 0",
        "946684799 1699999980 64 0 n",
        "1700000000 4102444800 64 0 n",
    ] {
        let radar = format!(in rt.alloc(); "radar {head} 0 {cells}")?;
        check_refused(&rt, rt.alloc(), radar.as_str());
        let blank = format!(in rt.alloc(); "blank {head} 0")?;
        check_refused(&rt, rt.alloc(), blank.as_str());
    }
    for numbers in [
        "", ",", "0,", ",0", "0,,1", "1048576", "0,01", "0 1", "0, 1", "0;1",
    ] {
        let blank = format!(in rt.alloc(); "blank {HEAD} {numbers}")?;
        check_refused(&rt, rt.alloc(), blank.as_str());
    }
    for number in ["1048576", "0,1", ""] {
        let radar = format!(in rt.alloc(); "radar {HEAD} {number} {cells}")?;
        check_refused(&rt, rt.alloc(), radar.as_str());
    }
    Ok(())
}

#[test]
fn cells_are_128_digits_up_to_7(rt: HostRuntime) -> Result<(), Fail> {
    for (count, last) in [(127, ""), (128, "7"), (127, "8"), (127, "/"), (127, "a")] {
        let cells = copies_of(rt.alloc(), "7", count)?;
        let cells = cells.as_str();
        let radar = format!(in rt.alloc(); "radar {HEAD} 0 {cells}{last}")?;
        check_refused(&rt, rt.alloc(), radar.as_str());
    }
    Ok(())
}

#[test]
fn frame_is_1104_hexadecimal_digits(rt: HostRuntime) -> Result<(), Fail> {
    let digits = copies_of(rt.alloc(), "0aF9", 276)?;
    let digits = digits.as_str();
    let rx = format!(in rt.alloc(); "rx 1700000003 {digits}")?;
    match read_line(rt.alloc(), rx.as_str().as_bytes())? {
        Line::Rx { moment, air } => {
            assert_eq!(rt; moment.seconds(), 1_700_000_003);
            assert_eq!(rt;
                [air[0], air[1], air[550], air[551]],
                [0x0A, 0xF9, 0x0A, 0xF9]
            );
        }
        _ => assert!(rt; false, "rx"),
    }
    for (count, last) in [
        (1_102, ""),
        (1_103, ""),
        (1_103, "g"),
        (1_103, "G"),
        (1_103, "/"),
        (1_104, "0"),
        (1_104, "00"),
        (1_104, " "),
    ] {
        let digits = copies_of(rt.alloc(), "b", count)?;
        let digits = digits.as_str();
        let rx = format!(in rt.alloc(); "rx 1700000003 {digits}{last}")?;
        check_refused(&rt, rt.alloc(), rx.as_str());
    }
    let early = format!(in rt.alloc(); "rx 946684799 {digits}")?;
    check_refused(&rt, rt.alloc(), early.as_str());
    Ok(())
}

#[test]
fn frames_are_printed(rt: HostRuntime) -> Result<(), Fail> {
    let moment = Moment::new(1_700_000_001).ok_or("moment")?;
    let frame = AirFrame {
        moment,
        slot: 31,
        bodies: 2,
        used: 48,
        air: [0xA5; 552],
    };
    let sent = print_sent(rt.alloc(), 65_535, &frame, false)?;
    assert_eq!(rt; sent.all(), b"sent 65535 1700000001 31 2 48\n".as_slice());
    let digits = copies_of(rt.alloc(), "a5", 552)?;
    let digits = digits.as_str();
    let line = format!(in rt.alloc(); "sent 0 1700000001 31 2 48 {digits}\n")?;
    let with_air = print_sent(rt.alloc(), 0, &frame, true)?;
    assert_eq!(rt; with_air.all(), line.as_str().as_bytes());
    let lost = print_lost(rt.alloc(), moment, 5)?;
    assert_eq!(rt; lost.all(), b"lost 1700000001 5\n".as_slice());
    let noapp = print_noapp(rt.alloc(), moment)?;
    assert_eq!(rt; noapp.all(), b"noapp 1700000001\n".as_slice());
    Ok(())
}

#[test]
fn fault_says_its_cause(rt: HostRuntime) -> Result<(), Fail> {
    let syntax = format!(in rt.alloc(); "{}", LineFault::Syntax)?;
    assert_eq!(rt; syntax.as_str(), "the line is of no form");
    let memory = format!(in rt.alloc(); "{}", LineFault::NoMemory)?;
    assert_eq!(rt; memory.as_str(), "no memory is left");
    Ok(())
}

fn check_refused(rt: &impl Abort, alloc: Global, line: &str) {
    let read = read_line(alloc, line.as_bytes());
    assert!(rt; matches!(read, Err(LineFault::Syntax)), "{line}");
}

/// A text so many times.
fn copies_of(alloc: Global, text: &str, count: usize) -> Result<String, AllocError> {
    let mut all = String::new(alloc);
    for _ in 0..count {
        all.push_str(text)?;
    }
    Ok(all)
}
