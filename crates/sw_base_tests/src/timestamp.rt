use sw_timestamp::{GREATEST, NotTimestamp, Tag, Timestamp, laws};

/// The units of each text, by hand, or `None` where it is no time.
const READINGS: [(&[u8], Option<u64>); 17] = [
    (b"0", Some(0)),
    (b"0000000000.00000", Some(0)),
    (b"9999999999.99999", Some(999_999_999_999_999)),
    (b"1401224048.22541", Some(140_122_404_822_541)),
    (b"5", Some(500_000)),
    (b"1.5", Some(150_000)),
    (b"0.00001", Some(1)),
    (b"10000000000", None),
    (b"1.123456", None),
    (b"1.", None),
    (b"", None),
    (b".5", None),
    (b"-1", None),
    (b"1_2", None),
    (b"1.2.3", None),
    (b" 1", None),
    (b"never", None),
];

/// The normal form of each number of units, by hand, or `None` where it is no time.
const WRITINGS: [(u64, Option<&[u8; 16]>); 5] = [
    (0, Some(b"0000000000.00000")),
    (500_000, Some(b"0000000005.00000")),
    (140_122_404_822_541, Some(b"1401224048.22541")),
    (999_999_999_999_999, Some(b"9999999999.99999")),
    (1_000_000_000_000_000, None),
];

/// Whether the text reads as this number of units, or is refused where none is given.
fn reads_as(text: &[u8], units: Option<u64>) -> bool {
    match Timestamp::parse(text) {
        Ok(time) => units == Some(time.units()),
        Err(NotTimestamp) => units.is_none(),
    }
}

/// Whether the units are a time whose two texts are this one, or no time where none is given. A text leaves the rest of
/// its room as it was.
fn writes_as(units: u64, text: Option<&[u8; 16]>) -> bool {
    let Some(time) = Timestamp::from_units(units) else {
        return text.is_none();
    };
    let mut normal = [0; 16];
    time.write_normal(&mut normal);
    let mut room = [b'-'; 33];
    let count = time.write_text(&mut room);
    time.units() == units
        && text == Some(&normal)
        && count == 16
        && &room[..16] == normal.as_slice()
        && &room[16..] == [b'-'; 17].as_slice()
}

#[test]
fn times_are_read_and_written_by_their_grammar_alone(rt: HostRuntime) {
    for (text, units) in READINGS {
        assert!(rt; reads_as(text, units), "{units:?}");
    }
    for (units, text) in WRITINGS {
        assert!(rt; writes_as(units, text), "{units}");
    }
    assert_eq!(rt; GREATEST, 999_999_999_999_999);
}

#[test]
fn times_are_ordered_as_their_numbers_and_tags_differ(rt: HostRuntime) {
    assert!(rt; Timestamp::from_units(1) < Timestamp::from_units(999_999_999_999_999));
    assert!(rt; Tag::Put != Tag::Del && Tag::Del != Tag::Meta);
    laws::greatest_time();
    laws::reads_as_one_time();
    laws::reads_as_time();
    laws::normal_text_reads_back();
    laws::texts_differ();
}
