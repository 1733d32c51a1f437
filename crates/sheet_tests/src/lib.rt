//! Tests of plans, kinds of reading and run sheets on examples.
#![tactic(auto)]

#[cfg(test)]
mod tests {
    use plan::check::{Plan, ShelfType, check_plan};
    use plan::refusal::Refusal;
    use reading::capture::Capture;
    use reading::kind::{Reading, amend};
    use reading::tally::Tally;
    use sheet::sheet::read_sheet;
    use sheet::words::{Fault, Layer, Record, Summary};
    use std::fmt::Display;
    use std::process::Abort;
    use std::test::Fail;

    // A fault that a sheet must give, its refusal by number.
    #[derive(Clone, Copy, PartialEq, Eq, Debug)]
    struct Expected {
        number: u8,
        place: usize,
        layer: Layer,
    }

    impl Expected {
        fn of(fault: Fault) -> Expected {
            Expected {
                number: fault.refusal.number(),
                place: fault.place,
                layer: fault.layer,
            }
        }
    }

    // A sheet, and its fault, if it has one.
    struct Case {
        bytes: &'static [u8],
        fault: Option<Expected>,
    }

    static CASES: [Case; 58] = [
        // empty
        Case {
            bytes: &[],
            fault: Some(Expected {
                number: 20,
                place: 0,
                layer: Layer::Sheet,
            }),
        },
        // N cut
        Case {
            bytes: &[0x11],
            fault: Some(Expected {
                number: 20,
                place: 8,
                layer: Layer::Sheet,
            }),
        },
        // C cut
        Case {
            bytes: &[0x11, 0x11],
            fault: Some(Expected {
                number: 20,
                place: 16,
                layer: Layer::Sheet,
            }),
        },
        // code cut
        Case {
            bytes: &[0x11, 0x11, 0x02],
            fault: Some(Expected {
                number: 20,
                place: 24,
                layer: Layer::Sheet,
            }),
        },
        // version 0
        Case {
            bytes: &[0x01, 0x11, 0x02, 0x00],
            fault: Some(Expected {
                number: 21,
                place: 0,
                layer: Layer::Sheet,
            }),
        },
        // version 2
        Case {
            bytes: &[0x21, 0x11, 0x02, 0x00],
            fault: Some(Expected {
                number: 21,
                place: 0,
                layer: Layer::Sheet,
            }),
        },
        // version 15
        Case {
            bytes: &[0xF1, 0x11, 0x02, 0x00],
            fault: Some(Expected {
                number: 21,
                place: 0,
                layer: Layer::Sheet,
            }),
        },
        // kind 2
        Case {
            bytes: &[0x19, 0x11, 0x02, 0x00],
            fault: Some(Expected {
                number: 21,
                place: 4,
                layer: Layer::Sheet,
            }),
        },
        // kind 3
        Case {
            bytes: &[0x1D, 0x11, 0x02, 0x00],
            fault: Some(Expected {
                number: 21,
                place: 4,
                layer: Layer::Sheet,
            }),
        },
        // shelf 2
        Case {
            bytes: &[0x12, 0x11, 0x02, 0x00],
            fault: Some(Expected {
                number: 21,
                place: 6,
                layer: Layer::Sheet,
            }),
        },
        // shelf 3
        Case {
            bytes: &[0x13, 0x11, 0x02, 0x00],
            fault: Some(Expected {
                number: 21,
                place: 6,
                layer: Layer::Sheet,
            }),
        },
        // N 0
        Case {
            bytes: &[0x11, 0x01, 0x02, 0x00],
            fault: Some(Expected {
                number: 11,
                place: 8,
                layer: Layer::Plan,
            }),
        },
        // N 25
        Case {
            bytes: &[0x11, 0xC9, 0x02, 0x00],
            fault: Some(Expected {
                number: 11,
                place: 8,
                layer: Layer::Plan,
            }),
        },
        // N 31
        Case {
            bytes: &[0x11, 0xF9, 0x02, 0x00],
            fault: Some(Expected {
                number: 11,
                place: 8,
                layer: Layer::Plan,
            }),
        },
        // K 0
        Case {
            bytes: &[0x11, 0x10, 0x02, 0x00],
            fault: Some(Expected {
                number: 12,
                place: 13,
                layer: Layer::Plan,
            }),
        },
        // K 5
        Case {
            bytes: &[0x11, 0x15, 0x02, 0x00],
            fault: Some(Expected {
                number: 12,
                place: 13,
                layer: Layer::Plan,
            }),
        },
        // K 7
        Case {
            bytes: &[0x11, 0x17, 0x02, 0x00],
            fault: Some(Expected {
                number: 12,
                place: 13,
                layer: Layer::Plan,
            }),
        },
        // C 0
        Case {
            bytes: &[0x11, 0x11, 0x00, 0x00],
            fault: Some(Expected {
                number: 13,
                place: 16,
                layer: Layer::Plan,
            }),
        },
        // C 65
        Case {
            bytes: &[0x11, 0x11, 0x82, 0x00],
            fault: Some(Expected {
                number: 13,
                place: 16,
                layer: Layer::Plan,
            }),
        },
        // C 127
        Case {
            bytes: &[0x11, 0x11, 0xFE, 0x00],
            fault: Some(Expected {
                number: 13,
                place: 16,
                layer: Layer::Plan,
            }),
        },
        // spare
        Case {
            bytes: &[0x11, 0x11, 0x03, 0x00],
            fault: Some(Expected {
                number: 21,
                place: 23,
                layer: Layer::Sheet,
            }),
        },
        // the first fault counts
        Case {
            bytes: &[0x21, 0x01, 0x02],
            fault: Some(Expected {
                number: 21,
                place: 0,
                layer: Layer::Sheet,
            }),
        },
        // the first fault counts
        Case {
            bytes: &[0x11, 0xC8, 0x00],
            fault: Some(Expected {
                number: 11,
                place: 8,
                layer: Layer::Plan,
            }),
        },
        // code 6
        Case {
            bytes: &[0x11, 0x11, 0x02, 0xC0],
            fault: Some(Expected {
                number: 22,
                place: 24,
                layer: Layer::Sheet,
            }),
        },
        // code 6 after a turn
        Case {
            bytes: &[0x11, 0x11, 0x02, 0x60, 0xC0],
            fault: Some(Expected {
                number: 22,
                place: 32,
                layer: Layer::Sheet,
            }),
        },
        // code 7
        Case {
            bytes: &[0x11, 0x11, 0x02, 0xE0],
            fault: Some(Expected {
                number: 22,
                place: 24,
                layer: Layer::Sheet,
            }),
        },
        // code 7 after a turn
        Case {
            bytes: &[0x11, 0x11, 0x02, 0x60, 0xE0],
            fault: Some(Expected {
                number: 22,
                place: 32,
                layer: Layer::Sheet,
            }),
        },
        // last fill bit set
        Case {
            bytes: &[0x11, 0x11, 0x02, 0x01],
            fault: Some(Expected {
                number: 23,
                place: 27,
                layer: Layer::Sheet,
            }),
        },
        // first fill bit set
        Case {
            bytes: &[0x11, 0x11, 0x02, 0x10],
            fault: Some(Expected {
                number: 23,
                place: 27,
                layer: Layer::Sheet,
            }),
        },
        // a further zero byte
        Case {
            bytes: &[0x11, 0x11, 0x02, 0x00, 0x00],
            fault: Some(Expected {
                number: 23,
                place: 27,
                layer: Layer::Sheet,
            }),
        },
        // a further byte
        Case {
            bytes: &[0x11, 0x11, 0x02, 0x00, 0xFF],
            fault: Some(Expected {
                number: 23,
                place: 27,
                layer: Layer::Sheet,
            }),
        },
        // ends exactly at a byte
        Case {
            bytes: &[0x11, 0x11, 0x02, 0x43, 0xC0, 0x00, 0x82, 0x06, 0x10, 0x28],
            fault: None,
        },
        // a byte after an end at a byte
        Case {
            bytes: &[
                0x11, 0x11, 0x02, 0x43, 0xC0, 0x00, 0x82, 0x06, 0x10, 0x28, 0x00,
            ],
            fault: Some(Expected {
                number: 23,
                place: 80,
                layer: Layer::Sheet,
            }),
        },
        // an amendment
        Case {
            bytes: &[
                0x11, 0x11, 0x02, 0x20, 0x00, 0x00, 0x00, 0x00, 0x00, 0x00, 0x00, 0x00, 0x0A, 0x00,
            ],
            fault: None,
        },
        // amendment's channel cut
        Case {
            bytes: &[0x11, 0x11, 0x02, 0x20],
            fault: Some(Expected {
                number: 20,
                place: 32,
                layer: Layer::Sheet,
            }),
        },
        // amendment's word cut
        Case {
            bytes: &[0x11, 0x11, 0x02, 0x20, 0x00],
            fault: Some(Expected {
                number: 20,
                place: 39,
                layer: Layer::Sheet,
            }),
        },
        // amendment's word cut late
        Case {
            bytes: &[
                0x11, 0x11, 0x02, 0x20, 0x00, 0x00, 0x00, 0x00, 0x00, 0x00, 0x00, 0x00,
            ],
            fault: Some(Expected {
                number: 20,
                place: 39,
                layer: Layer::Sheet,
            }),
        },
        // code cut after an amendment
        Case {
            bytes: &[
                0x11, 0x11, 0x02, 0x20, 0x00, 0x00, 0x00, 0x00, 0x00, 0x00, 0x00, 0x00, 0x0A,
            ],
            fault: Some(Expected {
                number: 20,
                place: 103,
                layer: Layer::Sheet,
            }),
        },
        // party cut, code 1
        Case {
            bytes: &[0x11, 0x11, 0x02, 0xA1, 0x04],
            fault: Some(Expected {
                number: 20,
                place: 38,
                layer: Layer::Sheet,
            }),
        },
        // party cut, code 2
        Case {
            bytes: &[0x11, 0x11, 0x02, 0xA1, 0x08],
            fault: Some(Expected {
                number: 20,
                place: 38,
                layer: Layer::Sheet,
            }),
        },
        // party cut, code 3
        Case {
            bytes: &[0x11, 0x11, 0x02, 0xA1, 0x0C],
            fault: Some(Expected {
                number: 20,
                place: 38,
                layer: Layer::Sheet,
            }),
        },
        // party cut, code 4
        Case {
            bytes: &[0x11, 0x11, 0x02, 0xA1, 0x10],
            fault: Some(Expected {
                number: 20,
                place: 38,
                layer: Layer::Sheet,
            }),
        },
        // party cut, code 5
        Case {
            bytes: &[0x11, 0x11, 0x02, 0xA1, 0x14],
            fault: Some(Expected {
                number: 20,
                place: 38,
                layer: Layer::Sheet,
            }),
        },
        // picture's count cut
        Case {
            bytes: &[0x11, 0x11, 0x02, 0x40],
            fault: Some(Expected {
                number: 20,
                place: 32,
                layer: Layer::Sheet,
            }),
        },
        // picture's channel cut
        Case {
            bytes: &[0x11, 0x11, 0x02, 0x40, 0xE0],
            fault: Some(Expected {
                number: 20,
                place: 35,
                layer: Layer::Sheet,
            }),
        },
        // picture's channel cut
        Case {
            bytes: &[0x11, 0x11, 0x02, 0x40, 0xE0, 0x41],
            fault: Some(Expected {
                number: 20,
                place: 42,
                layer: Layer::Sheet,
            }),
        },
        // picture's channel cut
        Case {
            bytes: &[0x11, 0x11, 0x02, 0x40, 0xE0, 0x41, 0x03],
            fault: Some(Expected {
                number: 20,
                place: 56,
                layer: Layer::Sheet,
            }),
        },
        // picture's channel cut
        Case {
            bytes: &[0x11, 0x11, 0x02, 0x40, 0xE0, 0x41, 0x03, 0x08],
            fault: Some(Expected {
                number: 20,
                place: 63,
                layer: Layer::Sheet,
            }),
        },
        // picture's channel cut
        Case {
            bytes: &[0x11, 0x11, 0x02, 0x40, 0xE0, 0x41, 0x03, 0x08, 0x14],
            fault: Some(Expected {
                number: 20,
                place: 70,
                layer: Layer::Sheet,
            }),
        },
        // picture's channel cut
        Case {
            bytes: &[0x11, 0x11, 0x02, 0x40, 0xE0, 0x41, 0x03, 0x08, 0x14, 0x30],
            fault: Some(Expected {
                number: 20,
                place: 77,
                layer: Layer::Sheet,
            }),
        },
        // look's link cut
        Case {
            bytes: &[0x11, 0x11, 0x02, 0xA1],
            fault: Some(Expected {
                number: 20,
                place: 32,
                layer: Layer::Sheet,
            }),
        },
        // code cut after a turn
        Case {
            bytes: &[0x11, 0x11, 0x02, 0x60],
            fault: Some(Expected {
                number: 20,
                place: 32,
                layer: Layer::Sheet,
            }),
        },
        // code cut after a release
        Case {
            bytes: &[0x11, 0x11, 0x02, 0x80],
            fault: Some(Expected {
                number: 20,
                place: 32,
                layer: Layer::Sheet,
            }),
        },
        // no records
        Case {
            bytes: &[0x11, 0x11, 0x02, 0x00],
            fault: None,
        },
        // largest plan
        Case {
            bytes: &[0x10, 0xC4, 0x80, 0x00],
            fault: None,
        },
        // largest plan
        Case {
            bytes: &[0x11, 0xC4, 0x80, 0x00],
            fault: None,
        },
        // largest plan
        Case {
            bytes: &[0x14, 0xC4, 0x80, 0x00],
            fault: None,
        },
        // largest plan
        Case {
            bytes: &[0x15, 0xC4, 0x80, 0x00],
            fault: None,
        },
    ];

    // What a sheet comes to, and its records.
    fn read(rt: &HostRuntime, bytes: &[u8]) -> Result<(Summary, Vec<Record>), Fail> {
        let mut records = Vec::new(rt.alloc());
        let summary = read_sheet(bytes, &mut records)?;
        Ok((summary, records))
    }

    #[test]
    fn every_fault_at_every_field(rt: HostRuntime) -> Result<(), Fail> {
        for case in &CASES {
            let (summary, _records) = read(&rt, case.bytes)?;
            assert_eq!(rt; summary.fault.map(Expected::of), case.fault);
        }
        Ok(())
    }

    static ALL_RECORDS: [u8; 22] = [
        0x11, 0x11, 0x02, 0x3F, 0xFF, 0xFF, 0xFF, 0xFF, 0xFF, 0xFF, 0xFF, 0xFF, 0xFE, 0xBC, 0x11,
        0x57, 0xF0, 0x0F, 0xF0, 0xF7, 0xFC, 0x00,
    ];

    static LINES: [&str; 6] = [
        "amendment party 31 channel 127 word 0xFFFFFFFFFFFFFFFF",
        "picture party 30 channels none",
        "picture party 5 channels 127 0",
        "turn party 31",
        "release party 7",
        "look party 31 link 7",
    ];

    // Whether a value is shown as this line.
    fn check_text<T: Display>(
        rt: &(impl Abort + AllocGlobal),
        shown: &T,
        line: &str,
    ) -> Result<(), Fail> {
        let text = format!(in rt.alloc(); "{shown}")?;
        assert_eq!(rt; text.as_str(), line);
        Ok(())
    }

    #[test]
    fn every_kind_of_record(rt: HostRuntime) -> Result<(), Fail> {
        let (summary, records) = read(&rt, &ALL_RECORDS)?;
        assert!(rt; summary.fault.is_none());
        assert_eq!(rt; records.len(), 6);
        for (record, line) in records.iter().zip(LINES.iter()) {
            check_text(&rt, record, line)?;
        }
        let header = summary.header.ok_or("no header")?;
        check_text(
            &rt,
            &header,
            "sheet kind tally shelf block parties 2 links 1 channels 1",
        )
    }

    // A header, turns of one byte each, and the end: `bytes` in all.
    fn turns(rt: &HostRuntime, bytes: usize) -> Result<Vec<u8>, Fail> {
        let mut sheet = Vec::new(rt.alloc());
        sheet.extend_from_slice(&[0x11, 0x11, 0x02])?;
        sheet.resize(bytes.max(4) - 1, 0x60)?;
        sheet.push(0)?;
        Ok(sheet)
    }

    #[test]
    fn longest_sheet(rt: HostRuntime) -> Result<(), Fail> {
        let sheet = turns(&rt, 65_536)?;
        assert_eq!(rt; sheet.len(), 65_536);
        let (summary, records) = read(&rt, sheet.as_slice())?;
        assert!(rt; summary.fault.is_none());
        assert_eq!(rt; records.len(), 65_532);
        Ok(())
    }

    #[test]
    fn too_long_a_sheet(rt: HostRuntime) -> Result<(), Fail> {
        let sheet = turns(&rt, 65_537)?;
        assert_eq!(rt; sheet.len(), 65_537);
        let (summary, records) = read(&rt, sheet.as_slice())?;
        assert!(rt; summary.header.is_none());
        assert_eq!(rt; records.len(), 0);
        let fault = Expected {
            number: 24,
            place: 0,
            layer: Layer::Sheet,
        };
        assert_eq!(rt; summary.fault.map(Expected::of), Some(fault));
        Ok(())
    }

    // The number by which a plan is refused, if it is. (The sizes are three numbers here, so that a case is one line.)
    fn refused(
        parties: u8,
        links: u8,
        channels: u8,
        shelf: ShelfType,
        blocks: usize,
    ) -> Option<u8> {
        let plan = Plan {
            parties,
            links,
            channels,
        };
        check_plan(plan, shelf, blocks).err().map(Refusal::number)
    }

    #[test]
    fn plans(rt: HostRuntime) {
        assert_eq!(rt; refused(2, 1, 1, ShelfType::Block, 7), None);
        assert_eq!(rt; refused(2, 1, 1, ShelfType::Block, 6), Some(14));
        assert_eq!(rt; refused(2, 1, 1, ShelfType::Flag, 3), None);
        assert_eq!(rt; refused(2, 1, 1, ShelfType::Flag, 2), Some(14));
        assert_eq!(rt; refused(24, 4, 64, ShelfType::Block, 2_392), None);
        assert_eq!(rt; refused(24, 4, 64, ShelfType::Block, 2_391), Some(14));
        assert_eq!(rt; refused(0, 0, 0, ShelfType::Flag, 0), Some(11));
        assert_eq!(rt; refused(25, 5, 65, ShelfType::Flag, 0), Some(11));
        assert_eq!(rt; refused(24, 0, 65, ShelfType::Flag, 0), Some(12));
        assert_eq!(rt; refused(24, 5, 65, ShelfType::Flag, 0), Some(12));
        assert_eq!(rt; refused(24, 4, 0, ShelfType::Flag, 0), Some(13));
        assert_eq!(rt; refused(24, 4, 65, ShelfType::Flag, 0), Some(13));
    }

    #[test]
    fn tallies(rt: HostRuntime) {
        let top = Tally { count: u64::MAX };
        assert_eq!(rt; top.amended(1).shown(), 0);
        assert_eq!(rt; Tally::blank().amended(7).amended(8).shown(), 15);
    }

    fn shown_after(reading: Capture, word: u64) -> Result<u64, Refusal> {
        Ok(amend(reading, word)?.shown())
    }

    #[test]
    fn captures(rt: HostRuntime) -> Result<(), Fail> {
        let blank = Capture::blank();
        assert_eq!(rt; blank.shown(), 0);
        assert_eq!(rt;
            shown_after(blank, 0xFFFF_FFFE_0001_0000)?,
            0xFFFF_FFFE_0001_0000
        );
        assert_eq!(rt;
            shown_after(blank, 0xFFFF_FFFE_0002_0000),
            Err(Refusal::WordNotAdmitted)
        );
        assert_eq!(rt; shown_after(blank, 0xFFFF_FFFF_0000_1234)?, 0x1234);
        let held = amend(blank, 0x0000_0005_0003_00FF)?;
        assert_eq!(rt;
            shown_after(held, 0xFFFF_FFFF_0000_1234)?,
            0x0000_0005_0003_1234
        );
        Ok(())
    }
}
