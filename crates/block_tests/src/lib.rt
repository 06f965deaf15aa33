// The reader and the writer against blocks that were written out byte by byte from the format alone.
#![tactic(auto)]

#[cfg(test)]
mod tests {
    use block::{
        Destination, Fault, Kind, Message, Report, Value, loop_back, read_block, write_block,
    };
    use command::{Command, Identity};
    use std::test::Fail;

    // The fifteen words of a block, five to a line, and what they say.
    struct Vector {
        words: &'static [u8; 60],
        message: Message,
    }

    const COMMAND: Command = Command {
        identity: Identity {
            client: 7,
            number: 2,
        },
        operation: 2,
        bay: 3,
        amount: 0x01020304,
    };

    const FAST_ACCEPT: &[u8; 60] = b"\
        \x00\x00\x00\x01\x00\x00\x00\x00\x00\x00\x00\xff\x00\x00\x00\x00\x00\x00\x00\x05\
        \x00\x00\x00\x00\x00\x00\x00\x02\x00\x00\x00\x07\x00\x00\x00\x02\x00\x00\x00\x02\
        \x00\x00\x00\x03\x01\x02\x03\x04\x00\x00\x00\x04\x00\x00\x00\x00\x00\x00\x00\x00";

    const COMMIT_NOOP: &[u8; 60] = b"\
        \x00\x00\x00\x06\x00\x00\x00\x01\x00\x00\x00\xff\x00\x00\x00\x01\x00\x00\x00\x07\
        \x00\x00\x00\x00\x00\x00\x00\x01\x00\x00\x00\x00\x00\x00\x00\x00\x00\x00\x00\x00\
        \x00\x00\x00\x00\x00\x00\x00\x00\x00\x00\x00\x00\x00\x00\x00\x00\x00\x00\x00\x00";

    const PREPARE_OK: &[u8; 60] = b"\
        \x00\x00\x00\x08\x00\x00\x00\x02\x00\x00\x00\x01\x00\x00\x00\x00\x00\x00\x00\x01\
        \x00\x00\x00\x11\x00\x00\x00\x02\x00\x00\x00\x07\x00\x00\x00\x02\x00\x00\x00\x02\
        \x00\x00\x00\x03\x01\x02\x03\x04\x00\x00\x00\x80\x00\x00\x00\x02\x00\x00\x00\x08";

    const VECTORS: [Vector; 12] = [
        Vector {
            words: FAST_ACCEPT,
            message: Message {
                kind: Kind::FastAccept,
                from: 0,
                to: Destination::All,
                log: 0,
                entry: 5,
                ballot: 0,
                value: Value::Command(COMMAND),
                dependency: 4,
                report: Report::Empty,
            },
        },
        Vector {
            words: b"\
                \x00\x00\x00\x02\x00\x00\x00\x02\x00\x00\x00\x00\x00\x00\x00\x00\x00\x00\x00\x05\
                \x00\x00\x00\x00\x00\x00\x00\x00\x00\x00\x00\x00\x00\x00\x00\x00\x00\x00\x00\x00\
                \x00\x00\x00\x00\x00\x00\x00\x00\x00\x00\x00\x00\x00\x00\x00\x00\x00\x00\x00\x00",
            message: Message {
                kind: Kind::FastAcceptOk,
                from: 2,
                to: Destination::Seat(0),
                log: 0,
                entry: 5,
                ballot: 0,
                value: Value::Nothing,
                dependency: 0,
                report: Report::Empty,
            },
        },
        Vector {
            words: b"\
                \x00\x00\x00\x03\x00\x00\x00\x02\x00\x00\x00\x01\x00\x00\x00\x01\x00\x00\x00\x80\
                \x00\x00\x00\x00\x00\x00\x00\x00\x00\x00\x00\x00\x00\x00\x00\x00\x00\x00\x00\x00\
                \x00\x00\x00\x00\x00\x00\x00\x00\x00\x00\x00\x80\x00\x00\x00\x00\x00\x00\x00\x00",
            message: Message {
                kind: Kind::FastAcceptReply,
                from: 2,
                to: Destination::Seat(1),
                log: 1,
                entry: 128,
                ballot: 0,
                value: Value::Nothing,
                dependency: 128,
                report: Report::Empty,
            },
        },
        Vector {
            words: b"\
                \x00\x00\x00\x04\x00\x00\x00\x01\x00\x00\x00\xff\x00\x00\x00\x00\x00\x00\x00\x01\
                \x00\x00\x00\x09\x00\x00\x00\x01\x00\x00\x00\x00\x00\x00\x00\x00\x00\x00\x00\x00\
                \x00\x00\x00\x00\x00\x00\x00\x00\x00\x00\x00\x00\x00\x00\x00\x00\x00\x00\x00\x00",
            message: Message {
                kind: Kind::Accept,
                from: 1,
                to: Destination::All,
                log: 0,
                entry: 1,
                ballot: 9,
                value: Value::Noop,
                dependency: 0,
                report: Report::Empty,
            },
        },
        Vector {
            words: b"\
                \x00\x00\x00\x05\x00\x00\x00\x04\x00\x00\x00\x01\x00\x00\x00\x00\x00\x00\x00\x01\
                \x00\x00\x00\x09\x00\x00\x00\x00\x00\x00\x00\x00\x00\x00\x00\x00\x00\x00\x00\x00\
                \x00\x00\x00\x00\x00\x00\x00\x00\x00\x00\x00\x00\x00\x00\x00\x00\x00\x00\x00\x00",
            message: Message {
                kind: Kind::AcceptOk,
                from: 4,
                to: Destination::Seat(1),
                log: 0,
                entry: 1,
                ballot: 9,
                value: Value::Nothing,
                dependency: 0,
                report: Report::Empty,
            },
        },
        Vector {
            words: COMMIT_NOOP,
            message: Message {
                kind: Kind::Commit,
                from: 1,
                to: Destination::All,
                log: 1,
                entry: 7,
                ballot: 0,
                value: Value::Noop,
                dependency: 0,
                report: Report::Empty,
            },
        },
        Vector {
            words: b"\
                \x00\x00\x00\x06\x00\x00\x00\x00\x00\x00\x00\x03\x00\x00\x00\x00\x00\x00\x00\x05\
                \x00\x00\x00\x00\x00\x00\x00\x02\x00\x00\x00\x07\x00\x00\x00\x02\x00\x00\x00\x02\
                \x00\x00\x00\x03\x01\x02\x03\x04\x00\x00\x00\x00\x00\x00\x00\x00\x00\x00\x00\x00",
            message: Message {
                kind: Kind::Commit,
                from: 0,
                to: Destination::Seat(3),
                log: 0,
                entry: 5,
                ballot: 0,
                value: Value::Command(COMMAND),
                dependency: 0,
                report: Report::Empty,
            },
        },
        Vector {
            words: b"\
                \x00\x00\x00\x07\x00\x00\x00\x06\x00\x00\x00\xff\x00\x00\x00\x00\x00\x00\x00\x01\
                \x00\x00\xff\xfe\x00\x00\x00\x00\x00\x00\x00\x00\x00\x00\x00\x00\x00\x00\x00\x00\
                \x00\x00\x00\x00\x00\x00\x00\x00\x00\x00\x00\x00\x00\x00\x00\x00\x00\x00\x00\x00",
            message: Message {
                kind: Kind::Prepare,
                from: 6,
                to: Destination::All,
                log: 0,
                entry: 1,
                ballot: 65534,
                value: Value::Nothing,
                dependency: 0,
                report: Report::Empty,
            },
        },
        Vector {
            words: b"\
                \x00\x00\x00\x08\x00\x00\x00\x02\x00\x00\x00\x01\x00\x00\x00\x00\x00\x00\x00\x01\
                \x00\x00\x00\x09\x00\x00\x00\x00\x00\x00\x00\x00\x00\x00\x00\x00\x00\x00\x00\x00\
                \x00\x00\x00\x00\x00\x00\x00\x00\x00\x00\x00\x00\x00\x00\x00\x00\x00\x00\x00\x00",
            message: Message {
                kind: Kind::PrepareOk,
                from: 2,
                to: Destination::Seat(1),
                log: 0,
                entry: 1,
                ballot: 9,
                value: Value::Nothing,
                dependency: 0,
                report: Report::Empty,
            },
        },
        Vector {
            words: b"\
                \x00\x00\x00\x08\x00\x00\x00\x02\x00\x00\x00\x01\x00\x00\x00\x00\x00\x00\x00\x01\
                \x00\x00\x00\x09\x00\x00\x00\x02\x00\x00\x00\x07\x00\x00\x00\x02\x00\x00\x00\x02\
                \x00\x00\x00\x03\x01\x02\x03\x04\x00\x00\x00\x01\x00\x00\x00\x01\x00\x00\x00\x00",
            message: Message {
                kind: Kind::PrepareOk,
                from: 2,
                to: Destination::Seat(1),
                log: 0,
                entry: 1,
                ballot: 9,
                value: Value::Command(COMMAND),
                dependency: 1,
                report: Report::Vote,
            },
        },
        Vector {
            words: PREPARE_OK,
            message: Message {
                kind: Kind::PrepareOk,
                from: 2,
                to: Destination::Seat(1),
                log: 0,
                entry: 1,
                ballot: 17,
                value: Value::Command(COMMAND),
                dependency: 128,
                report: Report::Accepted(8),
            },
        },
        Vector {
            words: b"\
                \x00\x00\x00\x09\x00\x00\x00\x03\x00\x00\x00\x01\x00\x00\x00\x01\x00\x00\x00\x80\
                \x00\x00\x00\x0e\x00\x00\x00\x00\x00\x00\x00\x00\x00\x00\x00\x00\x00\x00\x00\x00\
                \x00\x00\x00\x00\x00\x00\x00\x00\x00\x00\x00\x00\x00\x00\x00\x00\x00\x00\x00\x00",
            message: Message {
                kind: Kind::Reject,
                from: 3,
                to: Destination::Seat(1),
                log: 1,
                entry: 128,
                ballot: 14,
                value: Value::Nothing,
                dependency: 0,
                report: Report::Empty,
            },
        },
    ];

    const PREPARE: Message = Message {
        kind: Kind::Prepare,
        from: 1,
        to: Destination::All,
        log: 0,
        entry: 1,
        ballot: 9,
        value: Value::Nothing,
        dependency: 0,
        report: Report::Empty,
    };

    // Messages that no block holds, and how the writer refuses them.
    const UNWRITABLE: [(Message, Fault); 9] = [
        (Message { from: 7, ..PREPARE }, Fault::Range(1)),
        (
            Message {
                to: Destination::Seat(255),
                ..PREPARE
            },
            Fault::Range(2),
        ),
        (Message { log: 2, ..PREPARE }, Fault::Range(3)),
        (
            Message {
                entry: 129,
                ..PREPARE
            },
            Fault::Range(4),
        ),
        (
            Message {
                ballot: 65535,
                ..PREPARE
            },
            Fault::Range(5),
        ),
        (
            Message {
                dependency: 129,
                ..PREPARE
            },
            Fault::Range(12),
        ),
        (
            Message {
                report: Report::Accepted(7),
                ..PREPARE
            },
            Fault::Range(14),
        ),
        (
            Message {
                to: Destination::Seat(0),
                ..PREPARE
            },
            Fault::Misfit(2),
        ),
        (
            Message {
                value: Value::Noop,
                ..PREPARE
            },
            Fault::Misfit(6),
        ),
    ];

    // A good block, the byte of it that is changed, what it is changed to, and the number and the word by which it is then refused.
    const SPOILT: [(&[u8; 60], usize, u8, (u32, usize)); 34] = [
        (FAST_ACCEPT, 3, 0, (2, 0)),
        (FAST_ACCEPT, 3, 10, (2, 0)),
        (FAST_ACCEPT, 0, 1, (2, 0)),
        (FAST_ACCEPT, 7, 7, (2, 1)),
        (FAST_ACCEPT, 11, 7, (2, 2)),
        (FAST_ACCEPT, 15, 2, (2, 3)),
        (FAST_ACCEPT, 19, 0, (2, 4)),
        (FAST_ACCEPT, 19, 129, (2, 4)),
        (FAST_ACCEPT, 23, 7, (2, 5)),
        (FAST_ACCEPT, 23, 15, (2, 5)),
        (FAST_ACCEPT, 21, 1, (2, 5)),
        (FAST_ACCEPT, 27, 3, (2, 6)),
        (FAST_ACCEPT, 51, 129, (2, 12)),
        (FAST_ACCEPT, 55, 3, (2, 13)),
        (FAST_ACCEPT, 59, 1, (2, 14)),
        (FAST_ACCEPT, 60, 1, (2, 15)),
        (FAST_ACCEPT, 511, 255, (2, 15)),
        (FAST_ACCEPT, 11, 3, (3, 2)),
        (FAST_ACCEPT, 23, 8, (3, 5)),
        (FAST_ACCEPT, 27, 1, (3, 6)),
        (FAST_ACCEPT, 31, 0, (3, 7)),
        (FAST_ACCEPT, 35, 0, (3, 8)),
        (FAST_ACCEPT, 55, 1, (3, 13)),
        (FAST_ACCEPT, 59, 8, (3, 14)),
        (COMMIT_NOOP, 31, 1, (3, 7)),
        (COMMIT_NOOP, 35, 1, (3, 8)),
        (COMMIT_NOOP, 39, 1, (3, 9)),
        (COMMIT_NOOP, 43, 1, (3, 10)),
        (COMMIT_NOOP, 44, 1, (3, 11)),
        (COMMIT_NOOP, 51, 1, (3, 12)),
        (PREPARE_OK, 11, 255, (3, 2)),
        (PREPARE_OK, 23, 0, (3, 5)),
        (PREPARE_OK, 55, 0, (3, 13)),
        (PREPARE_OK, 59, 17, (3, 14)),
    ];

    fn block_of(words: &[u8; 60]) -> [u8; 512] {
        let mut block = [0; 512];
        block[..60].copy_from_slice(words);
        block
    }

    #[test]
    fn vectors_go_both_ways(rt: HostRuntime) {
        for vector in VECTORS.iter() {
            let block = block_of(vector.words);
            let mut buffer = [170; 512];
            assert_eq!(rt; read_block(&block), Ok(vector.message));
            assert_eq!(rt; write_block(&vector.message, &mut buffer), Ok(()));
            assert!(rt; buffer == block);
            assert_eq!(rt; loop_back(&vector.message, &mut buffer), Ok(vector.message));
        }
    }

    #[test]
    fn spoilt_blocks_are_refused(rt: HostRuntime) -> Result<(), Fail> {
        for (words, at, byte, (number, word)) in SPOILT {
            let mut block = block_of(words);
            if let Some(place) = block.get_mut(at) {
                *place = byte;
            }
            let Err(fault) = read_block(&block) else {
                return Err(Fail::new("a spoilt block was read"));
            };
            assert_eq!(rt; fault.number(), number);
            assert_eq!(rt; fault.word(), Some(word));
        }
        Ok(())
    }

    #[test]
    fn other_lengths_are_refused(rt: HostRuntime) {
        let block = [0; 513];
        assert_eq!(rt; read_block(&block), Err(Fault::Length));
        assert_eq!(rt; read_block(&block[..511]), Err(Fault::Length));
        assert_eq!(rt; read_block(&[]), Err(Fault::Length));
    }

    #[test]
    fn refused_messages_are_not_written(rt: HostRuntime) {
        for (message, fault) in UNWRITABLE {
            let mut buffer = [170; 512];
            assert_eq!(rt; write_block(&message, &mut buffer), Err(fault));
            assert_eq!(rt; loop_back(&message, &mut buffer), Err(fault));
            assert!(rt; buffer == [170; 512]);
        }
        let mut long = [170; 513];
        assert_eq!(rt; write_block(&PREPARE, &mut long), Err(Fault::Length));
        assert!(rt; long == [170; 513]);
    }
}
