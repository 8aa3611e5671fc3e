// The bytes of calls and answers, and what the monitor's first stage makes of them, against values that are written out.
#![tactic(auto)]

#[cfg(test)]
mod tests {
    use answers::{Answer, Refusal};
    use calls::Call;
    use fields::{Numbers, Place, Registers};
    use monitor::Limits;
    use session::Stage;
    use std::process::Abort;
    use std::test::Fail;

    // 8, 7, .. 1, from the high byte down
    const BIG: u64 = 578437695752307201;

    // Each kind of call, and its bytes; the first is the one that the stage can do.
    const CALLS: [(Call<'static>, &[u8]); 22] = [
        (Call::HowMany, &[0]),
        (
            Call::NewCell { first: 3, top: BIG },
            &[1, 3, 0, 0, 0, 0, 0, 0, 0, 1, 2, 3, 4, 5, 6, 7, 8],
        ),
        (
            Call::NewThread {
                page: 2,
                cell: 0,
                start: 4096,
            },
            &[
                2, 2, 0, 0, 0, 0, 0, 0, 0, 0, 0, 0, 0, 0, 0, 0, 0, 0, 16, 0, 0, 0, 0, 0, 0,
            ],
        ),
        (
            Call::NewTable {
                page: 4,
                cell: 0,
                index: 255,
            },
            &[
                3, 4, 0, 0, 0, 0, 0, 0, 0, 0, 0, 0, 0, 0, 0, 0, 0, 255, 0, 0, 0, 0, 0, 0, 0,
            ],
        ),
        (
            Call::Hold {
                page: 3,
                cell: 0,
                place: Place {
                    table: 0,
                    slot: 1,
                    write: true,
                    run: false,
                },
                source: Some(2),
            },
            &[
                4, 3, 0, 0, 0, 0, 0, 0, 0, 0, 0, 0, 0, 0, 0, 0, 0, 0, 0, 0, 0, 0, 0, 0, 0, 1, 0, 0,
                0, 0, 0, 0, 0, 1, 1, 2, 0, 0, 0, 0, 0, 0, 0,
            ],
        ),
        (
            Call::Hold {
                page: 3,
                cell: 0,
                place: Place {
                    table: 1,
                    slot: 0,
                    write: false,
                    run: true,
                },
                source: None,
            },
            &[
                4, 3, 0, 0, 0, 0, 0, 0, 0, 0, 0, 0, 0, 0, 0, 0, 0, 1, 0, 0, 0, 0, 0, 0, 0, 0, 0, 0,
                0, 0, 0, 0, 0, 2, 0,
            ],
        ),
        (
            Call::Give { page: 5, cell: 0 },
            &[5, 5, 0, 0, 0, 0, 0, 0, 0, 0, 0, 0, 0, 0, 0, 0, 0],
        ),
        (
            Call::Show {
                open: 1,
                cell: 0,
                place: Place {
                    table: 0,
                    slot: 2,
                    write: true,
                    run: true,
                },
            },
            &[
                6, 1, 0, 0, 0, 0, 0, 0, 0, 0, 0, 0, 0, 0, 0, 0, 0, 0, 0, 0, 0, 0, 0, 0, 0, 2, 0, 0,
                0, 0, 0, 0, 0, 3,
            ],
        ),
        (Call::Remove { page: 256 }, &[7, 0, 1, 0, 0, 0, 0, 0, 0]),
        (Call::Seal { cell: 1 }, &[8, 1, 0, 0, 0, 0, 0, 0, 0]),
        (Call::Stop { cell: 1 }, &[9, 1, 0, 0, 0, 0, 0, 0, 0]),
        (
            Call::Enter {
                thread: 2,
                x: 7,
                y: 8,
                z: 9,
            },
            &[
                10, 2, 0, 0, 0, 0, 0, 0, 0, 7, 0, 0, 0, 0, 0, 0, 0, 8, 0, 0, 0, 0, 0, 0, 0, 9, 0,
                0, 0, 0, 0, 0, 0,
            ],
        ),
        (Call::Resume { thread: 2 }, &[11, 2, 0, 0, 0, 0, 0, 0, 0]),
        (Call::Leave { number: 42 }, &[20, 42, 0, 0, 0, 0, 0, 0, 0]),
        (
            Call::Interrupt {
                registers: Numbers::None,
            },
            &[21, 0],
        ),
        (
            Call::Interrupt {
                registers: Numbers::One(BIG),
            },
            &[21, 1, 1, 2, 3, 4, 5, 6, 7, 8],
        ),
        (Call::Fault { kind: 3 }, &[22, 3, 0, 0, 0, 0, 0, 0, 0]),
        (
            Call::Grow {
                page: 5,
                place: Place {
                    table: 0,
                    slot: 1,
                    write: false,
                    run: false,
                },
            },
            &[
                23, 5, 0, 0, 0, 0, 0, 0, 0, 0, 0, 0, 0, 0, 0, 0, 0, 1, 0, 0, 0, 0, 0, 0, 0, 0,
            ],
        ),
        (
            Call::Shrink {
                page: 5,
                place: Place {
                    table: 0,
                    slot: 3,
                    write: true,
                    run: false,
                },
            },
            &[
                24, 5, 0, 0, 0, 0, 0, 0, 0, 0, 0, 0, 0, 0, 0, 0, 0, 3, 0, 0, 0, 0, 0, 0, 0, 1,
            ],
        ),
        (
            Call::Extend { page: 5, index: 1 },
            &[25, 5, 0, 0, 0, 0, 0, 0, 0, 1, 0, 0, 0, 0, 0, 0, 0],
        ),
        (Call::Who, &[26]),
        (Call::Draw { number: 6 }, &[27, 6, 0, 0, 0, 0, 0, 0, 0]),
    ];

    // Each kind of answer, and its bytes.
    const ANSWERS: [(Answer<'static>, &[u8]); 7] = [
        (
            Answer::Refused {
                refusal: Refusal {
                    number: 1,
                    place: 33,
                },
            },
            &[0, 1, 0, 0, 0, 0, 0, 0, 0, 33, 0, 0, 0, 0, 0, 0, 0],
        ),
        (Answer::Done, &[1]),
        (
            Answer::Number { number: 4096 },
            &[2, 0, 16, 0, 0, 0, 0, 0, 0],
        ),
        (
            Answer::Enters {
                top: 1,
                registers: Numbers::None,
            },
            &[3, 1, 0, 0, 0, 0, 0, 0, 0, 0],
        ),
        (
            Answer::Told {
                error: 0,
                numbers: Numbers::One(6),
            },
            &[4, 0, 0, 0, 0, 0, 0, 0, 0, 1, 6, 0, 0, 0, 0, 0, 0, 0],
        ),
        (
            Answer::Told {
                error: 8,
                numbers: Numbers::None,
            },
            &[4, 8, 0, 0, 0, 0, 0, 0, 0, 0],
        ),
        (
            Answer::Left { how: 0, number: 42 },
            &[5, 0, 0, 0, 0, 0, 0, 0, 0, 42, 0, 0, 0, 0, 0, 0, 0],
        ),
    ];

    // A call has these bytes, and these bytes, read, are written again as they are.
    fn call(rt: &impl Abort, call: Call<'_>, expected: &[u8]) -> Result<(), Fail> {
        let mut out = [0u8; 64];
        let count = calls::write(call, &mut out).map_err(|_error| "not written")?;
        assert!(rt; out.get(..count) == Some(expected));
        let again = calls::read(expected).map_err(|_error| "not read")?;
        let mut out = [0u8; 64];
        let count = calls::write(again, &mut out).map_err(|_error| "not written again")?;
        assert!(rt; out.get(..count) == Some(expected));
        Ok(())
    }

    fn answer(rt: &impl Abort, answer: Answer<'_>, expected: &[u8]) -> Result<(), Fail> {
        let mut out = [0u8; 64];
        let count = answers::write(answer, &mut out).map_err(|_error| "not written")?;
        assert!(rt; out.get(..count) == Some(expected));
        let again = answers::read(expected).map_err(|_error| "not read")?;
        let mut out = [0u8; 64];
        let count = answers::write(again, &mut out).map_err(|_error| "not written again")?;
        assert!(rt; out.get(..count) == Some(expected));
        Ok(())
    }

    // Bytes that cease to be a call at a place.
    fn garbled(rt: &impl Abort, bytes: &[u8], place: usize) -> Result<(), Fail> {
        match calls::read(bytes) {
            Ok(_) => Err(Fail::new("a call")),
            Err(at) => {
                assert!(rt; at == place);
                Ok(())
            },
        }
    }

    #[test]
    fn of_calls(rt: HostRuntime) -> Result<(), Fail> {
        for (asked, bytes) in CALLS {
            call(&rt, asked, bytes)?;
        }
        Ok(())
    }

    #[test]
    fn of_answers(rt: HostRuntime) -> Result<(), Fail> {
        for (told, bytes) in ANSWERS {
            answer(&rt, told, bytes)?;
        }
        Ok(())
    }

    // Seventeen registers, as eight bytes each.
    #[test]
    fn of_registers(rt: HostRuntime) -> Result<(), Fail> {
        let mut words = [0u32; 17];
        words[0] = 7;
        words[16] = 66051;
        let interrupted = Call::Interrupt {
            registers: Numbers::Registers(Registers { words }),
        };
        let mut out = [0u8; 200];
        let count = calls::write(interrupted, &mut out).map_err(|_error| "not written")?;
        assert!(rt; count == 138);
        assert!(rt; out[0] == 21 && out[1] == 17 && out[2] == 7 && out[3] == 0);
        assert!(rt; out[130] == 3 && out[131] == 2 && out[132] == 1 && out[133] == 0);
        Ok(())
    }

    // What the system is told of the first call in this stage, and of any other: how many pages there are, or that it is refused by 2.
    const PAGES: &[u8] = &[2, 6, 0, 0, 0, 0, 0, 0, 0];

    const REFUSED: &[u8] = &[0, 2, 0, 0, 0, 0, 0, 0, 0, 0, 0, 0, 0, 0, 0, 0, 0];

    // Each call through the public call, from its bytes to what the system is told.
    #[test]
    fn through_the_monitor(rt: HostRuntime) -> Result<(), Fail> {
        let limits = Limits { closed: 6, open: 3 };
        let mut session = session::open::<Stage>(rt.alloc(), limits)?;
        let mut expected = PAGES;
        for (_, bytes) in CALLS {
            let mut told = [0u8; 17];
            let reply = session.call(bytes, &mut told)?;
            assert!(rt; told.get(..reply.told) == Some(expected));
            expected = REFUSED;
        }
        let mut told = [0u8; 17];
        let reply = session.call(&[7, 1, 2], &mut told)?;
        let expected: &[u8] = &[0, 1, 0, 0, 0, 0, 0, 0, 0, 3, 0, 0, 0, 0, 0, 0, 0];
        assert!(rt; told.get(..reply.told) == Some(expected));
        let mut short = [0u8; 16];
        assert!(rt; session.call(&[0], &mut short).is_err());
        Ok(())
    }

    #[test]
    fn no_calls(rt: HostRuntime) -> Result<(), Fail> {
        garbled(&rt, &[], 0)?;
        garbled(&rt, &[12], 0)?;
        garbled(&rt, &[255, 1], 0)?;
        garbled(&rt, &[0, 0], 1)?;
        garbled(&rt, &[7, 1, 2], 3)?;
        garbled(
            &rt,
            &[
                23, 1, 0, 0, 0, 0, 0, 0, 0, 0, 0, 0, 0, 0, 0, 0, 0, 0, 0, 0, 0, 0, 0, 0, 0, 4,
            ],
            25,
        )?;
        garbled(&rt, &[21, 1, 1], 3)
    }
}
