// Sessions with either monitor, and one cell from its making to its end in the one that has all the calls.
#![tactic(auto)]

#[cfg(test)]
mod tests {
    use answers::{Answer, Refusal};
    use calls::Call;
    use fields::{Numbers, Place, Registers};
    use full_session::Whole;
    use monitor::Limits;
    use session::{Monitor, NotWritten, Session, Stage};
    use std::alloc::Global;
    use std::process::Abort;
    use std::test::Fail;

    // Registers 0 to 16.
    const COUNTED: Numbers<'static> = Numbers::Registers(Registers {
        words: [0, 1, 2, 3, 4, 5, 6, 7, 8, 9, 10, 11, 12, 13, 14, 15, 16],
    });

    // The name of a cell in which nothing but a thread from 4,096 was made.
    const NAME: [u32; 8] = [
        2679725656, 1180564849, 4218349236, 3221858598, 1795978103, 3783897963, 2335176584,
        2333515072,
    ];

    // One cell, from its making to its end; and then another, which asks for its name: each call, and what the machine is answered.
    const ONE_CELL: [(Call<'static>, Answer<'static>); 43] = [
        (Call::NewCell { first: 0, top: 1 }, Answer::Done),
        (
            Call::NewCell { first: 0, top: 2 },
            Answer::Refused {
                refusal: Refusal {
                    number: 4,
                    place: 0,
                },
            },
        ),
        (
            Call::NewThread {
                page: 2,
                cell: 0,
                start: 4096,
            },
            Answer::Done,
        ),
        (
            Call::Hold {
                page: 3,
                cell: 0,
                place: Place {
                    table: 0,
                    slot: 1,
                    write: false,
                    run: false,
                },
                source: None,
            },
            Answer::Refused {
                refusal: Refusal {
                    number: 8,
                    place: 0,
                },
            },
        ),
        (
            Call::NewTable {
                page: 4,
                cell: 0,
                index: 0,
            },
            Answer::Done,
        ),
        (
            Call::Hold {
                page: 3,
                cell: 0,
                place: Place {
                    table: 0,
                    slot: 1,
                    write: true,
                    run: false,
                },
                source: Some(2),
            },
            Answer::Done,
        ),
        (
            Call::Hold {
                page: 5,
                cell: 0,
                place: Place {
                    table: 0,
                    slot: 1,
                    write: false,
                    run: false,
                },
                source: None,
            },
            Answer::Refused {
                refusal: Refusal {
                    number: 8,
                    place: 0,
                },
            },
        ),
        (
            Call::Show {
                open: 1,
                cell: 0,
                place: Place {
                    table: 0,
                    slot: 2,
                    write: true,
                    run: false,
                },
            },
            Answer::Done,
        ),
        (
            Call::Enter {
                thread: 2,
                x: 0,
                y: 0,
                z: 0,
            },
            Answer::Refused {
                refusal: Refusal {
                    number: 7,
                    place: 0,
                },
            },
        ),
        (Call::Seal { cell: 0 }, Answer::Done),
        (
            Call::Seal { cell: 0 },
            Answer::Refused {
                refusal: Refusal {
                    number: 6,
                    place: 0,
                },
            },
        ),
        (
            Call::Hold {
                page: 5,
                cell: 0,
                place: Place {
                    table: 0,
                    slot: 3,
                    write: false,
                    run: false,
                },
                source: None,
            },
            Answer::Refused {
                refusal: Refusal {
                    number: 6,
                    place: 0,
                },
            },
        ),
        (Call::Give { page: 5, cell: 0 }, Answer::Done),
        (
            Call::Remove { page: 3 },
            Answer::Refused {
                refusal: Refusal {
                    number: 10,
                    place: 0,
                },
            },
        ),
        (
            Call::Enter {
                thread: 2,
                x: 7,
                y: 8,
                z: 9,
            },
            Answer::Enters {
                top: 1,
                registers: Numbers::Registers(Registers {
                    words: [7, 8, 9, 0, 0, 0, 0, 0, 0, 0, 0, 0, 0, 0, 0, 4096, 0],
                }),
            },
        ),
        (
            Call::HowMany,
            Answer::Refused {
                refusal: Refusal {
                    number: 14,
                    place: 0,
                },
            },
        ),
        (
            Call::Grow {
                page: 5,
                place: Place {
                    table: 0,
                    slot: 1,
                    write: false,
                    run: false,
                },
            },
            Answer::Told {
                error: 8,
                numbers: Numbers::None,
            },
        ),
        (
            Call::Grow {
                page: 5,
                place: Place {
                    table: 0,
                    slot: 3,
                    write: false,
                    run: false,
                },
            },
            Answer::Told {
                error: 0,
                numbers: Numbers::None,
            },
        ),
        (
            Call::Interrupt { registers: COUNTED },
            Answer::Left { how: 1, number: 0 },
        ),
        (
            Call::Enter {
                thread: 2,
                x: 0,
                y: 0,
                z: 0,
            },
            Answer::Refused {
                refusal: Refusal {
                    number: 11,
                    place: 0,
                },
            },
        ),
        (
            Call::Resume { thread: 2 },
            Answer::Enters {
                top: 1,
                registers: COUNTED,
            },
        ),
        (
            Call::Shrink {
                page: 5,
                place: Place {
                    table: 0,
                    slot: 1,
                    write: false,
                    run: false,
                },
            },
            Answer::Told {
                error: 8,
                numbers: Numbers::None,
            },
        ),
        (
            Call::Shrink {
                page: 5,
                place: Place {
                    table: 0,
                    slot: 3,
                    write: false,
                    run: false,
                },
            },
            Answer::Told {
                error: 0,
                numbers: Numbers::None,
            },
        ),
        (
            Call::Extend { page: 5, index: 1 },
            Answer::Told {
                error: 0,
                numbers: Numbers::None,
            },
        ),
        (
            Call::Leave { number: 42 },
            Answer::Left { how: 0, number: 42 },
        ),
        (
            Call::Leave { number: 42 },
            Answer::Refused {
                refusal: Refusal {
                    number: 14,
                    place: 0,
                },
            },
        ),
        (
            Call::Remove { page: 5 },
            Answer::Refused {
                refusal: Refusal {
                    number: 10,
                    place: 0,
                },
            },
        ),
        (Call::Stop { cell: 0 }, Answer::Done),
        (
            Call::Enter {
                thread: 2,
                x: 0,
                y: 0,
                z: 0,
            },
            Answer::Refused {
                refusal: Refusal {
                    number: 7,
                    place: 0,
                },
            },
        ),
        (
            Call::Remove { page: 0 },
            Answer::Refused {
                refusal: Refusal {
                    number: 4,
                    place: 0,
                },
            },
        ),
        (Call::Remove { page: 1 }, Answer::Done),
        (Call::Remove { page: 2 }, Answer::Done),
        (Call::Remove { page: 3 }, Answer::Done),
        (Call::Remove { page: 4 }, Answer::Done),
        (Call::Remove { page: 5 }, Answer::Done),
        (Call::Remove { page: 0 }, Answer::Done),
        (Call::NewCell { first: 0, top: 1 }, Answer::Done),
        (
            Call::NewThread {
                page: 2,
                cell: 0,
                start: 4096,
            },
            Answer::Done,
        ),
        (Call::Seal { cell: 0 }, Answer::Done),
        (
            Call::Enter {
                thread: 2,
                x: 0,
                y: 0,
                z: 0,
            },
            Answer::Enters {
                top: 1,
                registers: Numbers::Registers(Registers {
                    words: [0, 0, 0, 0, 0, 0, 0, 0, 0, 0, 0, 0, 0, 0, 0, 4096, 0],
                }),
            },
        ),
        (
            Call::Who,
            Answer::Told {
                error: 0,
                numbers: Numbers::Name(NAME),
            },
        ),
        (
            Call::Draw { number: 6 },
            Answer::Told {
                error: 0,
                numbers: Numbers::One(6),
            },
        ),
        (Call::Fault { kind: 3 }, Answer::Left { how: 2, number: 3 }),
    ];

    fn opened<M: Monitor>(heap: Global) -> Result<Session<M>, Fail> {
        match session::open(heap, Limits { closed: 6, open: 3 }) {
            Ok(session) => Ok(session),
            Err(_) => Err(Fail::new("not opened")),
        }
    }

    // Two answers have the same bytes.
    fn same(rt: &impl Abort, found: Answer<'_>, expected: Answer<'_>) -> Result<(), Fail> {
        let mut one = [0u8; 200];
        let mut other = [0u8; 200];
        let count = answers::write(found, &mut one).map_err(|_error| "not written")?;
        let size = answers::write(expected, &mut other).map_err(|_error| "not written")?;
        let bytes = other.get(..size).ok_or("too long")?;
        assert!(rt; one.get(..count) == Some(bytes));
        Ok(())
    }

    // Each call through the public call: what the machine is answered, and the bytes that the system is told.
    #[test]
    fn one_cell(rt: HostRuntime) -> Result<(), Fail> {
        let mut session = opened::<Whole>(rt.alloc())?;
        for (call, answer) in ONE_CELL {
            let mut bytes = [0u8; 200];
            let count = calls::write(call, &mut bytes).map_err(|_error| "not written")?;
            let mut out = [0u8; 17];
            let reply = session.call(bytes.get(..count).ok_or("too long")?, &mut out)?;
            same(&rt, reply.answer, answer)?;
            let told = out.get(..reply.told).ok_or("too long")?;
            let heard = answers::read(told).map_err(|_error| "not read")?;
            same(&rt, heard, answers::told_to_system(answer))?;
        }
        Ok(())
    }

    // What a page gets: the open page that was named, or zeros, whatever was there before.
    #[test]
    fn contents(rt: HostRuntime) -> Result<(), Fail> {
        let mut session = opened::<Whole>(rt.alloc())?;
        assert!(rt; session.write_open(2, &[17, 4, 8]).is_ok());
        assert!(rt; session.write_closed(3, &[1, 2, 3, 4]).is_ok());
        for (call, _) in ONE_CELL.iter().take(6) {
            let mut bytes = [0u8; 200];
            let count = calls::write(*call, &mut bytes).map_err(|_error| "not written")?;
            let mut out = [0u8; 17];
            assert!(rt;
                session
                    .call(bytes.get(..count).ok_or("too long")?, &mut out)
                    .is_ok()
            );
        }
        let page = session.closed_page(3).ok_or("no page")?;
        let words: &[u32] = &[17, 4, 8, 0];
        assert!(rt; page.get(..4) == Some(words));
        Ok(())
    }

    // Bytes that are no call, and a slice that is too short.
    #[test]
    fn no_room(rt: HostRuntime) -> Result<(), Fail> {
        let mut session = opened::<Whole>(rt.alloc())?;
        let mut out = [0u8; 17];
        let reply = session.call(&[7, 1, 2], &mut out)?;
        let expected: &[u8] = &[0, 1, 0, 0, 0, 0, 0, 0, 0, 3, 0, 0, 0, 0, 0, 0, 0];
        assert!(rt; out.get(..reply.told) == Some(expected));
        let mut short = [0u8; 16];
        assert!(rt; session.call(&[0], &mut short).is_err());
        Ok(())
    }

    fn opens<M: Monitor>(heap: Global, closed: u64, open: u64) -> bool {
        session::open::<M>(heap, Limits { closed, open }).is_ok()
    }

    fn limits<M: Monitor>(rt: &impl Abort, heap: Global) {
        assert!(rt; !opens::<M>(heap, 1, 0));
        assert!(rt; !opens::<M>(heap, 4097, 0));
        assert!(rt; !opens::<M>(heap, 2, 1048577));
        assert!(rt; opens::<M>(heap, 2, 0));
    }

    #[test]
    fn limits_of_either(rt: HostRuntime) {
        limits::<Stage>(&rt, rt.alloc());
        limits::<Whole>(&rt, rt.alloc());
    }

    // Pages are written and read, and why they are not.
    fn written<M: Monitor>(rt: &impl Abort, heap: Global) -> Result<(), Fail> {
        let mut session = opened::<M>(heap)?;
        let many = [1u32; 1025];
        assert!(rt; session.write_open(2, &[5]).is_ok());
        assert!(rt; session.write_open(3, &many) == Err(NotWritten::NoSuchPage));
        assert!(rt; session.write_closed(5, &many) == Err(NotWritten::TooManyWords));
        let page = session.open_page(2).ok_or("no page")?;
        let words: &[u32] = &[5, 0];
        assert!(rt; page.get(..2) == Some(words));
        assert!(rt; session.open_page(3).is_none());
        Ok(())
    }

    #[test]
    fn pages_of_either(rt: HostRuntime) -> Result<(), Fail> {
        written::<Stage>(&rt, rt.alloc())?;
        written::<Whole>(&rt, rt.alloc())
    }
}
