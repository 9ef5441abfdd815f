use c104_tickets::{Terms, TicketWord};
use std::marker::Brand;
use std::test::Fail;

/// Two seats draw in turn, from ticket 7 on: each draws the next number, and it goes on where they left off.
#[test]
fn tickets(rt: HostRuntime) -> Result<(), Fail> {
    let terms = Terms {
        first: 7,
        seats: 2,
        places: 0,
    };
    let (word, mut second) = TicketWord::new(rt.alloc(), terms)?;
    let mut first = word.split(&mut second);
    let drawn = [
        word.draw::<Brand>(&mut first),
        word.draw::<Brand>(&mut second),
        word.draw::<Brand>(&mut first),
    ];
    word.join(&mut second, first);
    let next = word.close(second);
    assert!(rt; drawn == [7, 8, 9] && next == 10);
    Ok(())
}
