//! Both books over values that are drawn.

use crate::book::both::Both;
use crate::book::draws::Draws;
use std::alloc::{AllocError, Global};

/// Draws a value among four accounts: one payment or up to four, each of them void at times, or a
/// value that has fewer payments than it says.
fn draw_value(draws: &mut Draws, value: &mut Vec<u8>) -> Result<(), AllocError> {
    let count = draws.below(6);
    if count == 0 {
        value.push(1)?;
    } else {
        value.extend_from_slice(&[2, count])?;
    }
    for _pair in 0..count.clamp(1, 4) {
        let (payee, amount) = (draws.below(5), draws.below(12));
        value.extend_from_slice(&[0, payee, 0, 0, 0, 0, 0, 0, 0, amount])?;
    }
    Ok(())
}

/// Puts a drawn value on one list of both books. Returns how many entries settled, or `None` if the
/// books answered differently or came to stand differently.
fn drawn_alike(alloc: Global, draws: &mut Draws, books: &mut Both) -> Option<u32> {
    let owner = u16::from(draws.below(4));
    let mut value = Vec::new(alloc);
    draw_value(draws, &mut value).ok()?;
    books.added_alike(alloc, owner, value.as_slice())
}

fn all_added_alike(alloc: Global, draws: &mut Draws, books: &mut Both) -> Option<u32> {
    let mut settled: u32 = 0;
    for _value in 0..10 {
        settled = settled.saturating_add(drawn_alike(alloc, draws, books)?);
    }
    Some(settled)
}

/// Adds ten drawn values to two new books. Returns how many entries settled, or `None` if the books
/// answered differently or came to stand differently.
fn settled_alike(alloc: Global, draws: &mut Draws) -> Option<u32> {
    let opening = [draws.below(20), draws.below(20), draws.below(20), 0].map(u64::from);
    let mut books = Both::new(alloc, 1, &opening)?;
    all_added_alike(alloc, draws, &mut books)
}

#[test]
fn both_books_settle_alike(rt: HostRuntime) {
    let mut draws = Draws::new(1);
    let mut settled: u32 = 0;
    for case in 0..10_000 {
        let here = settled_alike(rt.alloc(), &mut draws);
        assert!(rt; here.is_some(), "{case}");
        settled = settled.saturating_add(here.unwrap_or(0));
    }
    assert!(rt; settled > 10_000);
}
